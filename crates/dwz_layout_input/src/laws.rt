//! What the lists need is there.

ghost use Rattle.dwz_layout_input.specs.ListedLaws.{FitLaw, FitOverLaw, MadeLaw};

/// Files that are kept, their indexes and their plan are what the lists need, also with a common file that stands behind them. What is
/// known of them is of the lists.
pub fn listed_laws()
    ensures fit { FitLaw }
    ensures over { FitOverLaw }
    ensures made { MadeLaw }
{}
