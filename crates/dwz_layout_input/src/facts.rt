//! What holds of files of which all is settled.

ghost use Rattle.dwz_layout_input.specs.Settled.{FactsLaw};
ghost use Rattle.dwz_layout_input.specs.SettledOver.{AreOverLaw};

/// The facts of files that are read, indexed and planned, and whose units are numbered, are facts, for each way in which files share; and
/// over a common file that stands they are facts over it.
pub fn facts_laws()
    ensures facts { FactsLaw }
    ensures over { AreOverLaw }
{}
