//! What holds of the partial units of a plan.

ghost use Rattle.dwz_layout_order.specs.Ordered.{FitLaw};

/// The partial units of a plan of files hold tops of these files, and few, and each is of one of the files or of the common file.
pub fn fit_laws()
    ensures { FitLaw }
{}
