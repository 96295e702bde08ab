//! Fewer files are within the limits as well.

ghost use Rattle.dwz_def_limits.specs.Laws.{FewerLaw};

/// A law on limits: files that are within them together are so without the first of them.
pub fn limit_laws()
    ensures { FewerLaw }
{}
