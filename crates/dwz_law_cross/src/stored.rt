//! Units are stored in one way.

ghost use Rattle.dwz_law_cross.specs.StoredLaws.{StoredLaw};

/// A law on files, with no limit to their entries: they store at most one list of units.
pub fn stored_laws()
    ensures { StoredLaw }
{}
