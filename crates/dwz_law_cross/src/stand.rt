//! The entries of what was written may stand as they do.

ghost use Rattle.dwz_law_cross.specs.StandLaws.{StandLaw};

/// A law on files that nothing refuses: the entries of the common file that is made, and of each file of which something moves, have forms
/// that are read where they stand, and are not too deep (DWARF 5, 7.5.6 and 7.3.6).
pub fn stand_laws()
    ensures { StandLaw }
{}
