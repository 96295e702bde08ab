//! The entries of what was written over a finished common file may stand as they do.

ghost use Rattle.dwz_law_over.specs.StandOverLaws.{OwnOverLaw, StandOverLaw};

/// Laws on files that nothing refuses over a finished common file. The entries of each file of which something moves, or is taken, have
/// forms that are read where they stand beside that file, and are not too deep (DWARF 5, 7.5.6 and 7.3.6); and so they are without it, where
/// the file imports nothing from it, since what stands in its place then refers to nothing but itself.
pub fn stand_over_laws()
    ensures stands { StandOverLaw }
    ensures own { OwnOverLaw }
{}
