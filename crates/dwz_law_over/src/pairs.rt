//! What stands after of a file, over a finished common file, means what the file meant.

ghost use Rattle.dwz_law_over.specs.PairOverLaws.{MeetOverLaw, SameMeaningOverLaw};

/// Laws on files over a finished common file, and on what stands after of one of them, at places of its own, beside that. What the common
/// file has more than once counts as one: so what a file imports may be any of several copies. The two mean the same, imports expanded
/// (DWARF 5, 3.2.5); also where the old file is beside the common file too, with a number of its own.
pub fn pair_over_laws()
    ensures same { SameMeaningOverLaw }
    ensures meet { MeetOverLaw }
{}
