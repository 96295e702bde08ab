//! What stands after of a file means what the file meant.

ghost use Rattle.dwz_law_cross.specs.PairLaws.{PairLaw, SameMeaningLaw};

/// A law on files that read, and on what stands after of one of them, at places of its own. Images pair the entries of the file with
/// those that stand after, beside the common file; so the two mean the same, imports expanded (DWARF 5, 3.2.5).
pub fn pair_laws()
    ensures pairs { PairLaw }
    ensures same { SameMeaningLaw }
{}
