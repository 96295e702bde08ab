//! Files that were given, and files that were written, are read as files that may have been written.

ghost use Rattle.dwz_law_cross.specs.ReadLaws.{CommonLaw, GivenLaw, WrittenLaw};

/// Laws on files that may have been written, with a common file or without one. A file that is given reads as one, and says the same there,
/// where limits leave room for it. A file that says units, as what is written does, reads as one where its entries may stand so; and so does
/// a common file.
pub fn read_laws()
    ensures given { GivenLaw }
    ensures written { WrittenLaw }
    ensures common { CommonLaw }
{}
