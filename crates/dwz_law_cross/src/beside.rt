//! What is written of a file means what the file meant.

ghost use Rattle.dwz_law_cross.specs.BesideLaws.{BackSameLaw, MeetLaw, PlacesLaw};

/// Laws on the files of a run, as they are read back beside the common file that was made: each means what it meant, imports expanded
/// (DWARF 5, 3.2.5). So it does where the old file and the new one are read together, with numbers of their own.
pub fn beside_laws()
    ensures back { BackSameLaw }
    ensures meet { MeetLaw }
    ensures places { PlacesLaw }
{}
