//! What is written of files over a finished common file.

ghost use Rattle.dwz_def_over.specs.Laws.{EitherOverLaw, ImportsLaw, OneOverFaultLaw, OneReadLaw, PlacedLaw, ReadBackOverLaw};
ghost use Rattle.dwz_def_over.specs.Laws.{ReadNotRefusedLaw, SectionOverLaw, TiedOverLaw};
ghost use Rattle.dwz_def_over.specs.WriteLaws.{CanWriteOverLaw};

/// Laws on what is read of files over a finished common file, and taken of that: it is fixed by their bytes; where it is read nothing of it
/// is refused; and all has places.
pub fn read_laws()
    ensures one { OneReadLaw }
    ensures not_refused { ReadNotRefusedLaw }
    ensures placed { PlacedLaw }
{}

/// Laws on what refuses what is written of them. At most one refusal is the first; either one is, or nothing refuses it; and it is of a
/// section.
pub fn refused_laws()
    ensures one { OneOverFaultLaw }
    ensures either { EitherOverLaw }
    ensures section { SectionOverLaw }
{}

/// Laws on what is written of them. A unit imports a partial unit of the common file exactly if it takes it. Where nothing refuses them, all
/// files read back beside the common file, which says what it said, as what was read, along images, where copies in the common file count as
/// one place. Each that imports from it has its name and its checksum.
pub fn over_laws()
    ensures imports { ImportsLaw }
    ensures back { ReadBackOverLaw }
    ensures tied { TiedOverLaw }
{}

/// All that is asked of a run, so that what it writes reads back, holds where nothing refuses it.
pub fn write_laws()
    ensures { CanWriteOverLaw }
{}
