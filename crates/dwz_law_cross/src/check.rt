//! What was read of a file, and what is read back of it, mean the same.

ghost use Rattle.dwz_law_cross.specs.CheckLaws.{CheckLaw, StayLaw};

/// Laws on files that read back: each means what it meant, imports expanded (DWARF 5, 3.2.5 and 7.3.6), where the old file and the new one
/// are read beside the common file, each with a number of its own; whether something of it moves or it stays as it was.
pub fn check_laws()
    ensures moved { CheckLaw }
    ensures stays { StayLaw }
{}
