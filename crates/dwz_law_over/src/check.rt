//! What was read of a file, and what is read back of it over a finished common file, mean the same.

ghost use Rattle.dwz_law_over.specs.CheckOverLaws.{CheckOverLaw, StayOverLaw};

/// Laws on files that nothing refuses over a finished common file, and that read back: each means what it meant, imports expanded (DWARF 5,
/// 3.2.5 and 7.3.6), where the old file and the new one are read beside the common file, each with a number of its own; whether it is
/// written anew or stays as it was.
pub fn check_over_laws()
    ensures moved { CheckOverLaw }
    ensures stays { StayOverLaw }
{}
