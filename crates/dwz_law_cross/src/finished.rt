//! A file before a run and after it are read beside the common file, or without it, and mean the same.

ghost use Rattle.dwz_law_cross.specs.FinishedLaws.{AloneLaw, FinishedLaw, NamesLaw};

/// Laws on files that nothing refuses, where limits leave room for what is read. Where there is a common file each of them is read before
/// and after, one behind the other, beside it; and the two mean the same, imports expanded (DWARF 5, 3.2.5 and 7.3.6). So it is without the
/// common file with each that imports nothing from it. Those that import from it are just those that have `.debug_sup` after; before none
/// has it.
pub fn finished_laws()
    ensures beside { FinishedLaw }
    ensures alone { AloneLaw }
    ensures names { NamesLaw }
{}
