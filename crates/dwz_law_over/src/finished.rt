//! A file before a run over a finished common file and after it are read beside that, or without it, and mean the same.

ghost use Rattle.dwz_law_over.specs.FinishedOverLaws.{AloneOverLaw, FinishedOverLaw};

/// Laws on files that nothing refuses over a finished common file, where limits leave room for what is read. Each of them is read before and
/// after, one behind the other, beside the common file; and the two mean the same, imports expanded (DWARF 5, 3.2.5 and 7.3.6). So it is
/// without the common file with each that imports nothing from it.
pub fn finished_over_laws()
    ensures beside { FinishedOverLaw }
    ensures alone { AloneOverLaw }
{}
