//! What is written of files is said to mean the same.

ghost use Rattle.dwz_law_run.specs.SameLaws.{SameLaw};

/// A law on files that are written: where each of them before and after, and the common file if its name is given, are together within the
/// limits, what comes of comparing the two is that they mean the same (DWARF 5, 3.2.5 and 7.3.6). The common file has to be named where one
/// of the two has `.debug_sup`; no file has it before.
pub fn same_laws()
    ensures { SameLaw }
{}
