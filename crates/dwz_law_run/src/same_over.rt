//! What is written of files over a finished common file is said to mean the same.

ghost use Rattle.dwz_law_run.specs.SameOverLaws.{SameOverLaw};

/// A law on files that are written over a finished common file (DWARF 5, 7.3.6): where each of them before and after, and the common file if
/// its name is given, are together within the limits, what comes of comparing the two is that they mean the same. The common file has to be
/// named where one of the two has `.debug_sup`; no file has it before.
pub fn same_over_laws()
    ensures { SameOverLaw }
{}
