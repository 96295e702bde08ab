//! What is written over a finished common file names that well.

ghost use Rattle.dwz_law_over.specs.SupOverLaws.{NamesOverLaw, SupOverLaw, TakesOverLaw};

/// Laws on files that nothing refuses over a finished common file. Beside that nothing is wrong with the `.debug_sup` of a file of which
/// something moves, or is taken (DWARF 5, 7.3.6). No file that is read has that section, and after just those have it that import from the
/// common file; which are those of which a unit takes a partial unit of it.
pub fn sup_over_laws()
    ensures good { SupOverLaw }
    ensures names { NamesOverLaw }
    ensures takes { TakesOverLaw }
{}
