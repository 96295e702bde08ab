//! What is written names its common file well.

ghost use Rattle.dwz_law_cross.specs.SupLaws.{SupLaw};

/// A law on files that nothing refuses: nothing is wrong with the `.debug_sup` of the common file that is made, nor, beside it, with that of
/// a file of which something moves (DWARF 5, 7.3.6).
pub fn sup_laws()
    ensures { SupLaw }
{}
