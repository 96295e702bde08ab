//! Laws on rows, and on the operands of a common file.

ghost use Rattle.dwz_reuse.specs.Operands.{OperandsLaw};
ghost use Rattle.dwz_reuse.specs.Rows.{SpacesLaw};

/// A law on rows that have the tops of units and partial units, the numbers of the name lists of their spaces, and which partial units
/// refer into which: they show the spaces of units with tops that may move, and of partial units.
pub(crate) fn space_laws()
    ensures { SpacesLaw }
{}

/// The rows of operands of the finished common file of a graph are those of its location lists.
pub fn operand_laws()
    ensures { OperandsLaw }
{}
