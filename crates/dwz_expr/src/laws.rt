//! What an expression is where it is known which operands name entries.

ghost use Rattle.dwz_expr.specs.FirstFault.{AllNamed, OneUnnamed};

/// The operands that are looked up before an expression, or the fault of its layout, is answered decide what it is in each
/// context: where each of them names an entry it is that answer, and else a bad operand at the first that doesn't.
pub fn first_fault_laws()
    ensures named { AllNamed }
    ensures unnamed { OneUnnamed }
{}
