//! Operands of expressions, and what holds between how expressions are spelled, how they are read, and why they aren't.

ghost use Rattle.std.specs.Prelude.{◌≡◌, ◌↔◌, ℕ, List, Ok, Err};
ghost use Rattle.dwz_bytes.specs.Input.{Input};
ghost use Rattle.dwz_model.specs.declared.fault.Fault.{Fault};
ghost use Rattle.dwz_def_reading.specs.Exprs.{ExprContext, Expression, IsExprFault, SpellsExpr, expr_at};
ghost use Rattle.dwz_def_reading.specs.MeaningFaults.{ExactlyOne};

use dwz_model::Base;

/// An operand of an expression that names an entry (DWARF 5, 2.5 and 7.7.1).
#[derive(Clone, Copy, Debug, PartialEq, Eq)]
pub struct Operand {
    /// Where it begins, in bytes from the section's first.
    pub at: u64,
    /// In bytes.
    pub width: u8,
    /// Whether it is a ULEB128 number, and not one of 4 bytes.
    pub uleb: bool,
    /// What its number is counted from.
    pub base: Base,
    pub number: u64,
}

/// Expressions, in any section and whichever operands name an entry: what is read of all bytes is spelled by them, what is
/// spelled is read, and a fault is answered exactly where it is the first. So bytes spell just one expression, or have just
/// one fault.
pub fn expr_laws()
    ensures read { (c : ExprContext) (i : Input) (e : Expression) → (expr_at c i ≡ Ok e) ↔ SpellsExpr c e i.at i.rest }
    ensures fault { (c : ExprContext) (i : Input) (f : Fault) → (expr_at c i ≡ Err f) ↔ IsExprFault c i.at i.rest f }
    ensures one { (c : ExprContext) (start : ℕ) (bytes : List ℕ)
        → ExactlyOne (λ e. SpellsExpr c e start bytes) (IsExprFault c start bytes) }
{}
