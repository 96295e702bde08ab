//! Expressions of values that were read before.

ghost use Rattle.std.specs.Prelude.{◌≡◌, ℕ, ◌-◌, Ok, IfOk, length};
ghost use Rattle.dwz_def_reading.specs.Exprs.{Expression, expr_at};
ghost use Rattle.dwz_def_reading.specs.Meanings;
ghost use Rattle.dwz_def_reading.specs.Meanings.{MeaningContext, expr_context};
ghost use Rattle.dwz_forms.specs.RawValues.{raw_view};

use dwz_expr::{Operand, read_into};
use dwz_forms::Raw;
use dwz_model::{DEBUG_INFO, NoMemory, ReadErr};
use std::alloc::AllocError;

// The bytes of a value.
fn bytes_of<'a>(raw: &Raw<'a>) -> &'a [u8]
    ensures { result.now ≡ Meanings.bytes_of (raw_view raw.now) }
{
    match raw {
        Raw::Bytes(bytes) => bytes,
        Raw::Number(_) => &[],
    }
}

/// Whether an expression that was read before, and ends at that place, has an address, or the index of one; and its operands.
pub(crate) fn has_address(
    raw: &Raw,
    end: u64,
    operands: &mut Vec<Operand>,
) -> Result<bool, NoMemory>
    ensures { (s : MeaningContext ℕ) (e : Expression) → expr_at (expr_context s 1)
        (record { at = end - length (Meanings.bytes_of (raw_view raw.now)); rest = Meanings.bytes_of (raw_view raw.now) }) ≡ Ok e
        → IfOk result (λ address. (address ≡ e.address) × (operands.new.items ≡ e.operands)) }
{
    let bytes = bytes_of(raw);
    let at = end.saturating_sub(bytes.len() as u64);
    operands.clear();
    match read_into(operands, bytes, at, DEBUG_INFO) {
        Ok(address) => Ok(address),
        Err(ReadErr::NoMemory) => Err(AllocError),
        Err(ReadErr::Refused(_)) => Ok(false),
    }
}

/// How many entries the operands name of an expression that was read before, and ends at that place.
pub(crate) fn count_operands(
    raw: &Raw,
    end: u64,
    operands: &mut Vec<Operand>,
) -> Result<usize, NoMemory>
    ensures { (s : MeaningContext ℕ) (e : Expression) → expr_at (expr_context s 1)
        (record { at = end - length (Meanings.bytes_of (raw_view raw.now)); rest = Meanings.bytes_of (raw_view raw.now) }) ≡ Ok e
        → IfOk result (λ count. count ≡ length e.operands) }
{
    let bytes = bytes_of(raw);
    let at = end.saturating_sub(bytes.len() as u64);
    operands.clear();
    match read_into(operands, bytes, at, DEBUG_INFO) {
        Ok(_) => Ok(operands.len()),
        Err(ReadErr::NoMemory) => Err(AllocError),
        Err(ReadErr::Refused(_)) => Ok(0),
    }
}
