//! Expressions (DWARF 5, 2.5): their bytes, cut where entries are named.

ghost use Rattle.std.specs.Prelude.{◌≡◌, ℕ, ◌+◌, ◌*◌, ◌-◌, ◌<◌, ◌^◌, ◌++◌, List, Ok, OnOk, IfOk, length, take, drop};
ghost use Rattle.std.specs.List.{flat_map};
ghost use Rattle.dwz_label.specs.Labels.{part_label, parts_label, plain_label};
ghost use Rattle.dwz_def_reading.specs.Documents.{Expr, Value};
ghost use Rattle.dwz_def_reading.specs.Exprs.{parts_from};
ghost use Rattle.dwz_def_reading.specs.Meanings.{MeaningContext, block_begins, expr_context};
ghost use Rattle.dwz_def_reading.specs.Meant.{expr_meaning};
ghost use Rattle.dwz_def_reading.specs.Entries.{RawAttr};
ghost use Rattle.dwz_label_entries.specs.Plain.{TellsPlain};
ghost use Rattle.dwz_def_reading.specs.Meanings;

use crate::named::Named;
use dwz_expr::{Operand, read_into};
use dwz_label::{put_expression, put_number, put_operand, put_same};
use dwz_model::{DEBUG_INFO, NoMemory, ReadErr};
use std::alloc::AllocError;

/// The first bytes, as many as there are.
#[inline(always)]
pub fn front(bytes: &[u8], count: u128) -> &[u8]
    ensures { result.now ≡ take count bytes.now }
{
    if count < bytes.len() as u128 {
        &bytes[..count as usize]
    } else {
        bytes
    }
}

/// The bytes behind the first ones.
#[inline(always)]
pub fn behind(bytes: &[u8], count: u128) -> &[u8]
    ensures { result.now ≡ drop count bytes.now }
{
    if count < bytes.len() as u128 {
        &bytes[count as usize..]
    } else {
        &[]
    }
}

// Appends the parts of an expression, whose first byte stands at a place.
fn put_pieces(
    out: &mut Vec<u8>,
    bytes: &[u8],
    at: u64,
    operands: &[Operand],
) -> Result<(), NoMemory>
    ensures { OnOk result (out.new.items ≡ out.old.items ++ flat_map part_label (parts_from at bytes.now operands.now)) }
{
    let mut rest = bytes;
    let mut place = at as u128;
    for operand in operands {
        put_same(out, front(rest, (operand.at as u128).saturating_sub(place)))?;
        put_operand(out, operand.width as u128, operand.uleb, operand.base)?;
        let end = operand.at as u128 + operand.width as u128;
        rest = behind(rest, end.saturating_sub(place));
        place = end;
    }
    put_same(out, rest)?;
    Ok(())
}

/// Appends the parts of an expression behind their number. Its first byte stands at a place of its section.
pub(crate) fn put_parts(
    out: &mut Vec<u8>,
    bytes: &[u8],
    at: u64,
    operands: &[Operand],
) -> Result<(), NoMemory>
    ensures { OnOk result (out.new.items ≡ out.old.items ++ parts_label (parts_from at bytes.now operands.now)) }
{
    put_number(out, operands.len() as u128 * 2 + 1)?;
    put_pieces(out, bytes, at, operands)?;
    Ok(())
}

// Appends that a value is an expression.
fn put_whole(out: &mut Vec<u8>, bytes: &[u8], at: u64, operands: &[Operand]) -> Result<(), NoMemory>
    ensures { OnOk result (out.new.items ≡ out.old.items ++ plain_label (Expr (parts_from at bytes.now operands.now))) }
{
    put_expression(out, operands.len() as u128 * 2 + 1)?;
    put_pieces(out, bytes, at, operands)?;
    Ok(())
}

/// Appends that a value is an expression, whose bytes end at a place; and keeps its operands.
pub(crate) fn put_expr(
    out: &mut Vec<u8>,
    end: u64,
    bytes: &[u8],
    operands: &mut Vec<Operand>,
) -> Result<Named, NoMemory>
    ensures { (s : MeaningContext ℕ) (a : RawAttr) (v : Value ℕ) → a.end ≡ end → Meanings.bytes_of a.raw ≡ bytes.now
        → expr_meaning s a ≡ Ok v
        → IfOk result (λ named. TellsPlain s v operands.new.items out.old.items out.new.items named) }
{
    let at = end.saturating_sub(bytes.len() as u64);
    operands.clear();
    match read_into(operands, bytes, at, DEBUG_INFO) {
        Err(ReadErr::NoMemory) => Err(AllocError),
        Err(ReadErr::Refused(_)) => Ok(Named::Next(0)),
        Ok(_) => {
            put_whole(out, bytes, at, operands)?;
            Ok(Named::Next(operands.as_slice().len()))
        }
    }
}
