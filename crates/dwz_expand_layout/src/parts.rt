//! Expressions, with the numbers of the copies that they name.

ghost use Rattle.std.specs.Prelude.{◌≡◌, ◌++◌, IfOk, OnOk, drop, length, slice_range, take};
ghost use Rattle.dwz_def_reading.specs.Values.{value_bytes};
ghost use Rattle.dwz_expand_layout.specs.Entries.{content_view, parts_page};
ghost use Rattle.dwz_expand_layout.specs.Written.{numbers_view};
ghost use Rattle.dwz_expand_layout.specs.declared.entries.Content.TheVariants.{Expression};
ghost use Rattle.dwz_layout.specs.Attributes.{no_numbers, raw_of};

use crate::entries::{NewExpression, NewOperand};
use crate::numbers::{Numbers, operand_number, put_number};
use crate::sizes::uleb_len;
use dwz_bytes::put_uleb;
use dwz_layout::more;
use dwz_model::NoMemory;

// So many bytes, or all.
#[inline(always)]
fn front(bytes: &[u8], count: u64) -> &[u8]
    ensures { result.now ≡ take count bytes.now }
{
    &bytes[..count.min(bytes.len() as u64) as usize]
}

// The bytes behind so many.
#[inline(always)]
fn back(bytes: &[u8], count: u64) -> &[u8]
    ensures { result.now ≡ drop count bytes.now }
{
    &bytes[count.min(bytes.len() as u64) as usize..]
}

// Those from one number on, and before another.
#[inline(always)]
fn own_operands<'e>(operands: &'e [NewOperand], first: usize, end: usize) -> &'e [NewOperand]
    ensures { result.now ≡ slice_range operands.now first end }
{
    let end = end.min(operands.len());
    &operands[first.min(end)..end]
}

// How many bytes an expression has that began at a place, whose operands have the widths in which they are written.
fn parts_len(start: u64, bytes: &[u8], operands: &[NewOperand]) -> Result<u64, NoMemory>
    ensures { IfOk result (λ len. len ≡ length (parts_page no_numbers start bytes.now operands.now)) }
{
    let mut at = start;
    let mut left = bytes;
    let mut len = 0;
    for NewOperand { operand, .. } in operands {
        len = more(len, front(left, operand.at.saturating_sub(at)).len() as u64)?;
        len = more(len, operand.width as u64)?;
        let behind = more(operand.at, operand.width as u64)?;
        left = back(left, behind.saturating_sub(at));
        at = behind;
    }
    more(len, left.len() as u64)
}

// Appends the bytes of an expression that began at a place, with the numbers of the copies that its operands name.
fn put_parts(
    out: &mut Vec<u8>,
    numbers: Numbers,
    start: u64,
    bytes: &[u8],
    operands: &[NewOperand],
) -> Result<(), NoMemory>
    ensures { OnOk result (out.new.items ≡ out.old.items ++ parts_page (numbers_view numbers.entry) start bytes.now operands.now) }
{
    let mut at = start;
    let mut left = bytes;
    for NewOperand { operand, copy } in operands {
        out.extend_from_slice(front(left, operand.at.saturating_sub(at)))?;
        let number = operand_number(numbers, *copy, operand.base);
        put_number(out, operand.uleb, operand.width, number)?;
        let behind = more(operand.at, operand.width as u64)?;
        left = back(left, behind.saturating_sub(at));
        at = behind;
    }
    out.extend_from_slice(left)?;
    Ok(())
}

/// How many bytes an expression has with its length in front, where these are the operands of its entry.
pub(crate) fn expression_len(
    expression: &NewExpression,
    operands: &[NewOperand],
) -> Result<u64, NoMemory>
    ensures { IfOk result (λ len. len
        ≡ length (value_bytes 0x18 (raw_of no_numbers 0x18 (content_view operands.now (Expression expression.now))))) }
{
    let own = own_operands(operands, expression.first, expression.end);
    let len = parts_len(expression.start, expression.bytes, own)?;
    more(len, uleb_len(len))
}

/// Appends an expression with its length in front, where these are the operands of its entry.
pub(crate) fn put_expression(
    out: &mut Vec<u8>,
    numbers: Numbers,
    expression: &NewExpression,
    operands: &[NewOperand],
) -> Result<(), NoMemory>
    ensures { OnOk result (out.new.items ≡ out.old.items
        ++ value_bytes 0x18 (raw_of (numbers_view numbers.entry) 0x18 (content_view operands.now (Expression expression.now)))) }
{
    let own = own_operands(operands, expression.first, expression.end);
    let len = parts_len(expression.start, expression.bytes, own)?;
    put_uleb(out, len)?;
    put_parts(out, numbers, expression.start, expression.bytes, own)
}
