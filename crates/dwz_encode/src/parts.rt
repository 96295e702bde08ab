//! Expressions, with the numbers of the entries that they name.

ghost use Rattle.std.specs.Prelude.{◌≡◌, ◌-◌, ◌++◌, OnOk, drop, length, take};
ghost use Rattle.dwz_def_reading.specs.Exprs.{parts_from};
ghost use Rattle.dwz_def_reading.specs.Patching.{filled};
ghost use Rattle.dwz_layout.specs.Attributes.{operand_count, operand_numbers, references_from};
ghost use Rattle.dwz_encode.specs.Views.{numbers_view};

use crate::numbers::{Numbers, operand_number, put_number};
use dwz_def_reading::Operand;
use dwz_layout::{EntryTable, more};
use dwz_model::NoMemory;

// So many bytes, or all.
#[inline(always)]
fn front(bytes: &[u8], count: u64) -> &[u8]
    ensures { result.now ≡ take count bytes.now }
{
    &bytes[..count.min(bytes.len() as u64) as usize]
}

// The bytes behind so many.
#[inline(always)]
fn back(bytes: &[u8], count: u64) -> &[u8]
    ensures { result.now ≡ drop count bytes.now }
{
    &bytes[count.min(bytes.len() as u64) as usize..]
}

/// Appends the bytes of an expression that began at a place, with the numbers of the entries that its operands name: these are references
/// of a file, from the one with that number on.
pub(crate) fn put_parts(
    out: &mut Vec<u8>,
    known: &EntryTable,
    file: u32,
    first: u64,
    numbers: Numbers,
    start: u64,
    bytes: &[u8],
    operands: &[Operand],
) -> Result<(), NoMemory>
    ensures { let parts = parts_from start bytes.now operands.now in OnOk result
        (out.new.items ≡ out.old.items ++ filled parts
        (operand_numbers (numbers_view numbers.entry) parts (references_from known.now file first (operand_count parts)))) }
{
    let mut at = start;
    let mut left = bytes;
    let mut next = first;
    for operand in operands {
        out.extend_from_slice(front(left, operand.at.saturating_sub(at)))?;
        let number = operand_number(numbers, known.reference(file, next), operand.base);
        put_number(out, operand.uleb, operand.width, number)?;
        let behind = more(operand.at, operand.width as u64)?;
        left = back(left, behind.saturating_sub(at));
        at = behind;
        next = more(next, 1)?;
    }
    out.extend_from_slice(left)?;
    Ok(())
}
