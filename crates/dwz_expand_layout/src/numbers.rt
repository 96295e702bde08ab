//! Numbers of copies, once these have their places.

ghost use Rattle.std.specs.Prelude.{◌≡◌, ◌+◌, ◌-◌, ◌%◌, ◌++◌, OnOk, cond, slice_index};
ghost use Rattle.dwz_bytes.specs.Spelling.{le_bytes, padded};
ghost use Rattle.dwz_def_encoding.specs.Writing.{base_place};
ghost use Rattle.dwz_def_reading.specs.Patching;
ghost use Rattle.dwz_expand_layout.specs.Written.{numbers_view};
ghost use Rattle.dwz_layout.specs.Attributes;

use dwz_bytes::put_fixed;
use dwz_codes::DW_FORM_REF4;
use dwz_model::{Base, NoMemory, at_or};

/// Where copies stand, and where the unit begins that is written.
#[derive(Clone, Copy)]
pub(crate) struct Numbers<'p> {
    pub(crate) places: &'p [u64],
    pub(crate) unit: u64,
}

/// Where a copy stands.
#[inline(always)]
pub(crate) fn place_of(numbers: Numbers, copy: u64) -> u64
    ensures { result ≡ slice_index numbers.entry.places.now copy }
{
    at_or(numbers.places, copy as usize, 0)
}

/// The number of a copy, as a form counts it.
#[inline(always)]
pub(crate) fn number_by_form(numbers: Numbers, form: u64, copy: u64) -> u64
    ensures { result ≡ Attributes.counted (numbers_view numbers.entry) form (slice_index numbers.entry.places.now copy) }
{
    let place = place_of(numbers, copy);
    if form == DW_FORM_REF4 {
        place.saturating_sub(numbers.unit)
    } else {
        place
    }
}

/// The number of a copy in an operand.
#[inline(always)]
pub(crate) fn operand_number(numbers: Numbers, copy: u64, base: Base) -> u64
    ensures { result ≡ slice_index numbers.entry.places.now copy - base_place numbers.entry.unit base }
{
    let place = place_of(numbers, copy);
    match base {
        Base::Unit => place.saturating_sub(numbers.unit),
        Base::Info => place,
    }
}

/// Appends the low four bytes of a number.
#[inline(always)]
pub(crate) fn put_four(out: &mut Vec<u8>, number: u64) -> Result<(), NoMemory>
    ensures { OnOk result (out.new.items ≡ out.old.items ++ le_bytes 4 number) }
{
    put_fixed(out, 4, number)
}

// Appends so many low bytes of a number.
fn put_bytes(out: &mut Vec<u8>, width: u8, number: u64) -> Result<(), NoMemory>
    ensures { OnOk result (out.new.items ≡ out.old.items ++ le_bytes width number) }
{
    let mut rest = number;
    for _ in 0..width {
        out.push((rest % 256) as u8)?;
        rest /= 256;
    }
    Ok(())
}

// The low seven bits of a number: the last byte of it, or one before others.
#[inline(always)]
fn group(number: u64, last: bool) -> u8
    ensures { result ≡ cond last (number % 128) (number % 128 + 128) }
{
    let low = (number % 128) as u8;
    if last { low } else { low + 128 }
}

// Appends a number as ULEB128 in so many bytes.
fn put_groups(out: &mut Vec<u8>, width: u8, number: u64) -> Result<(), NoMemory>
    ensures { OnOk result (out.new.items ≡ out.old.items ++ padded width number) }
{
    let mut rest = number;
    let mut left = width;
    while left > 0 {
        out.push(group(rest, left == 1))?;
        rest /= 128;
        left -= 1;
    }
    Ok(())
}

/// Appends a number in so many bytes: padded ULEB128, or of a fixed width.
#[inline(always)]
pub(crate) fn put_number(
    out: &mut Vec<u8>,
    uleb: bool,
    width: u8,
    number: u64,
) -> Result<(), NoMemory>
    ensures { OnOk result (out.new.items ≡ out.old.items ++ Patching.number_in_width uleb width number) }
{
    if uleb {
        put_groups(out, width, number)
    } else {
        put_bytes(out, width, number)
    }
}
