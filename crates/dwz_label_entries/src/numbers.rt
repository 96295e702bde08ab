//! What values store: numbers, and how many bytes of one are kept.

ghost use Rattle.std.specs.Prelude.{◌≡◌, ◌||◌, ◌==◌, not};
ghost use Rattle.dwz_label_entries.specs.Words.{width_from};
ghost use Rattle.dwz_forms.specs.RawValues.{raw_view};
ghost use Rattle.dwz_def_reading.specs.Meanings;
ghost use Rattle.dwz_def_reading.specs.Meanings.{has};
ghost use Rattle.dwz_def_reading.specs.Classes.{kept_width, unsigned_names};

use dwz_codes::{
    DW_AT_BYTE_SIZE, DW_AT_CALL_COLUMN, DW_AT_CALL_LINE, DW_AT_DATA_MEMBER_LOCATION,
    DW_AT_DECL_COLUMN, DW_AT_DECL_LINE, DW_AT_ENCODING, DW_FORM_DATA1, DW_FORM_DATA2,
    DW_FORM_DATA4, DW_FORM_DATA8, DW_FORM_FLAG_PRESENT,
};
use dwz_forms::Raw;

/// The number that a value stores; 0 where it stores bytes.
#[inline(always)]
pub fn number_of(raw: &Raw) -> i128
    ensures { result ≡ Meanings.number_of (raw_view raw.now) }
{
    match raw {
        Raw::Number(number) => *number,
        Raw::Bytes(_) => 0,
    }
}

/// The bytes that a value stores; none where it stores a number.
#[inline(always)]
pub fn bytes_of<'a>(raw: &Raw<'a>) -> &'a [u8]
    ensures { result.now ≡ Meanings.bytes_of (raw_view raw.now) }
{
    match raw {
        Raw::Number(_) => &[],
        Raw::Bytes(bytes) => bytes,
    }
}

// Whether the numbers of an attribute have no sign, whatever their form.
#[inline(always)]
#[tactic(auto, unfolding(dwz_codes::specs::Rows::has))]
fn is_unsigned(name: u16) -> bool
    ensures { result ≡ has name unsigned_names }
{
    match name {
        DW_AT_BYTE_SIZE
        | DW_AT_DATA_MEMBER_LOCATION
        | DW_AT_DECL_COLUMN
        | DW_AT_DECL_LINE
        | DW_AT_ENCODING
        | DW_AT_CALL_COLUMN
        | DW_AT_CALL_LINE => true,
        _ => false,
    }
}

#[inline(always)]
fn width_above(width: u8, top: u128, name: u16, number: u128) -> u8
    ensures { result ≡ width_from width top name number }
{
    if number >= top && !is_unsigned(name) {
        width
    } else {
        0
    }
}

/// How many bytes a number keeps: none, unless its form doesn't say whether it is signed (DWARF 5, 7.5.5, class constant) and its top bit
/// is set.
#[inline(always)]
pub fn width_of(name: u16, form: u64, number: u128) -> u8
    ensures { result ≡ kept_width name form number }
{
    match form {
        DW_FORM_DATA1 => width_above(1, 0x80, name, number),
        DW_FORM_DATA2 => width_above(2, 0x8000, name, number),
        DW_FORM_DATA4 => width_above(4, 0x80000000, name, number),
        DW_FORM_DATA8 => width_above(8, 0x8000000000000000, name, number),
        _ => 0,
    }
}

/// Whether a flag is set.
#[inline(always)]
pub fn is_set(form: u64, number: u128) -> bool
    ensures { result ≡ (form == 0x19 || not (number == 0)) }
{
    form == DW_FORM_FLAG_PRESENT || number != 0
}
