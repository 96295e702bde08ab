//! Values that are read.

ghost use Rattle.std.specs.Prelude.{◌≡◌, ◌<◌, length, take, IfOk, IfSome};
ghost use Rattle.std.specs.Option.{option_map};
ghost use Rattle.dwz_bytes.specs.Reading.{Gives, fixed_at};
ghost use Rattle.dwz_bytes.specs.Spelling.{le_value};
ghost use Rattle.dwz_codes.specs.Forms.{form_rows};
ghost use Rattle.dwz_def_reading.specs.Parts.{Leaves};
ghost use Rattle.dwz_def_reading.specs.Texts.{text_in, zero_ended_at};
ghost use Rattle.dwz_def_reading.specs.Values;
ghost use Rattle.dwz_def_reading.specs.Values.{HasSpelling, written_rows};
ghost use Rattle.dwz_forms.specs.FormSets.{rows_of};
ghost use Rattle.dwz_forms.specs.RawValues.{raw_view};

use crate::form_set::{FormSet, shape_among};
use crate::raw::Raw;
use dwz_bytes::{ByteErr, Cursor};
use dwz_codes::{DW_FORM_IMPLICIT_CONST, Shape};
use dwz_model::{DEBUG_INFO, Fault, Pair, Reason};
use memchr::memchr;

// A fault inside a value that begins at the place.
#[inline(always)]
fn fault_from(place: u64, error: ByteErr) -> Fault
    ensures { result ≡ Values.fault_from place error }
{
    let reason = match error {
        ByteErr::Short { .. } => Reason::Truncated,
        ByteErr::Wide { .. } => Reason::BadNumber,
    };
    Fault {
        section: DEBUG_INFO,
        at: place,
        reason,
    }
}

// The number of a value without bytes.
#[inline(always)]
fn constant_of(pair: &Pair) -> i64
    ensures { result ≡ Values.constant_of pair.now }
{
    if pair.form == DW_FORM_IMPLICIT_CONST {
        pair.constant
    } else {
        0
    }
}

// The number that three bytes spell.
#[inline(always)]
fn three_bytes(bytes: &[u8]) -> u32
    requires { length bytes.now ≡ 3 }
    ensures { result ≡ le_value bytes.now }
{
    u32::from_le_bytes([bytes[0], bytes[1], bytes[2], 0])
}

// A number of three bytes.
#[inline(always)]
fn three<'a>(cursor: &mut Cursor<'a>) -> Result<u32, ByteErr>
    ensures { Gives (λ x. x) cursor.old cursor.new result (fixed_at 3 cursor.old) }
{
    let bytes = cursor.take(3)?;
    Ok(three_bytes(bytes))
}

// How many bytes stand before the first zero byte.
#[inline(always)]
fn text_len(bytes: &[u8]) -> Option<usize>
    ensures text { option_map (λ len. take len bytes.now) result ≡ text_in bytes.now }
    ensures within { IfSome result (λ len. len < length bytes.now) }
{
    memchr(0, bytes)
}

// The text at the cursor, which is left behind the zero byte.
#[inline(always)]
fn text<'a>(cursor: &mut Cursor<'a>) -> Result<&'a [u8], ByteErr>
    ensures { Gives (λ t. t.now) cursor.old cursor.new result (zero_ended_at cursor.old) }
{
    let at = cursor.at();
    let rest = &cursor.bytes()[at..];
    match text_len(rest) {
        None => Err(ByteErr::Short { at }),
        Some(len) => {
            cursor.take(len + 1)?;
            Ok(&rest[..len])
        }
    }
}

// The value at the cursor by its shape.
#[inline(always)]
#[tactic(auto, unfolding(dwz_def_reading::specs::Values::shaped_at))]
fn value_by_shape<'a>(cursor: &mut Cursor<'a>, shape: Shape, pair: &Pair) -> Result<Raw<'a>, Fault>
    ensures { Leaves raw_view cursor.new result (Values.shaped_at shape pair.now cursor.old) }
{
    let place = cursor.at() as u64;
    let fault = |error| fault_from(place, error);
    match shape {
        Shape::Nothing => Ok(Raw::Number(constant_of(pair) as i128)),
        Shape::Fixed1 => Ok(Raw::Number(cursor.u8().map_err(fault)? as i128)),
        Shape::Fixed2 => Ok(Raw::Number(cursor.u16().map_err(fault)? as i128)),
        Shape::Fixed3 => Ok(Raw::Number(three(cursor).map_err(fault)? as i128)),
        Shape::Fixed4 => Ok(Raw::Number(cursor.u32().map_err(fault)? as i128)),
        Shape::Fixed8 | Shape::Address => Ok(Raw::Number(cursor.u64().map_err(fault)? as i128)),
        Shape::Fixed16 => Ok(Raw::Bytes(cursor.take(16).map_err(fault)?)),
        Shape::Uleb => Ok(Raw::Number(cursor.uleb().map_err(fault)? as i128)),
        Shape::Sleb => Ok(Raw::Number(cursor.sleb().map_err(fault)? as i128)),
        Shape::ZeroEnded => Ok(Raw::Bytes(text(cursor).map_err(fault)?)),
        Shape::Block1 => {
            let count = cursor.u8().map_err(fault)?;
            Ok(Raw::Bytes(cursor.take(count as usize).map_err(fault)?))
        }
        Shape::Block2 => {
            let count = cursor.u16().map_err(fault)?;
            Ok(Raw::Bytes(cursor.take(count as usize).map_err(fault)?))
        }
        Shape::Block4 => {
            let count = cursor.u32().map_err(fault)?;
            Ok(Raw::Bytes(cursor.take(count as usize).map_err(fault)?))
        }
        Shape::BlockUleb => {
            let count = cursor.uleb().map_err(fault)?;
            Ok(Raw::Bytes(cursor.take(count as usize).map_err(fault)?))
        }
        _ => Err(Fault {
            section: DEBUG_INFO,
            at: place,
            reason: Reason::UnsupportedForm { form: pair.form },
        }),
    }
}

/// The value of the pair's form at the cursor, which stands in `.debug_info` and whose bytes end where the unit does, if the form is
/// one of the set.
///
/// A form that isn't (`UnsupportedForm`), a value that the bytes end in (`Truncated`) and a LEB128 number that is too wide
/// (`BadNumber`) are faults at the value's place, and leave the cursor there.
#[inline(always)]
pub fn read_value_among<'a>(
    cursor: &mut Cursor<'a>,
    pair: &Pair,
    forms: FormSet,
) -> Result<Raw<'a>, Fault>
    ensures value { Gives raw_view cursor.old cursor.new result (Values.value_at (rows_of forms) pair.now cursor.old) }
    ensures writable { IfOk result (λ raw. HasSpelling pair.now.form (raw_view raw)) }
{
    let bytes = cursor.bytes();
    let mut ahead = Cursor::new(bytes, cursor.at());
    let raw = value_by_shape(&mut ahead, shape_among(forms, pair.form), pair)?;
    *cursor = ahead;
    Ok(raw)
}

/// The value of the pair's form at the cursor, as by `read_value_among`, of the forms of a file by itself.
#[inline(always)]
pub fn read_value<'a>(cursor: &mut Cursor<'a>, pair: &Pair) -> Result<Raw<'a>, Fault>
    ensures value { Gives raw_view cursor.old cursor.new result (Values.value_at form_rows pair.now cursor.old) }
    ensures writable { IfOk result (λ raw. HasSpelling pair.now.form (raw_view raw)) }
{
    read_value_among(cursor, pair, FormSet::Own)
}

/// The value of the pair's form at the cursor, as by `read_value`; and a place or a text in a supplementary file
/// (`DW_FORM_ref_sup4`, `DW_FORM_strp_sup`; DWARF 5, 7.3.6) is read as the number that it is.
#[inline(always)]
pub fn read_value_sup<'a>(cursor: &mut Cursor<'a>, pair: &Pair) -> Result<Raw<'a>, Fault>
    ensures value { Gives raw_view cursor.old cursor.new result (Values.value_at written_rows pair.now cursor.old) }
    ensures writable { IfOk result (λ raw. HasSpelling pair.now.form (raw_view raw)) }
{
    read_value_among(cursor, pair, FormSet::Beside)
}
