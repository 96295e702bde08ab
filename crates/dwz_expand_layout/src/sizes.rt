//! How many bytes entries have, and their names and forms.

ghost use Rattle.std.specs.Prelude.{◌≡◌, ◌≢◌, ◌+◌, ◌<◌, [], All, IfOk, OnOk, length, map};
ghost use Rattle.dwz_bytes.specs.Spelling.{uleb};
ghost use Rattle.dwz_def_reading.specs.Abbrevs.{IsPlainPair};
ghost use Rattle.dwz_def_reading.specs.Lists.{Each};
ghost use Rattle.dwz_def_reading.specs.Values.{HasSpelling, value_bytes};
ghost use Rattle.dwz_forms.specs.RawValues.{raw_view};
ghost use Rattle.dwz_expand_layout.specs.Entries.{CanStore, FitsForm, attr_view, content_view};
ghost use Rattle.dwz_layout.specs.Attributes.{no_numbers, raw_of, stored_all};
ghost use Rattle.dwz_layout.specs.Stored.{pairs_of, values_bytes};

use crate::entries::{Content, NewAttr, NewOperand};
use crate::parts::expression_len;
use dwz_codes::{DW_FORM_STRING, DW_FORM_UDATA};
use dwz_forms::{Raw, size_of_value};
use dwz_layout::more;
use dwz_model::{NoMemory, Pair};

// How many bytes the number of an entry has.
const OFFSET: u64 = 4;

/// How many bytes a number has as ULEB128.
#[inline(always)]
pub(crate) fn uleb_len(number: u64) -> u64
    ensures { result ≡ length (uleb number) }
{
    if number < 128 {
        return 1;
    }
    size_of_value(DW_FORM_UDATA as u16, &Raw::Number(number as i128))
}

// How many bytes a value has that isn't a number of an entry, and no expression.
#[inline(always)]
fn stored_len(form: u64, raw: &Raw) -> Result<u64, NoMemory>
    requires { form ≢ 0x08 → HasSpelling form (raw_view raw.now) }
    ensures { IfOk result (λ len. len ≡ length (value_bytes form (raw_view raw.now))) }
{
    if form != DW_FORM_STRING {
        return Ok(size_of_value(form as u16, raw));
    }
    match raw {
        Raw::Bytes(text) => more(text.len() as u64, 1),
        Raw::Number(_) => Ok(0),
    }
}

// How many bytes an attribute has, where these are the operands of its entry.
#[inline(always)]
fn attr_len(attr: &NewAttr, operands: &[NewOperand]) -> Result<u64, NoMemory>
    requires { FitsForm attr.now.pair.form attr.now.content }
    ensures { IfOk result (λ len. len
        ≡ length (value_bytes attr.now.pair.form (raw_of no_numbers attr.now.pair.form (content_view operands.now attr.now.content)))) }
{
    match &attr.content {
        Content::Stored(raw) => stored_len(attr.pair.form, raw),
        Content::OfCopy(_) => Ok(OFFSET),
        Content::Expression(expression) => expression_len(expression, operands),
    }
}

/// Puts the names and forms of an entry's attributes into the room. The answer is how many bytes its values have.
#[inline(always)]
pub(crate) fn measure(
    room: &mut Vec<Pair>,
    attrs: &[NewAttr],
    operands: &[NewOperand],
) -> Result<u64, NoMemory>
    requires { Each CanStore attrs.now }
    ensures pairs { OnOk result (room.new.items ≡ pairs_of (stored_all no_numbers (map (attr_view operands.now) attrs.now))) }
    ensures size { IfOk result (λ size. size ≡ length (values_bytes (stored_all no_numbers (map (attr_view operands.now) attrs.now)))) }
    ensures plain { OnOk result (All IsPlainPair room.new.items) }
{
    room.clear();
    let mut size = 0;
    for attr in attrs {
        room.push(attr.pair)?;
        size = more(size, attr_len(attr, operands)?)?;
    }
    Ok(size)
}
