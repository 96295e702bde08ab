//! What the attributes of an entry store.

ghost use Rattle.std.specs.Prelude.{◌≡◌, ◌≢◌, ◌++◌, OnOk, map};
ghost use Rattle.dwz_def_reading.specs.Lists.{Each};
ghost use Rattle.dwz_def_reading.specs.Values.{HasSpelling, value_bytes};
ghost use Rattle.dwz_forms.specs.RawValues.{raw_view};
ghost use Rattle.dwz_expand_layout.specs.Entries.{CanStore, FitsForm, attr_view, content_view};
ghost use Rattle.dwz_expand_layout.specs.Written.{numbers_view};
ghost use Rattle.dwz_layout.specs.Attributes.{raw_of, stored_all};
ghost use Rattle.dwz_layout.specs.Stored.{values_bytes};

use crate::entries::{Content, NewAttr, NewOperand};
use crate::numbers::{Numbers, number_by_form, put_four};
use crate::parts::put_expression;
use dwz_codes::DW_FORM_STRING;
use dwz_forms::{Raw, write_value};
use dwz_model::NoMemory;

// Appends a value that isn't a number of an entry, and no expression. A text is written as it is, and a zero byte behind it (7.5.5).
#[inline(always)]
fn put_stored(out: &mut Vec<u8>, form: u64, raw: &Raw) -> Result<(), NoMemory>
    requires { form ≢ 0x08 → HasSpelling form (raw_view raw.now) }
    ensures { OnOk result (out.new.items ≡ out.old.items ++ value_bytes form (raw_view raw.now)) }
{
    if form != DW_FORM_STRING {
        return write_value(form as u16, raw, out);
    }
    match raw {
        Raw::Bytes(text) => {
            out.extend_from_slice(text)?;
            out.push(0)?;
            Ok(())
        }
        Raw::Number(_) => Ok(()),
    }
}

// Appends what an attribute stores, where these are the operands of its entry.
#[inline(always)]
fn put_value(
    out: &mut Vec<u8>,
    numbers: Numbers,
    attr: &NewAttr,
    operands: &[NewOperand],
) -> Result<(), NoMemory>
    requires { FitsForm attr.now.pair.form attr.now.content }
    ensures { OnOk result (out.new.items ≡ out.old.items ++ value_bytes attr.now.pair.form
        (raw_of (numbers_view numbers.entry) attr.now.pair.form (content_view operands.now attr.now.content))) }
{
    match &attr.content {
        Content::Stored(raw) => put_stored(out, attr.pair.form, raw),
        Content::OfCopy(copy) => put_four(out, number_by_form(numbers, attr.pair.form, *copy)),
        Content::Expression(expression) => put_expression(out, numbers, expression, operands),
    }
}

/// Appends the values of an entry.
#[inline(always)]
pub(crate) fn put_values(
    out: &mut Vec<u8>,
    numbers: Numbers,
    attrs: &[NewAttr],
    operands: &[NewOperand],
) -> Result<(), NoMemory>
    requires { Each CanStore attrs.now }
    ensures { OnOk result (out.new.items ≡ out.old.items
        ++ values_bytes (stored_all (numbers_view numbers.entry) (map (attr_view operands.now) attrs.now))) }
{
    for attr in attrs {
        put_value(out, numbers, attr, operands)?;
    }
    Ok(())
}
