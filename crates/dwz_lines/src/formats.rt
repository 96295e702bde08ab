//! Formats: what the rows of a table consist of (DWARF 5, 6.2.4.1).

ghost use Rattle.std.specs.Prelude.{◌≡◌};
ghost use Rattle.dwz_def_reading.specs.Rows;
ghost use Rattle.dwz_def_reading.specs.LineTables;
ghost use Rattle.dwz_lines.specs.Reading.{FindsAt, TriesAt, format_in, formats_in};
ghost use Rattle.dwz_lines.specs.Views.{format_view, format_views};

use dwz_bytes::Cursor;
use dwz_codes::{
    DW_FORM_BLOCK, DW_FORM_BLOCK1, DW_FORM_BLOCK2, DW_FORM_BLOCK4, DW_FORM_DATA1, DW_FORM_DATA2,
    DW_FORM_DATA4, DW_FORM_DATA8, DW_FORM_DATA16, DW_FORM_LINE_STRP, DW_FORM_SDATA, DW_FORM_STRING,
    DW_FORM_STRP, DW_FORM_UDATA, DW_LNCT_DIRECTORY_INDEX, DW_LNCT_PATH,
};
use dwz_model::{Fault, ReadErr};
use std::alloc::Global;

/// A content type, and the form of its values.
#[derive(Clone, Copy, Debug, PartialEq, Eq)]
pub(crate) struct Format {
    pub(crate) content: u64,
    pub(crate) form: u64,
}

// Whether a form is among some.
fn has(form: u64, forms: &[u64]) -> bool
    ensures { result ≡ Rows.has form forms.now }
{
    for other in forms {
        if *other == form {
            return true;
        }
    }
    false
}

// Whether values of a content type may have the form: a path string, strp or line_strp; an index data1, data2 or udata; and
// anything else a text, a number or bytes.
fn is_format(content: u64, form: u64) -> bool
    ensures { result ≡ LineTables.is_format (LineTables.format_of content form) }
{
    match content {
        DW_LNCT_PATH => has(form, &[DW_FORM_STRING, DW_FORM_STRP, DW_FORM_LINE_STRP]),
        DW_LNCT_DIRECTORY_INDEX => has(form, &[DW_FORM_DATA1, DW_FORM_DATA2, DW_FORM_UDATA]),
        _ => has(
            form,
            &[
                DW_FORM_STRING,
                DW_FORM_STRP,
                DW_FORM_LINE_STRP,
                DW_FORM_DATA1,
                DW_FORM_DATA2,
                DW_FORM_DATA4,
                DW_FORM_DATA8,
                DW_FORM_DATA16,
                DW_FORM_UDATA,
                DW_FORM_SDATA,
                DW_FORM_BLOCK,
                DW_FORM_BLOCK1,
                DW_FORM_BLOCK2,
                DW_FORM_BLOCK4,
            ],
        ),
    }
}

// A format.
fn one_format(cursor: &mut Cursor) -> Option<Format>
    ensures { FindsAt format_view cursor.new result (format_in cursor.old) }
{
    let content = cursor.uleb().ok()?;
    let form = cursor.uleb().ok()?;
    if !is_format(content, form) {
        return None;
    }
    Some(Format { content, form })
}

/// The formats of a table: a byte says how many there are.
#[tactic(auto, unfolding(crate::specs::Reading::formats_in))]
pub(crate) fn formats(
    alloc: Global,
    cursor: &mut Cursor,
    bad: Fault,
) -> Result<Vec<Format>, ReadErr>
    ensures { TriesAt (λ f. format_views f.items) bad cursor.new result (formats_in cursor.old) }
{
    let missing = ReadErr::Refused(bad);
    let Ok(count) = cursor.u8() else {
        return Err(missing);
    };
    let mut formats = Vec::new(alloc);
    for _number in 0..count {
        let Some(format) = one_format(cursor) else {
            return Err(missing);
        };
        formats.push(format)?;
    }
    Ok(formats)
}

/// Whether a format has the form strp.
pub(crate) fn names_strs(formats: &[Format]) -> bool
    ensures { result ≡ LineTables.names_strs (format_views formats.now) }
{
    for format in formats {
        if format.form == DW_FORM_STRP {
            return true;
        }
    }
    false
}
