//! Rows: what the values of a directory or a file say (DWARF 5, 6.2.4.1).

ghost use Rattle.std.specs.Prelude.{◌≡◌};
ghost use Rattle.std.specs.Option.{option_map};
ghost use Rattle.dwz_bytes.specs.Spelling;
ghost use Rattle.dwz_def_reading.specs.Forms.{form_rows};
ghost use Rattle.dwz_def_reading.specs.Texts;
ghost use Rattle.dwz_def_reading.specs.Values.{value_at};
ghost use Rattle.dwz_forms.specs.RawValues.{raw_view};
ghost use Rattle.dwz_def_reading.specs.LineTables;
ghost use Rattle.dwz_def_reading.specs.LineTables.{index_in};
ghost use Rattle.dwz_lines.specs.Reading;
ghost use Rattle.dwz_lines.specs.Reading.{FindsAt, row_in, seen_with, sure};
ghost use Rattle.dwz_lines.specs.Views.{format_view, format_views};
ghost use Rattle.dwz_lines.specs.RowViews.{row_view, seen_view, strings_view};

use crate::formats::Format;
use dwz_bytes::Cursor;
use dwz_codes::{DW_FORM_LINE_STRP, DW_FORM_STRP, DW_LNCT_DIRECTORY_INDEX, DW_LNCT_PATH};
use dwz_forms::{Raw, read_value};
use dwz_model::Pair;
use dwz_strs::text_at;

/// The sections in which texts stand.
#[derive(Clone, Copy)]
pub(crate) struct Strings<'a> {
    pub(crate) strs: &'a [u8],
    pub(crate) line_strs: &'a [u8],
}

/// A directory or a file: its path, and the number of the directory that it is in.
#[derive(Clone, Copy)]
pub(crate) struct Row<'a> {
    pub(crate) path: &'a [u8],
    pub(crate) dir: u64,
}

// What was seen of a row so far.
#[derive(Clone, Copy)]
struct Seen<'a> {
    path: Option<&'a [u8]>,
    dir: Option<u64>,
}

// How far a number is from 0, or a negative one from -1.
fn reach(number: i128) -> u128
    ensures { result ≡ Spelling.reach number }
{
    if number < 0 {
        (-(number + 1)) as u128
    } else {
        number as u128
    }
}

// The text at an offset.
fn text_by<'a>(section: &'a [u8], offset: u128) -> Option<&'a [u8]>
    ensures { option_map (λ t. t.now) result ≡ Texts.text_at section.now offset }
{
    if offset >= section.len() as u128 {
        return None;
    }
    text_at(section, offset as u64)
}

// The text of a value, by its form.
fn value_text<'a>(strings: Strings<'a>, form: u64, raw: Raw<'a>) -> Option<&'a [u8]>
    ensures { option_map (λ t. t.now) result ≡ LineTables.value_text (strings_view strings.entry) form (raw_view raw.entry) }
{
    match raw {
        Raw::Bytes(bytes) => Some(bytes),
        Raw::Number(number) => {
            let section = if form == DW_FORM_STRP {
                strings.strs
            } else {
                strings.line_strs
            };
            text_by(section, reach(number))
        }
    }
}

// Whether a form is that of a text's offset.
fn is_text_offset(form: u64) -> bool
    ensures { result ≡ LineTables.is_text_offset form }
{
    form == DW_FORM_STRP || form == DW_FORM_LINE_STRP
}

// Whether a text stands where a value says so.
fn has_its_text(strings: Strings, format: Format, raw: Raw) -> bool
    ensures { result ≡ LineTables.has_its_text (strings_view strings.entry) (format_view format) (raw_view raw.entry) }
{
    !is_text_offset(format.form) || value_text(strings, format.form, raw).is_some()
}

// The number of a directory.
fn index(raw: Raw) -> u128
    ensures { result ≡ index_in (raw_view raw.entry) }
{
    match raw {
        Raw::Number(number) => reach(number),
        Raw::Bytes(_) => 0,
    }
}

// What is seen with a value more: its text stands, if it names one; there is one path, and one index at most, which is that of one of
// so many directories.
fn with_value<'a>(
    seen: Seen<'a>,
    format: Format,
    raw: Raw<'a>,
    strings: Strings<'a>,
    dirs: u64,
) -> Option<Seen<'a>>
    ensures { option_map seen_view result ≡ seen_with (strings_view strings.entry) dirs (format_view format) (raw_view raw.entry)
        (seen_view seen.entry) }
{
    match format.content {
        DW_LNCT_PATH => match seen.path {
            Some(_) => None,
            None => {
                let path = value_text(strings, format.form, raw)?;
                Some(Seen {
                    path: Some(path),
                    dir: seen.dir,
                })
            }
        },
        _ if !has_its_text(strings, format, raw) => None,
        DW_LNCT_DIRECTORY_INDEX => match seen.dir {
            Some(_) => None,
            None => {
                let index = index(raw);
                if index >= dirs as u128 {
                    return None;
                }
                Some(Seen {
                    path: seen.path,
                    dir: Some(index as u64),
                })
            }
        },
        _ => Some(seen),
    }
}

// A value.
#[tactic(auto, using(crate::proofs::ValueLemmas::value_same))]
fn value<'a>(cursor: &mut Cursor<'a>, format: Format) -> Option<Raw<'a>>
    ensures { FindsAt raw_view cursor.new result (sure (value_at form_rows (format_view format) cursor.old)) }
{
    let pair = Pair {
        name: 0,
        form: format.form,
        constant: 0,
    };
    match read_value(cursor, &pair) {
        Ok(raw) => Some(raw),
        Err(_) => None,
    }
}

/// A row with these formats, whose directory is one of so many.
#[tactic(auto, unfolding(crate::specs::Reading::row_in))]
pub(crate) fn one_row<'a>(
    cursor: &mut Cursor<'a>,
    formats: &[Format],
    strings: Strings<'a>,
    dirs: u64,
) -> Option<Row<'a>>
    ensures { FindsAt row_view cursor.new result (row_in (strings_view strings.entry) dirs (format_views formats.now) cursor.old) }
{
    let mut seen = Seen {
        path: None,
        dir: None,
    };
    for format in formats {
        let raw = value(cursor, *format)?;
        seen = with_value(seen, *format, raw, strings, dirs)?;
    }
    let path = seen.path?;
    Some(Row {
        path,
        dir: seen.dir.unwrap_or(0),
    })
}
