//! Texts in sections, and paths of files.

ghost use Rattle.std.specs.Prelude.{◌≡◌, ℕ, pos, ◌<◌, ◌^◌, ◌++◌, true, List, Some, Ok, OnOk, slice_get};
ghost use Rattle.dwz_label_entries.specs.Plain.{KnowsLine};
ghost use Rattle.dwz_def_reading.specs.Entries.{RawAttr};
ghost use Rattle.dwz_def_reading.specs.Texts;
ghost use Rattle.dwz_forms.specs.RawValues.{raw_view};
ghost use Rattle.dwz_label.specs.Labels.{plain_label};
ghost use Rattle.dwz_def_reading.specs.Documents.{File, Text, Value};
ghost use Rattle.dwz_def_reading.specs.LineTables.{FileTable};
ghost use Rattle.dwz_def_reading.specs.Meanings.{MeaningContext, path_by, stmt_list};
ghost use Rattle.dwz_def_reading.specs.Meant.{file_by};
ghost use Rattle.dwz_graph.specs.Parts.{numbers_file};

use crate::numbers::number_of;
use dwz_forms::Raw;
use dwz_graph::{InputSections, slot, text_in};
use dwz_label::{put_file, put_no_file, put_text};
use dwz_lines::TableRows;
use dwz_model::NoMemory;
use std::alloc::Global;

/// Appends that a value is the text at an offset of a section, which is there.
#[inline(always)]
pub fn put_text_at(out: &mut Vec<u8>, section: &[u8], offset: u128) -> Result<(), NoMemory>
    ensures { (text : List ℕ) → Texts.text_at section.now offset ≡ Some text
        → OnOk result (out.new.items ≡ out.old.items ++ plain_label (Text text)) }
{
    match text_in(section, offset) {
        None => Ok(()),
        Some(text) => put_text(out, text),
    }
}

/// The same of the text at the offset in a slot of `.debug_str_offsets` (DWARF 5, 7.26).
pub(crate) fn put_text_by_slot(
    out: &mut Vec<u8>,
    sections: &InputSections,
    base: Option<u32>,
    index: u128,
) -> Result<(), NoMemory>
    ensures { (at offset : ℕ) (text : List ℕ) → base ≡ Some at → Texts.slot sections.now.offsets.now at index ≡ Some offset
        → Texts.text_at sections.now.strs.bytes.now offset ≡ Some text
        → OnOk result (out.new.items ≡ out.old.items ++ plain_label (Text text)) }
{
    let Some(base) = base else {
        return Ok(());
    };
    let Some(offset) = slot(sections.offsets, base as u128, index) else {
        return Ok(());
    };
    put_text_at(out, sections.strs.bytes, offset as u128)
}

/// A number that may be one of a row; no table has as many rows as 2^63.
#[inline(always)]
pub fn row_of(number: i128) -> u64
    ensures { (n : ℕ) → number ≡ pos n → n < 2 ^ 63 → result ≡ n }
{
    if number < 0 || number > u64::MAX as i128 {
        return u64::MAX;
    }
    number as u64
}

// Appends that a value is the file with a number, which the table has.
#[inline(always)]
fn put_path(
    alloc: Global,
    out: &mut Vec<u8>,
    table: &TableRows,
    number: i128,
) -> Result<(), NoMemory>
    ensures { (path : List ℕ) → path_by table.now number ≡ Some path
        → OnOk result (out.new.items ≡ out.old.items ++ plain_label (File (Some path))) }
{
    match table.path(alloc, row_of(number))? {
        None => Ok(()),
        Some(path) => put_file(out, &path),
    }
}

// The same of the table with that number, which is there.
#[inline(always)]
fn put_path_in(
    alloc: Global,
    out: &mut Vec<u8>,
    tables: &[TableRows],
    table: usize,
    number: i128,
) -> Result<(), NoMemory>
    ensures { (t : FileTable) (path : List ℕ) → slice_get tables.now table ≡ Some t → path_by t number ≡ Some path
        → OnOk result (out.new.items ≡ out.old.items ++ plain_label (File (Some path))) }
{
    if table >= tables.len() {
        return Ok(());
    }
    put_path(alloc, out, &tables[table], number)
}

/// Appends that a value is the file whose number in the line table of its unit it stores, by its path (DWARF 5, 2.14).
pub(crate) fn put_file_by(
    alloc: Global,
    out: &mut Vec<u8>,
    tables: &[TableRows],
    line: Option<usize>,
    raw: &Raw,
) -> Result<(), NoMemory>
    ensures { (s : MeaningContext ℕ) (a : RawAttr) (v : Value ℕ) → numbers_file a ≡ true → a.raw ≡ raw_view raw.now
        → KnowsLine s a tables.now line
        → file_by (stmt_list s) s a ≡ Ok v → OnOk result (out.new.items ≡ out.old.items ++ plain_label v.plain) }
{
    match line {
        None => put_no_file(out),
        Some(table) => put_path_in(alloc, out, tables, table, number_of(raw)),
    }
}
