//! Texts, slots and rows that values name.

ghost use Rattle.std.specs.Prelude.{◌≡◌, ℕ, true, IfOk, List, Ok, Option, Some};
ghost use Rattle.std.specs.Option.{option_map};
ghost use Rattle.dwz_def_encoding.specs.Placing;
ghost use Rattle.dwz_def_expand.specs.Chosen.{row_for};
ghost use Rattle.dwz_def_reading.specs.Documents.{Value};
ghost use Rattle.dwz_def_reading.specs.Entries.{RawAttr};
ghost use Rattle.dwz_def_reading.specs.Meanings.{MeaningContext, path_by, stmt_list};
ghost use Rattle.dwz_def_reading.specs.Meant.{file_by};
ghost use Rattle.dwz_def_reading.specs.Texts;
ghost use Rattle.dwz_forms.specs.RawValues.{raw_view};
ghost use Rattle.dwz_graph.specs.Parts.{numbers_file};
ghost use Rattle.dwz_label_entries.specs.Plain.{KnowsLine};
ghost use Rattle.dwz_expand_passes.specs.Paths.{IsPathsOf};

use crate::files::SourceEntry;
use dwz_forms::Raw;
use dwz_graph::{InputSections, slot, text_in};
use dwz_label_entries::{number_of, row_of};
use dwz_lines::TableRows;
use dwz_model::NoMemory;
use std::alloc::Global;

/// The text at an offset of a section, which is there.
pub(crate) fn text_at(section: &[u8], offset: u128) -> &[u8]
    ensures { (text : List ℕ) → Texts.text_at section.now offset ≡ Some text → result.now ≡ text }
{
    match text_in(section, offset) {
        None => &[],
        Some(text) => text,
    }
}

/// The number in a slot of `.debug_str_offsets` (DWARF 5, 7.26); 0 where there is none.
pub(crate) fn slot_number(section: &[u8], base: Option<u32>, index: u128) -> u32
    ensures { result ≡ Placing.slot_number section.now base index }
{
    match base {
        None => 0,
        Some(base) => slot(section, base as u128, index).unwrap_or(0),
    }
}

/// The text at the offset that is in a slot, which is there.
pub(crate) fn text_by_slot<'a>(
    sections: &InputSections<'a>,
    base: Option<u32>,
    index: u128,
) -> &'a [u8]
    ensures { (at offset : ℕ) (text : List ℕ) → base ≡ Some at → Texts.slot sections.now.offsets.now at index ≡ Some offset
        → Texts.text_at sections.now.strs.bytes.now offset ≡ Some text → result.now ≡ text }
{
    text_at(
        sections.strs.bytes,
        slot_number(sections.offsets, base, index) as u128,
    )
}

// The path of the file with a number, in a table that has it.
fn path_of(alloc: Global, table: &TableRows, number: i128) -> Result<Option<Vec<u8>>, NoMemory>
    ensures { (path : List ℕ) → path_by table.now number ≡ Some path
        → IfOk result (λ o. option_map (λ p. p.items) o ≡ Some path) }
{
    let path = table.path(alloc, row_of(number))?;
    Ok(path)
}

/// The number for the file that a value numbers: its row in the line table of the new unit (DWARF 5, 2.14).
pub(crate) fn row_of_file(x: &SourceEntry, raw: &Raw) -> Result<Option<u64>, NoMemory>
    ensures { (s : MeaningContext ℕ) (a : RawAttr) (v : Value ℕ) (paths : Option (List (List ℕ))) → numbers_file a ≡ true
        → a.raw ≡ raw_view raw.now → KnowsLine s a x.now.file.tables.now x.now.line → file_by (stmt_list s) s a ≡ Ok v
        → IsPathsOf paths x.now.known.paths.now → IfOk result (λ row. row ≡ row_for paths v.plain) }
{
    let Some(number) = x.line else {
        return Ok(x.known.paths.row_for(None));
    };
    let tables = x.file.tables;
    if number >= tables.len() {
        return Ok(None);
    }
    match path_of(x.known.alloc, &tables[number], number_of(raw))? {
        None => Ok(None),
        Some(path) => Ok(x.known.paths.row_for(Some(path.as_slice()))),
    }
}
