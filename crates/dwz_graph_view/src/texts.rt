//! Texts in sections, and paths of files.

ghost use Rattle.std.specs.Prelude.{◌≡◌, ℕ, pos, ◌<◌, ◌^◌, true, Some, Ok, IfOk, slice_get};
ghost use Rattle.dwz_def_reading.specs.Documents.{Value};
ghost use Rattle.dwz_def_reading.specs.Entries.{RawAttr};
ghost use Rattle.dwz_def_reading.specs.LineTables.{FileTable};
ghost use Rattle.dwz_def_reading.specs.Meanings;
ghost use Rattle.dwz_def_reading.specs.Meanings.{MeaningContext, offset_of, path_by, stmt_list, str_offsets_base};
ghost use Rattle.dwz_def_reading.specs.Meant.{file_by, path_or, text_from, text_or};
ghost use Rattle.dwz_def_reading.specs.Texts.{text_at};
ghost use Rattle.dwz_graph.specs.Parts.{numbers_file};
ghost use Rattle.dwz_label_entries.specs.Plain.{KnowsLine};
ghost use Rattle.dwz_graph_view.specs.Settings.{KnowsSetting};
ghost use Rattle.dwz_graph_view.specs.ValueViews.{Shows};

use crate::setting::Setting;
use crate::value_views::ValueView;
use dwz_graph::{slot, text_in};
use dwz_label_entries::row_of;
use dwz_model::{Blob, NoMemory};

/// The text at an offset of a section.
pub(crate) fn text_view(section: &[u8], offset: u128) -> Option<ValueView<'_>>
    ensures { (file : ℕ) (a : RawAttr) (v : Value ℕ) → text_or a (text_at section.now offset) ≡ Ok v → Shows file v result }
{
    let text = text_in(section, offset)?;
    Some(ValueView::Text(text))
}

/// The text at the offset that is in a slot of `.debug_str_offsets` (DWARF 5, 7.26).
pub(crate) fn text_by_slot<'a>(setting: &Setting<'_, 'a>, index: u128) -> Option<ValueView<'a>>
    ensures { (s : MeaningContext ℕ) (a : RawAttr) (v : Value ℕ) → KnowsSetting setting.now s → index ≡ offset_of a
        → text_from s a (str_offsets_base s) ≡ Ok v → Shows setting.now.file v result }
{
    let sections = setting.sections;
    let base = setting.here.offsets?;
    let offset = slot(sections.offsets, base as u128, index)?;
    text_view(sections.strs.bytes, offset as u128)
}

// The file with a number in the line table of a unit, by its path.
fn path_view<'a>(
    setting: &Setting<'_, 'a>,
    table: usize,
    number: i128,
) -> Result<Option<ValueView<'a>>, NoMemory>
    ensures { (t : FileTable) (a : RawAttr) (v : Value ℕ) → slice_get setting.now.tables.now table ≡ Some t
        → path_or a (path_by t number) ≡ Ok v → IfOk result (λ o. Shows setting.now.file v o) }
{
    if table >= setting.tables.len() {
        return Ok(None);
    }
    match setting.tables[table].path(setting.alloc, row_of(number))? {
        None => Ok(None),
        Some(path) => Ok(Some(ValueView::File(Some(Blob::new(path))))),
    }
}

/// The file whose number in the line table of its unit a value is (2.14).
pub(crate) fn file_view<'a>(
    setting: &Setting<'_, 'a>,
    number: i128,
) -> Result<Option<ValueView<'a>>, NoMemory>
    ensures { (s : MeaningContext ℕ) (a : RawAttr) (v : Value ℕ) → numbers_file a ≡ true → number ≡ Meanings.number_of a.raw
        → KnowsLine s a setting.now.tables.now setting.now.line → file_by (stmt_list s) s a ≡ Ok v
        → IfOk result (λ o. Shows setting.now.file v o) }
{
    match setting.line {
        None => Ok(Some(ValueView::File(None))),
        Some(table) => path_view(setting, table, number),
    }
}
