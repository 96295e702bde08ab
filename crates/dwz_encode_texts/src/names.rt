//! Where the names of spaces stand.

ghost use Rattle.std.specs.Prelude.{◌≡◌, ℕ, ◌<◌, ◌++◌, All, List, Some, length, map, slice_get, IfOk, OnOk};
ghost use Rattle.dwz_def_reading.specs.Units.{entries_in};
ghost use Rattle.dwz_def_reading.specs.Meanings.{first_raw};
ghost use Rattle.dwz_unit.specs.Rows.{EntryRow, rows_of, units_of};
ghost use Rattle.dwz_graph.specs.Resolved.{around};
ghost use Rattle.dwz_graph.specs.Files.{docs_of};
ghost use Rattle.dwz_graph.specs.Index.{Index};
ghost use Rattle.dwz_graph.specs.Indexed.{AreIndexes};
ghost use Rattle.dwz_encode_texts.specs.Names.{HaveNames, named_text, names_of_spaces};

use crate::texts::{own_text, slot_bases};
use dwz_codes::DW_AT_NAME;
use dwz_graph::{File, Graph, SpaceEntry, first_attr};
use dwz_layout::TextAt;
use dwz_model::NoMemory;
use dwz_unit::Units;
use std::alloc::Global;

// Where the name of an entry stands.
fn name_of(units: &Units, offsets: &[u8], base: Option<u32>, entry: u32) -> TextAt
    requires { entry < entries_in (units_of units.now) }
    ensures { (row : EntryRow) → slice_get (rows_of (units_of units.now)) entry ≡ Some row
        → result ≡ named_text offsets.now base (first_raw 0x03 row.entry.attrs) }
{
    match first_attr(units, entry, DW_AT_NAME) {
        Some(attr) => own_text(offsets, base, &attr.pair, &attr.raw),
        None => TextAt::Own(0),
    }
}

// Appends those of spaces of a file.
fn put_names(
    alloc: Global,
    texts: &mut Vec<TextAt>,
    file: &File,
    spaces: &[SpaceEntry],
) -> Result<(), NoMemory>
    requires { All (λ s. s.entry < entries_in (units_of file.now.units)) spaces.now }
    ensures { let raw = units_of file.now.units in
        OnOk result (texts.new.items ≡ texts.old.items ++ names_of_spaces (around file.now.sections raw) raw spaces.now) }
{
    let units = &file.units;
    let bases = slot_bases(alloc, units)?;
    for space in spaces {
        let base = bases[units.entry(space.entry).unit as usize];
        texts.push(name_of(units, file.sections.offsets, base, space.entry))?;
    }
    Ok(())
}

/// For each space of all files, by its number, where its name (DWARF 5, 3.2.2, `DW_AT_name`) stands in `.debug_str` of its file. For a
/// name that isn't stored there, by an offset or by a slot, that is 0.
pub fn texts_of_spaces(alloc: Global, graph: &Graph) -> Result<Vec<TextAt>, NoMemory>
    ensures { (indexes : List Index) → AreIndexes (docs_of graph.now.given) indexes
        → IfOk result (λ texts. HaveNames graph.now.given indexes texts.items) }
{
    let indexes = graph.indexes();
    let mut texts = Vec::new(alloc);
    for (number, file) in graph.files().iter().enumerate() {
        put_names(alloc, &mut texts, file, indexes[number].spaces())?;
    }
    Ok(texts)
}
