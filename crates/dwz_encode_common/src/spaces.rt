//! Where the names of spaces are written once the common file has texts.

ghost use Rattle.std.specs.Prelude.{◌≡◌, ◌<◌, map, Some, slice_get, IfOk};
ghost use Rattle.std.specs.Option.{option_map, option_to_list};
ghost use Rattle.dwz_def_reading.specs.Units.{entries_in};
ghost use Rattle.dwz_graph.specs.Resolved.{sources_view};
ghost use Rattle.dwz_unit.specs.Rows.{EntryRow, rows_of, units_of};
ghost use Rattle.dwz_encode_common.specs.Placed as Specs;
ghost use Rattle.dwz_encode_common.specs.TextsIn.{texts_in};
ghost use Rattle.dwz_encode_common.specs.Stored.{row_name, slots_base_at};

use crate::placed::shares_in;
use crate::shared::place_text;
use crate::standing::PlacedTexts;
use crate::stored::text_of;
use dwz_codes::DW_AT_NAME;
use dwz_graph::{File, first_attr, here_of};
use dwz_layout::{EntryTable, Row, SpaceRow, TextAt};
use dwz_model::NoMemory;
use dwz_unit::Units;
use std::alloc::Global;

// The base of the slots of an entry's unit.
fn base_of_entry(units: &Units, entry: u32) -> Option<u32>
    requires { entry < entries_in (units_of units.now) }
    ensures { (row : EntryRow) → slice_get (rows_of (units_of units.now)) entry ≡ Some row
        → result ≡ slots_base_at (units_of units.now) row.unit }
{
    let number = units.entry(entry).unit;
    let unit = units.unit(number);
    here_of(units, number, &unit).offsets
}

// The name of an entry, if it has a place in a section.
fn name_of<'a>(file: &File<'a>, entry: u32) -> Option<&'a [u8]>
    requires { entry < entries_in (units_of file.now.units) }
    ensures { (row : EntryRow) → slice_get (rows_of (units_of file.now.units)) entry ≡ Some row
        → option_to_list (option_map (λ t. t.now) result) ≡ row_name (sources_view file.now.sections) (units_of file.now.units) row }
{
    let base = base_of_entry(&file.units, entry);
    match first_attr(&file.units, entry, DW_AT_NAME) {
        Some(attr) => text_of(&file.sections, base, &attr.pair, &attr.raw),
        None => None,
    }
}

// So of an entry of these files, if it is there.
fn name_at<'a>(files: &[File<'a>], row: Row) -> Option<&'a [u8]>
    ensures { option_to_list (option_map (λ t. t.now) result) ≡ Specs.name_at files.now row }
{
    let Some(file) = files.get(row.file as usize) else {
        return None;
    };
    if row.entry >= file.units.entries() {
        return None;
    }
    name_of(file, row.entry)
}

// A name is written there, if there is one.
fn place_name(
    texts: &PlacedTexts,
    is_common: bool,
    shares: bool,
    name: Option<&[u8]>,
    own: TextAt,
) -> Result<TextAt, NoMemory>
    ensures { IfOk result (λ t. t ≡ Specs.name_place is_common shares (texts_in texts.now) (option_to_list (option_map (λ t. t.now) name.entry)) own) }
{
    match name {
        Some(name) => place_text(texts, is_common, shares, name, own),
        None => Ok(own),
    }
}

// A space with the places of its name.
fn place_space(
    files: &[File],
    texts: &PlacedTexts,
    sharing: &[bool],
    space: &SpaceRow,
) -> Result<SpaceRow, NoMemory>
    ensures { IfOk result (λ s. s ≡ Specs.space_placed files.now (texts_in texts.now) sharing.now space.now) }
{
    let name = name_at(files, space.row);
    let shares = shares_in(sharing, space.row.file as usize);
    let text = place_name(texts, false, shares, name, space.text)?;
    let common = place_name(texts, true, false, name, space.common)?;
    Ok(SpaceRow {
        row: space.row,
        text,
        common,
    })
}

/// The spaces of all files once these are the texts of the common file: where the name of each (DWARF 5, 3.2.2, `DW_AT_name`) is written in
/// a partial unit of its file, which is in the common file where its file shares the texts and the name is among them, and in one of the
/// common file. Any other name keeps the place that it has in `known`. `NoMemory` also where a place has more than four bytes.
pub fn shared_names(
    alloc: Global,
    files: &[File],
    known: &EntryTable,
    texts: &PlacedTexts,
    sharing: &[bool],
) -> Result<Vec<SpaceRow>, NoMemory>
    ensures { IfOk result (λ spaces. spaces.items ≡ map (Specs.space_placed files.now (texts_in texts.now) sharing.now) known.now.spaces.items) }
{
    let mut spaces = Vec::with_capacity(alloc, known.spaces.len())?;
    for space in known.spaces.as_slice() {
        let placed = place_space(files, texts, sharing, space)?;
        spaces.push(placed)?;
    }
    Ok(spaces)
}
