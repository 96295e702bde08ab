//! What is asked of the tops of a partial unit: which line table their unit has, and whether they number files.

ghost use Rattle.std.specs.Prelude.{◌≡◌, ◌≤◌, ℕ, List, Some, slice_get, slice_range};
ghost use Rattle.std.specs.List.{list_any};
ghost use Rattle.dwz_def_tops.specs.Spots.{Top, tops_of, units_of};
ghost use Rattle.dwz_def_reading.specs.Units.{RawUnit, entries_in};
ghost use Rattle.dwz_graph.specs.declared.file.File.{File};
ghost use Rattle.dwz_graph.specs.Files.{docs_of};
ghost use Rattle.dwz_def_reading.specs.Meanings.{first_raw};
ghost use Rattle.dwz_layout_input.specs.Roots.{numbers_file, path_in, root_line};
ghost use Rattle.dwz_layout_input.specs.Steps.{AreTops, HaveLine, KnowsTops, LineOf, SaysLine};
ghost use Rattle.dwz_unit.specs.declared.rows.RawEntry.{RawEntry};
ghost use Rattle.dwz_unit.specs.Rows.{EntryRow, rows_of, shown_entries, units_of as raw_units};

use crate::paths::any_numbers_file;
use crate::places::{line_of_unit, place_of};
use dwz_graph::{File, Index};
use dwz_groups::Tops;
use dwz_layout::Row;

// The line table of the unit of an entry.
fn line_at(files: &[File], place: Row) -> Option<u32>
    ensures { (f : File) (row : EntryRow) (u : RawUnit) → slice_get files.now place.file ≡ Some f
        → slice_get (rows_of (raw_units f.units)) place.entry ≡ Some row → slice_get (raw_units f.units) row.unit ≡ Some u
        → LineOf (first_raw 0x10 u.root.attrs) result }
{
    let file = files.get(place.file as usize)?;
    if place.entry >= file.units.entries() {
        return None;
    }
    line_of_unit(&file.units, file.units.entry(place.entry).unit)
}

/// The line table of the unit of a top.
pub(crate) fn line_of_top(files: &[File], indexes: &[Index], tops: &Tops, top: u32) -> Option<u32>
    ensures { (contents : List (List ℕ)) (t : Top) → KnowsTops contents files.now indexes.now tops.now
        → slice_get (tops_of (units_of (docs_of contents))) top ≡ Some t → SaysLine (root_line (units_of (docs_of contents)) t) result }
{
    let place = place_of(indexes, tops, top)?;
    line_at(files, place)
}

// Whether the entry there, or one below it, numbers a file.
fn numbers_file_at(files: &[File], place: Row) -> bool
    ensures { (f : File) (r : RawEntry) → slice_get files.now place.file ≡ Some f
        → slice_get (shown_entries (raw_units f.units)) place.entry ≡ Some r → r.end ≤ entries_in (raw_units f.units)
        → result ≡ list_any numbers_file (slice_range (rows_of (raw_units f.units)) place.entry r.end) }
{
    let Some(file) = files.get(place.file as usize) else {
        return false;
    };
    let count = file.units.entries();
    if place.entry >= count {
        return false;
    }
    let end = file.units.entry(place.entry).end.min(count);
    any_numbers_file(&file.units, place.entry, end)
}

// Whether an entry of a top numbers a file: one with a path, where its unit has a line table.
fn top_numbers_file(files: &[File], indexes: &[Index], tops: &Tops, top: u32) -> bool
    ensures { (contents : List (List ℕ)) (t : Top) (line : ℕ) → KnowsTops contents files.now indexes.now tops.now
        → slice_get (tops_of (units_of (docs_of contents))) top ≡ Some t → SaysLine (root_line (units_of (docs_of contents)) t) (Some line)
        → path_in t ≡ result }
{
    match place_of(indexes, tops, top) {
        None => false,
        Some(place) => numbers_file_at(files, place),
    }
}

/// Whether an entry of one of these tops does, which are all of units with that line table.
pub(crate) fn any_top_numbers_file(
    files: &[File],
    indexes: &[Index],
    tops: &Tops,
    list: &[u32],
) -> bool
    ensures { (contents : List (List ℕ)) (ts : List Top) (line : ℕ) → KnowsTops contents files.now indexes.now tops.now
        → AreTops (units_of (docs_of contents)) ts list.now → HaveLine (units_of (docs_of contents)) ts (Some line)
        → list_any path_in ts ≡ result }
{
    for top in list {
        if top_numbers_file(files, indexes, tops, *top) {
            return true;
        }
    }
    false
}
