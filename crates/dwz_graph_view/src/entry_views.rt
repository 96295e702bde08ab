//! Entries by their places.

ghost use Rattle.std.specs.Prelude.{◌≡◌, ◌+◌, ◌<◌, ◌≤◌, ◌==◌, ℕ, None, Some, IfSome, count_by, length, not, slice_get};
ghost use Rattle.std.specs.Option.{option_map};
ghost use Rattle.dwz_def_reading.specs.Meanings.{Around, without_siblings};
ghost use Rattle.dwz_def_reading.specs.Units.{entries_in};
ghost use Rattle.dwz_graph.specs.Files.{docs_of};
ghost use Rattle.dwz_graph.specs.Places.{place_at};
ghost use Rattle.dwz_graph_view.specs.EntryRows.{IsNumberAt, IsRowOf};
ghost use Rattle.dwz_graph_view.specs.EntryViews.{EntrySpot, entry_at, entry_view, first_offset};
ghost use Rattle.dwz_unit.specs.Rows.{EntryRow, rows_of, units_of};

use crate::unit_views::units_before;
use dwz_codes::DW_AT_SIBLING;
use dwz_graph::Graph;
use dwz_model::{Pair, Place};
use dwz_unit::{Units, Values};

/// What is shown of an entry (DWARF 5, 2.1 to 2.3). Offsets are in bytes from the first of its file's `.debug_info`.
#[derive(Clone, Copy, Debug, PartialEq, Eq)]
pub struct EntryView {
    /// As `DW_TAG_variable` is 0x34.
    pub tag: u16,
    /// The number of its unit among those of all files.
    pub unit: u32,
    /// How many attributes it has, without `DW_AT_sibling` (7.5.4).
    pub attrs: u32,
    /// Where its first child begins, or 0 where it has none.
    pub child: u32,
    /// Where its next sibling begins, or 0 where it has none.
    pub next: u32,
}

// The number of the entry that begins at an offset.
pub(crate) fn find_entry(units: &Units, offset: u32) -> Option<u32>
    ensures found { IfSome result (λ i. (i < entries_in (units_of units.now)) × (place_at (units_of units.now) i ≡ offset)) }
    ensures none { result ≡ None → (i : ℕ) → i < entries_in (units_of units.now) → place_at (units_of units.now) i ≡ offset → ⊥ }
{
    let mut low = 0;
    let mut high = units.entries();
    while low < high {
        let middle = low + (high - low) / 2;
        let at = units.entry(middle).at;
        if at == offset {
            return Some(middle);
        }
        if at < offset {
            low = middle + 1;
        } else {
            high = middle;
        }
    }
    None
}

// How many pairs are of attributes.
fn counted(pairs: &[Pair]) -> usize
    ensures { result ≡ count_by (λ pair. not (pair.name == 0x01)) pairs.now }
{
    pairs
        .iter()
        .filter(|pair| pair.name != DW_AT_SIBLING)
        .count()
}

// How many attributes the entry with a number has.
fn attrs_of(units: &Units, entry: u32) -> u32
    requires { entry < entries_in (units_of units.now) }
    ensures { (row : EntryRow) → slice_get (rows_of (units_of units.now)) entry ≡ Some row
        → result ≡ length (without_siblings row.entry.attrs) }
{
    let _count = units.entry(entry).attrs;
    let Values {
        pairs,
        cursor: _cursor,
    } = units.values(entry);
    counted(pairs) as u32
}

// Where the first child of the entry with a number begins, or 0.
fn child_of(units: &Units, entry: u32) -> u32
    requires { entry < entries_in (units_of units.now) }
    ensures { (around : Around ℕ) (first : ℕ) (e : EntrySpot) → IsRowOf (units_of units.now) around first entry e → result ≡ first_offset e.below }
{
    let end = units.entry(entry).end;
    if entry + 1 < end {
        units.entry(entry + 1).at
    } else {
        0
    }
}

// Where the next sibling of the entry with a number begins, or 0.
fn next_of(units: &Units, entry: u32) -> u32
    requires { entry < entries_in (units_of units.now) }
    ensures { (around : Around ℕ) (first : ℕ) (e : EntrySpot) → IsRowOf (units_of units.now) around first entry e → result ≡ first_offset e.behind }
{
    let row = units.entry(entry);
    if row.end >= units.entries() {
        return 0;
    }
    let next = units.entry(row.end);
    if next.unit == row.unit && next.depth == row.depth {
        next.at
    } else {
        0
    }
}

/// The number of the entry that begins at a place, among those of its file.
pub(crate) fn number_at(graph: &Graph, place: Place) -> Option<u32>
    ensures found { IfSome result (λ i. IsNumberAt graph.now.given place i) }
    ensures none { result ≡ None → entry_at (docs_of graph.now.given) place ≡ None }
{
    let files = graph.files();
    if place.file as usize >= files.len() {
        return None;
    }
    find_entry(&files[place.file as usize].units, place.offset)
}

/// The entry that begins at a place. None exactly where no entry begins there.
pub fn entry(graph: &Graph, place: Place) -> Option<EntryView>
    ensures { result ≡ option_map entry_view (entry_at (docs_of graph.now.given) place) }
{
    let number = number_at(graph, place)?;
    let units = &graph.files()[place.file as usize].units;
    let row = units.entry(number);
    Some(EntryView {
        tag: row.tag,
        unit: units_before(graph, place.file) + row.unit,
        attrs: attrs_of(units, number),
        child: child_of(units, number),
        next: next_of(units, number),
    })
}
