//! The paths from the roots of type units to their types.

ghost use Rattle.std.specs.Prelude.{◌≡◌, ℕ, ◌+◌, ◌<◌, ◌≤◌, ◌^◌, ◌++◌, List, None, Some, IfSome, OnOk, length, map, reverse, slice_get};
ghost use Rattle.dwz_check_columns.specs.Paths.{PutsPath, PutsPaths};
ghost use Rattle.dwz_check_index.specs.Index.{Called, ListedEntry, ShowNames, path_in};
ghost use Rattle.dwz_check_index.specs.declared.index.CrossStarts.{CrossStarts};
ghost use Rattle.dwz_check_sides.specs.Says.{IsSide, SaysSome};
ghost use Rattle.dwz_def_reading.specs.Documents.{DwUnit};
ghost use Rattle.dwz_def_reading.specs.Units.{entries_in};
ghost use Rattle.dwz_graph.specs.Resolved.{place_at};
ghost use Rattle.dwz_imports.specs.Stored.{edge};
ghost use Rattle.dwz_unit.specs.Rows.{units_of};

use dwz_check_sides::Side;
use dwz_codes::DW_UT_TYPE;
use dwz_groups::Edge;
use dwz_model::NoMemory;
use dwz_unit::Units;
use std::alloc::Global;

// The number of the entry that begins at a place, among those from `first` to before `end`.
fn entry_at(units: &Units, first: u32, end: u32, place: u64) -> Option<u32>
    requires { end ≤ entries_in (units_of units.now) }
    ensures found { IfSome result (λ i. (first ≤ i) × (i < end) × (place_at (units_of units.now) i ≡ place)) }
    ensures none { result ≡ None → (i : ℕ) → first ≤ i → i < end → place_at (units_of units.now) i ≡ place → ⊥ }
{
    let mut low = first;
    let mut high = end;
    while low < high {
        let middle = low + (high - low) / 2;
        let at = units.entry(middle).at as u64;
        if at == place {
            return Some(middle);
        }
        if at < place {
            low = middle + 1;
        } else {
            high = middle;
        }
    }
    None
}

// Adds steps under a key, the last one first.
fn put_steps(key: u32, path: &mut Vec<u32>, edges: &mut Vec<Edge>) -> Result<(), NoMemory>
    ensures { OnOk result (edges.new.items ≡ edges.old.items ++ map (edge key) (reverse path.old.items)) }
{
    'steps: while let Some(step) = path.pop() {
        edges.push(Edge { key, value: step })?;
    }
    Ok(())
}

// Adds the child indexes from the top of an entry down to it, under a key. They are found in `path`.
fn put_way(
    side: &Side,
    entry: u32,
    key: u32,
    edges: &mut Vec<Edge>,
    path: &mut Vec<u32>,
) -> Result<(), NoMemory>
    requires { entry < length side.now.index.now.steps }
    ensures { (names : List Called) (entries : List (ListedEntry ℕ)) (name : Called)
        → ShowNames names entries side.now.index.now.steps → slice_get names entry ≡ Some name
        → OnOk result (edges.new.items ≡ edges.old.items ++ map (edge key) (reverse (path_in name.1))) }
{
    path.clear();
    side.index.put_path(entry, path)?;
    put_steps(key, path, edges)?;
    Ok(())
}

// Adds the child indexes from the root of a unit down to its type, if it is a type unit, under a key. They are found in `path`.
fn put_path(
    side: &Side,
    n: u32,
    key: u32,
    edges: &mut Vec<Edge>,
    path: &mut Vec<u32>,
) -> Result<(), NoMemory>
    requires said { SaysSome side.now }
    requires within { n < length (units_of side.now.file.now.units) }
    ensures { (said : List (DwUnit ℕ)) (starts : CrossStarts) (u : DwUnit ℕ) → IsSide side.now said starts
        → slice_get said n ≡ Some u → OnOk result (PutsPath key u edges.old.items edges.new.items) }
{
    let units = &side.file.units;
    let unit = units.unit(n);
    if unit.kind != DW_UT_TYPE {
        return Ok(());
    }
    let end = units.entry(unit.first).end;
    let place = unit.at as u64 + unit.type_offset as u64;
    match entry_at(units, unit.first, end, place) {
        None => Ok(()),
        Some(entry) => put_way(side, entry, key, edges, path),
    }
}

/// Adds the paths of all units of a file, the first of which has that number.
pub(crate) fn put_paths(
    alloc: Global,
    side: &Side,
    first: u32,
    edges: &mut Vec<Edge>,
) -> Result<(), NoMemory>
    requires said { SaysSome side.now }
    requires room { first + length (units_of side.now.file.now.units) < 2 ^ 32 }
    ensures { (said : List (DwUnit ℕ)) (starts : CrossStarts) → IsSide side.now said starts
        → OnOk result (PutsPaths first said edges.old.items edges.new.items) }
{
    let mut path = Vec::new(alloc);
    for n in 0..side.file.units.len() {
        put_path(side, n, first + n, edges, &mut path)?;
    }
    Ok(())
}
