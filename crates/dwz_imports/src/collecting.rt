//! What all entries of a file import.

ghost use Rattle.std.specs.Prelude.{◌≡◌, ◌==◌, if◌then◌else◌, ◌+◌, ◌<◌, ◌^◌, ◌++◌, [], ◌∷◌, Some, IfOk, OnOk, length, map, slice_get};
ghost use Rattle.std.specs.List.{flat_map};
ghost use Rattle.std.specs.Option.{option_map};
ghost use Rattle.dwz_def_reading.specs.Units.{entries_in};
ghost use Rattle.dwz_imports.specs.Said.{raw_beside};
ghost use Rattle.dwz_imports.specs.Stored.{edge, row_edges, row_imports};
ghost use Rattle.dwz_unit.specs.Rows.{EntryRow, rows_of, units_of};

use crate::entries::find_parts;
use dwz_codes::DW_TAG_IMPORTED_UNIT;
use dwz_groups::Edge;
use dwz_model::NoMemory;
use dwz_unit::{RawEntry, Units};
use std::alloc::Global;

/// What entries import: of each whether it imports a partial unit; and the partial units that units import by children of their roots, each
/// under the unit.
#[derive(Drop)]
pub(crate) struct Collected {
    pub(crate) importing: Vec<bool>,
    pub(crate) edges: Vec<Edge>,
}

// The depth of the children of a root.
const CHILD: u32 = 2;

// Adds partial units under a unit.
fn put_parts(edges: &mut Vec<Edge>, unit: u32, parts: &[u32]) -> Result<(), NoMemory>
    ensures { OnOk result (edges.new.items ≡ edges.old.items ++ map (edge unit) parts.now) }
{
    for part in parts {
        edges.push(Edge {
            key: unit,
            value: *part,
        })?;
    }
    Ok(())
}

// The same by an entry, if it is a child of a root.
fn put_children(edges: &mut Vec<Edge>, entry: &RawEntry, parts: &[u32]) -> Result<(), NoMemory>
    ensures { OnOk result (edges.new.items ≡ edges.old.items ++ (if entry.now.depth == 2 then map
        (edge entry.now.unit) parts.now else [])) }
{
    if entry.depth != CHILD {
        return Ok(());
    }
    put_parts(edges, entry.unit, parts)
}

impl Collected {
    // Adds what the entry with a number imports.
    fn put_entry(
        &mut self,
        own: &Units,
        common: Option<&Units>,
        i: u32,
        parts: &mut Vec<u32>,
    ) -> Result<(), NoMemory>
        requires entry { i < entries_in (units_of own.now) }
        requires room { length (units_of own.now) + length (raw_beside (option_map (λ u. u.now) common)) < 2 ^ 32 }
        ensures importing { (row : EntryRow) → slice_get (rows_of (units_of own.now)) i ≡ Some row → OnOk result (self.new.importing.items
            ≡ self.old.importing.items ++ row_imports (units_of own.now) (raw_beside (option_map (λ u. u.now) common.entry)) row ∷ []) }
        ensures edges { (row : EntryRow) → slice_get (rows_of (units_of own.now)) i ≡ Some row → OnOk result (self.new.edges.items
            ≡ self.old.edges.items ++ row_edges (units_of own.now) (raw_beside (option_map (λ u. u.now) common.entry)) row) }
    {
        let entry = own.entry(i);
        if entry.tag != DW_TAG_IMPORTED_UNIT {
            self.importing.push(false)?;
            return Ok(());
        }
        find_parts(own, common, own.unit(entry.unit).at, i, parts)?;
        let found = parts.as_slice();
        self.importing.push(!found.is_empty())?;
        put_children(&mut self.edges, &entry, found)
    }
}

/// What the entries of a file import.
pub(crate) fn collect(
    alloc: Global,
    own: &Units,
    common: Option<&Units>,
) -> Result<Collected, NoMemory>
    requires { length (units_of own.now) + length (raw_beside (option_map (λ u. u.now) common)) < 2 ^ 32 }
    ensures importing { IfOk result (λ x. x.importing.items
        ≡ map (row_imports (units_of own.now) (raw_beside (option_map (λ u. u.now) common.entry))) (rows_of (units_of own.now))) }
    ensures edges { IfOk result (λ x. x.edges.items
        ≡ flat_map (row_edges (units_of own.now) (raw_beside (option_map (λ u. u.now) common.entry))) (rows_of (units_of own.now))) }
{
    let importing = Vec::with_capacity(alloc, own.entries() as usize)?;
    let mut collected = Collected {
        importing,
        edges: Vec::new(alloc),
    };
    let mut parts = Vec::new(alloc);
    for i in 0..own.entries() {
        collected.put_entry(own, common, i, &mut parts)?;
    }
    Ok(collected)
}
