//! Entries, and the units that they refer into.

ghost use Rattle.std.specs.Prelude.{◌≡◌, ℕ, ◌<◌, ◌≤◌, List, OnOk, map, true};
ghost use Rattle.std.specs.List.{list_any};
ghost use Rattle.dwz_def_reading.specs.Documents.{Node, node_map};
ghost use Rattle.dwz_def_reading.specs.Meanings.{MeaningContext};
ghost use Rattle.dwz_def_reading.specs.Units.{entries_in};
ghost use Rattle.dwz_def_tops.specs.Alike.{any_attr};
ghost use Rattle.dwz_def_tops.specs.Spots.{EntryName};
ghost use Rattle.dwz_graph.specs.Rows.{AreRowsMeant, IsEntryMeant, node_refs};
ghost use Rattle.dwz_move.specs.Bound.{AreInto, EachInto};
ghost use Rattle.dwz_unit.specs.Rows.{EntryRow, units_of};
ghost use Rattle.dwz_reuse.specs.Puts.{PutsIf, goes_into};

use crate::into::from_entry;
use crate::value_edges::put_value;
use dwz_codes::DW_AT_SIBLING;
use dwz_expr::Operand;
use dwz_groups::Edge;
use dwz_model::NoMemory;
use dwz_unit::{Units, Values, known_value};

// Adds an edge from a unit to each that a reference of an entry goes into. The units of the entry's references stand first.
fn put_entry(
    units: &Units,
    into: &[Option<u32>],
    i: u32,
    unit: u32,
    edges: &mut Vec<Edge>,
    operands: &mut Vec<Operand>,
) -> Result<(), NoMemory>
    requires { i < entries_in (units_of units.now) }
    ensures { (s : MeaningContext ℕ) (numbers : List ℕ) (row : EntryRow) (d : Node ℕ) (name : ℕ → EntryName)
        → IsEntryMeant (units_of units.now) s i numbers row d → AreInto name into.now (node_refs d)
        → OnOk result (PutsIf unit (λ n. any_attr (goes_into n) (node_map name d) ≡ true) edges.old.items edges.new.items) }
{
    let Values { pairs, mut cursor } = units.values(i);
    let mut rest = into;
    for pair in pairs {
        let raw = known_value(&mut cursor, pair);
        let end = cursor.at() as u64;
        if pair.name != DW_AT_SIBLING {
            rest = put_value(edges, unit, rest, end, pair, &raw, operands)?;
        }
    }
    Ok(())
}

/// Adds an edge from a unit to each that a reference of the entries from one number to before another goes into. For each reference of the
/// file is given the unit that it goes into, and for each entry where its references begin.
pub(crate) fn put_entries(
    units: &Units,
    into: &[Option<u32>],
    starts: &[u32],
    first: u32,
    end: u32,
    unit: u32,
    edges: &mut Vec<Edge>,
    operands: &mut Vec<Operand>,
) -> Result<(), NoMemory>
    requires { end ≤ entries_in (units_of units.now) }
    ensures { (s : MeaningContext ℕ) (numbers : List ℕ) (rows after : List EntryRow) (ds : List (Node ℕ)) (name : ℕ → EntryName)
        → AreRowsMeant (units_of units.now) s first end numbers rows after ds → EachInto name into.now starts.now first ds
        → OnOk result (PutsIf unit (λ n. list_any (any_attr (goes_into n)) (map (node_map name) ds) ≡ true) edges.old.items
        edges.new.items) }
{
    for i in first..end {
        put_entry(
            units,
            from_entry(into, starts, i as usize),
            i,
            unit,
            edges,
            operands,
        )?;
    }
    Ok(())
}
