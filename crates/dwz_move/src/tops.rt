//! What the entries of a top say together: whether they bind it, and which tops they refer into.

ghost use Rattle.std.specs.Prelude.{◌≡◌, ℕ, ◌+◌, ◌<◌, ◌≤◌, ◌++◌, List, drop, map, slice_index, IfOk, OnOk};
ghost use Rattle.std.specs.List.{list_any};
ghost use Rattle.dwz_def_tops.specs.Alike.{entry_binds};
ghost use Rattle.dwz_def_tops.specs.Spots.{EntryName, Top};
ghost use Rattle.dwz_def_reading.specs.Units.{entries_in};
ghost use Rattle.dwz_graph.specs.Rows.{AreRowsMeant};
ghost use Rattle.dwz_def_reading.specs.Documents.{Node, node_map};
ghost use Rattle.dwz_def_reading.specs.Meanings.{MeaningContext};
ghost use Rattle.dwz_move.specs.Bound.{EachInto, HasTops, some_of, somes, target_of};
ghost use Rattle.dwz_unit.specs.Rows.{EntryRow, units_of};

use crate::bind::{TopRange, entry_binds};
use crate::binds::EntryBinds;
use dwz_expr::Operand;
use dwz_groups::Edge;
use dwz_model::NoMemory;
use dwz_unit::Units;

// The tops of references from that of the entry with a number on: where the references of each entry begin is given.
#[inline(always)]
pub(crate) fn from_entry<'a>(into: &'a [Option<u32>], starts: &[u32], i: usize) -> &'a [Option<u32>]
    ensures { result.now ≡ drop (slice_index starts.now i) into.now }
{
    let start = match starts.get(i) {
        Some(start) => *start as usize,
        None => 0,
    };
    match into.get(start..) {
        Some(rest) => rest,
        None => &[],
    }
}

/// Whether one of the entries from a number to before another binds its top. For each reference of the file is given the top that it
/// goes into, and for each entry where its references begin.
pub(crate) fn entries_bind(
    units: &Units,
    binds: &EntryBinds,
    own: &TopRange,
    into: &[Option<u32>],
    starts: &[u32],
    first: u32,
    end: u32,
    operands: &mut Vec<Operand>,
) -> Result<bool, NoMemory>
    requires within { end ≤ entries_in (units_of units.now) }
    requires same { binds.now ≡ units.now }
    ensures { (s : MeaningContext ℕ) (numbers : List ℕ) (rows after : List EntryRow) (ds : List (Node ℕ)) (tops : List Top) (unit : ℕ)
        (name : ℕ → EntryName) → HasTops tops unit own.now → AreRowsMeant (units_of units.now) s first end numbers rows after ds
        → EachInto name into.now starts.now first ds → IfOk result (λ b. b ≡ list_any (entry_binds tops unit) (map (node_map name) ds)) }
{
    for i in first..end {
        if entry_binds(
            units,
            binds,
            own,
            from_entry(into, starts, i as usize),
            i,
            operands,
        )? {
            return Ok(true);
        }
    }
    Ok(false)
}

/// Adds the tops that the references of a top go into, each under the top. These are the tops of its references, one for each, where it
/// goes into one.
pub fn add_targets(pairs: &mut Vec<Edge>, top: u32, into: &[Option<u32>]) -> Result<(), NoMemory>
    ensures { OnOk result (pairs.new.items ≡ pairs.old.items ++ map (target_of top) (somes into.now)) }
{
    for target in into {
        add_target(pairs, top, *target)?;
    }
    Ok(())
}

#[inline(always)]
fn add_target(pairs: &mut Vec<Edge>, top: u32, into: Option<u32>) -> Result<(), NoMemory>
    ensures { OnOk result (pairs.new.items ≡ pairs.old.items ++ map (target_of top) (some_of into)) }
{
    if let Some(target) = into {
        pairs.push(Edge {
            key: top,
            value: target,
        })?;
    }
    Ok(())
}
