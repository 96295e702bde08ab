//! The partial units of a finished common file, and those that they refer into.

ghost use Rattle.std.specs.Prelude.{◌≡◌, ◌↔◌, ◌≤◌, ℕ, List, IfOk, length};
ghost use Rattle.dwz_def_reading.specs.Documents.{Doc};
ghost use Rattle.dwz_def_reading.specs.Lists.{In};
ghost use Rattle.dwz_def_taken.specs.Beside.{reused_of};
ghost use Rattle.dwz_def_taken.specs.Takes.{PartRefers};
ghost use Rattle.dwz_def_tops.specs.Spots.{EntryName};
ghost use Rattle.dwz_graph.specs.Resolved.{AreEntries};
ghost use Rattle.dwz_reuse.specs.Read.{IsCommonRead};
ghost use Rattle.dwz_reuse.specs.Puts.{NamesUnits};
ghost use Rattle.dwz_move.specs.Known.{tops_of_refs};
ghost use Rattle.dwz_takes.specs.Takes.{AreBelow, list_at};
ghost use Rattle.dwz_unit.specs.Rows.{units_of};

use crate::unit_edges::put_units;
use dwz_graph::File;
use dwz_groups::{Groups, group};
use dwz_model::NoMemory;
use dwz_unit::Units;
use std::alloc::Global;

// For each reference of a file the unit of the entry that it names.
fn units_of_refs(alloc: Global, units: &Units, refs: &[u32]) -> Result<Vec<Option<u32>>, NoMemory>
    requires { AreEntries (units_of units.now) refs.now }
    ensures { (name : ℕ → EntryName) → NamesUnits (units_of units.now) name
        → IfOk result (λ into. into.items ≡ tops_of_refs name (units_of units.now) refs.now) }
{
    let mut into = Vec::with_capacity(alloc, refs.len())?;
    for entry in refs {
        into.push(Some(units.entry(*entry).unit))?;
    }
    Ok(into)
}

/// For each of so many partial units of a common file those that a reference of it goes into, by their numbers.
pub(crate) fn part_targets(alloc: Global, common: &File, parts: usize) -> Result<Groups, NoMemory>
    requires said { (doc : Doc ℕ) × IsCommonRead common.now doc }
    requires parts { length (units_of common.now.units) ≤ parts }
    ensures refers { (docs : List (Doc ℕ)) (doc : Doc ℕ) → IsCommonRead common.now doc
        → IfOk result (λ targets. (p q : ℕ) → In q (list_at targets p) ↔ PartRefers (reused_of docs doc) p q) }
    ensures len { IfOk result (λ targets. length targets ≡ parts) }
    ensures below { IfOk result (AreBelow parts) }
{
    let resolved = &common.resolved;
    let into = units_of_refs(alloc, &common.units, resolved.refs.as_slice())?;
    let mut edges = Vec::new(alloc);
    let mut operands = Vec::new(alloc);
    put_units(
        &common.units,
        into.as_slice(),
        resolved.starts.as_slice(),
        &mut edges,
        &mut operands,
    )?;
    group(alloc, parts, edges.as_slice())
}
