//! Which tops of a common file operands name.

ghost use Rattle.std.specs.Prelude.{◌≡◌, ◌⊎◌, ℕ, List, None, Ok, false, length, map, replicate, true, IfOk, OnOk};
ghost use Rattle.std.specs.List.{list_any};
ghost use Rattle.dwz_check_index.specs.Both.{from_top};
ghost use Rattle.dwz_check_index.specs.Index.{IsCrossIndex};
ghost use Rattle.dwz_def_reading.specs.Documents.{Doc, DwUnit, unit_map};
ghost use Rattle.dwz_def_reading.specs.Meanings.{Around};
ghost use Rattle.dwz_def_reading.specs.Meant.{units_meaning};
ghost use Rattle.dwz_def_reading.specs.Units.{entries_in};
ghost use Rattle.dwz_def_taken.specs.Beside.{own_tops, reused_of};
ghost use Rattle.dwz_def_tops.specs.Alike.{any_attr};
ghost use Rattle.dwz_def_tops.specs.Spots.{EntryName};
ghost use Rattle.dwz_graph.specs.Resolved.{AreEntries};
ghost use Rattle.dwz_reuse.specs.Read.{IsCommonRead};
ghost use Rattle.dwz_reuse.specs.Into.{common_name};
ghost use Rattle.dwz_reuse.specs.Naming.{Names};
ghost use Rattle.dwz_move.specs.Known.{KnowsRefs, in_unit, tops_of_refs};
ghost use Rattle.dwz_move.specs.Marked.{Marks, MarksIf, expression_names};
ghost use Rattle.dwz_move_files.specs.Lists.{entries_of};
ghost use Rattle.dwz_unit.specs.Rows.{units_of};

use crate::into::tops_into;
use dwz_check_index::CrossIndex;
use dwz_expr::Operand;
use dwz_graph::{File, ListOperand};
use dwz_model::NoMemory;
use dwz_move::{Named, mark, mark_unit};
use dwz_unit::Units;
use std::alloc::Global;

// Marks what operands of expressions of all units of a file name. For each reference is given the top that it goes into, and for each
// entry where its references begin.
fn mark_units(
    units: &Units,
    into: &[Option<u32>],
    starts: &[u32],
    named: &mut Named,
    operands: &mut Vec<Operand>,
) -> Result<(), NoMemory>
    ensures { (around : Around ℕ) (refs : List ℕ) (name : ℕ → EntryName) (said : List (DwUnit ℕ))
        → KnowsRefs around (units_of units.now) name refs starts.now into.now → units_meaning around (units_of units.now) ≡ Ok said
        → OnOk result (MarksIf (λ t. list_any (in_unit (any_attr (expression_names t))) (map (unit_map name) said) ≡ true)
        named.old.by_any.items named.new.by_any.items) }
{
    for n in 0..units.len() {
        mark_unit(units, into, starts, n, named, operands)?;
    }
    Ok(())
}

// The numbers of the entries that operands name.
fn entries_of(alloc: Global, rows: &[ListOperand]) -> Result<Vec<u32>, NoMemory>
    ensures { IfOk result (λ entries. entries.items ≡ entries_of rows.now) }
{
    rows.iter().map(|row| row.entry).collect(alloc)
}

// Marks these tops.
fn mark_tops(marks: &mut Vec<bool>, tops: &[Option<u32>])
    ensures { Marks tops.now marks.old.items marks.new.items }
{
    for top in tops {
        mark(marks, true, *top);
    }
}

/// Marks the tops of a common file that operands of its expressions and of its location lists name, among so many tops: by its index, which
/// has the numbers of its tops. For each reference is given the top that it goes into.
pub(crate) fn named_tops(
    alloc: Global,
    common: &File,
    index: &CrossIndex,
    into: &[Option<u32>],
    count: usize,
) -> Result<Vec<bool>, NoMemory>
    requires steps { length index.now.steps ≡ entries_in (units_of common.now.units) }
    requires rows { AreEntries (units_of common.now.units) (entries_of common.now.resolved.operands.items) }
    ensures { (docs : List (Doc ℕ)) (doc : Doc ℕ) → IsCommonRead common.now doc
        → IsCrossIndex (from_top (own_tops (reused_of docs doc))) doc.units index.now
        → into.now ≡ tops_of_refs (common_name docs doc) (units_of common.now.units) common.now.resolved.refs.items
        → IfOk result (λ marks. MarksIf (Names (common_name docs doc) (units_of common.now.units) doc.units
        (entries_of common.now.resolved.operands.items)) (replicate count false) marks.items) }
{
    let resolved = &common.resolved;
    let rows = entries_of(alloc, resolved.operands.as_slice())?;
    let tops = tops_into(alloc, common, index, rows.as_slice())?;
    let mut named = Named {
        by_any: vec![in alloc; false; count]?,
        by_uleb: Vec::new(alloc),
    };
    let mut operands = Vec::new(alloc);
    mark_units(
        &common.units,
        into,
        resolved.starts.as_slice(),
        &mut named,
        &mut operands,
    )?;
    let mut marks = named.by_any;
    mark_tops(&mut marks, tops.as_slice());
    Ok(marks)
}
