//! Which tops operands name.

ghost use Rattle.std.specs.Prelude.{◌≡◌, ℕ, ◌<◌, ◌++◌, ◌^◌, false, true, List, Ok, length, map, replicate, IfOk, OnOk};
ghost use Rattle.std.specs.List.{list_any};
ghost use Rattle.dwz_graph.specs.Across.{IsFileAmong, file_units, starts_at};
ghost use Rattle.dwz_def_tops.specs.Alike.{any_attr, is_in, names_in_unit};
ghost use Rattle.dwz_def_tops.specs.Spots.{EntryName, units_of};
ghost use Rattle.dwz_graph.specs.Files.{docs_of};
ghost use Rattle.dwz_graph.specs.Index.{Index};
ghost use Rattle.dwz_graph.specs.Indexed.{AreIndexes};
ghost use Rattle.dwz_def_reading.specs.Documents.{Doc, DwUnit, unit_map};
ghost use Rattle.dwz_def_reading.specs.Meanings.{Around};
ghost use Rattle.dwz_def_reading.specs.Meant.{units_meaning};
ghost use Rattle.dwz_def_plan.specs.Plan.{pinned_in};
ghost use Rattle.dwz_move.specs.Known.{KnowsRefs, in_unit};
ghost use Rattle.dwz_move.specs.Marked.{MarksIf, expression_names, expression_pins};
ghost use Rattle.dwz_unit.specs.Rows.{units_of as raw_units};
ghost use Rattle.dwz_move_files.specs.Named.{AreNamed};

use crate::lists::mark_lists;
use dwz_expr::Operand;
use dwz_graph::{File, Graph, Index};
use dwz_model::NoMemory;
use dwz_move::{Named, mark_unit, tops_of};
use dwz_unit::Units;
use std::alloc::Global;

// Appends so many flags that aren't set.
pub(crate) fn put_unset(flags: &mut Vec<bool>, count: usize) -> Result<(), NoMemory>
    ensures { OnOk result (flags.new.items ≡ flags.old.items ++ replicate count false) }
{
    for _ in 0..count {
        flags.push(false)?;
    }
    Ok(())
}

// A flag for each top of all files, which isn't set.
fn unset_flags(alloc: Global, indexes: &[Index]) -> Result<Vec<bool>, NoMemory>
    ensures { (docs : List (Doc ℕ)) → AreIndexes docs indexes.now
        → IfOk result (λ flags. flags.items ≡ replicate (starts_at docs indexes.now (length indexes.now)).top false) }
{
    let mut flags = Vec::new(alloc);
    for index in indexes {
        put_unset(&mut flags, index.tops().len())?;
    }
    Ok(flags)
}

// Marks what operands of expressions of all units of a file name. For each reference is given the top that it goes into, and for each
// entry where its references begin.
pub(crate) fn mark_units(
    units: &Units,
    into: &[Option<u32>],
    starts: &[u32],
    named: &mut Named,
    operands: &mut Vec<Operand>,
) -> Result<(), NoMemory>
    ensures any { (around : Around ℕ) (refs : List ℕ) (name : ℕ → EntryName) (said : List (DwUnit ℕ))
        → KnowsRefs around (raw_units units.now) name refs starts.now into.now → units_meaning around (raw_units units.now) ≡ Ok said
        → OnOk result (MarksIf (λ t. list_any (in_unit (any_attr (expression_names t))) (map (unit_map name) said) ≡ true)
        named.old.by_any.items named.new.by_any.items) }
    ensures uleb { (around : Around ℕ) (refs : List ℕ) (name : ℕ → EntryName) (said : List (DwUnit ℕ))
        → KnowsRefs around (raw_units units.now) name refs starts.now into.now → units_meaning around (raw_units units.now) ≡ Ok said
        → OnOk result (MarksIf (λ t. list_any (in_unit (any_attr (expression_pins t))) (map (unit_map name) said) ≡ true)
        named.old.by_uleb.items named.new.by_uleb.items) }
{
    for n in 0..units.len() {
        mark_unit(units, into, starts, n, named, operands)?;
    }
    Ok(())
}

// Marks the tops that operands of a file name, in expressions and in location lists.
fn mark_file(
    alloc: Global,
    file: &File,
    index: &Index,
    named: &mut Named,
    operands: &mut Vec<Operand>,
) -> Result<(), NoMemory>
    requires { length index.now.steps < 2 ^ 32 }
    ensures any { (contents : List (List ℕ)) (k : ℕ) (bytes : List ℕ) (is : IsFileAmong contents k bytes file.now index.now)
        → OnOk result (MarksIf (λ t. list_any (names_in_unit t) (file_units index.now.starts k is.kept.read.doc) ≡ true)
        named.old.by_any.items named.new.by_any.items) }
    ensures uleb { (contents : List (List ℕ)) (k : ℕ) (bytes : List ℕ) (is : IsFileAmong contents k bytes file.now index.now)
        → OnOk result (MarksIf (λ t. list_any (pinned_in (is_in t)) (file_units index.now.starts k is.kept.read.doc) ≡ true)
        named.old.by_uleb.items named.new.by_uleb.items) }
{
    let resolved = &file.resolved;
    let into = tops_of(alloc, index, resolved.refs.as_slice())?;
    mark_units(
        &file.units,
        into.as_slice(),
        resolved.starts.as_slice(),
        named,
        operands,
    )?;
    mark_lists(alloc, index, resolved.operands.as_slice(), named)
}

/// For each top of all files whether an operand of an expression or of a location list names an entry of it, and whether one that is a
/// ULEB128 number does. One pass over the values of all entries.
pub fn named_tops(alloc: Global, graph: &Graph) -> Result<Named, NoMemory>
    ensures { IfOk result (AreNamed (units_of (docs_of graph.now.given))) }
{
    let indexes = graph.indexes();
    let mut named = Named {
        by_any: unset_flags(alloc, indexes)?,
        by_uleb: unset_flags(alloc, indexes)?,
    };
    let mut operands = Vec::new(alloc);
    for (number, file) in graph.files().iter().enumerate() {
        mark_file(alloc, file, &indexes[number], &mut named, &mut operands)?;
    }
    Ok(named)
}
