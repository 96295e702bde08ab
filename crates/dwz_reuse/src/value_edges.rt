//! Values, and the units that they refer into.

ghost use Rattle.std.specs.Prelude.{◌≡◌, ℕ, List, Ok, Some, IfOk, OnOk, drop, length, true};
ghost use Rattle.dwz_def_reading.specs.Documents.{Value, attr_map};
ghost use Rattle.dwz_def_reading.specs.Lists.{In};
ghost use Rattle.dwz_def_reading.specs.Meanings.{MeaningContext};
ghost use Rattle.dwz_def_reading.specs.Meant.{attr_with, meaning};
ghost use Rattle.dwz_def_tops.specs.Spots.{EntryName};
ghost use Rattle.dwz_graph.specs.Named.{value_refs};
ghost use Rattle.dwz_graph.specs.Resolved.{stored};
ghost use Rattle.dwz_move.specs.Bound.{AreInto};
ghost use Rattle.dwz_reuse.specs.Puts.{PutsIf, goes_into};

use crate::expressions::count_operands;
use dwz_codes::class_of;
use dwz_expr::Operand;
use dwz_forms::Raw;
use dwz_groups::Edge;
use dwz_model::{NoMemory, Pair, at_or};
use dwz_unit::{is_entry, is_expression};

// What stands behind the first so many.
fn behind(into: &[Option<u32>], count: usize) -> &[Option<u32>]
    ensures { result.now ≡ drop count into.now }
{
    match into.get(count..) {
        Some(rest) => rest,
        None => &[],
    }
}

// Adds an edge to a unit, if there is one.
fn put_edge(edges: &mut Vec<Edge>, unit: u32, into: Option<u32>) -> Result<(), NoMemory>
    ensures { OnOk result (PutsIf unit (λ n. into ≡ Some n) edges.old.items edges.new.items) }
{
    if let Some(value) = into {
        edges.push(Edge { key: unit, value })?;
    }
    Ok(())
}

/// Adds an edge from a unit to that of the entry that a value names, where it is a reference. `into` begins with the units of the entries
/// that the value names; answers what is left, those of what stands behind it.
pub(crate) fn put_value<'a>(
    edges: &mut Vec<Edge>,
    unit: u32,
    into: &'a [Option<u32>],
    end: u64,
    pair: &Pair,
    raw: &Raw,
    operands: &mut Vec<Operand>,
) -> Result<&'a [Option<u32>], NoMemory>
    ensures puts { (s : MeaningContext ℕ) (at : ℕ) (v : Value ℕ) (name : ℕ → EntryName) → meaning s (stored at end pair.now raw.now) ≡ Ok v
        → AreInto name into.now (value_refs v) → OnOk result
        (PutsIf unit (λ n. goes_into n (attr_map name (attr_with (stored at end pair.now raw.now) v)) ≡ true) edges.old.items
        edges.new.items) }
    ensures rest { (s : MeaningContext ℕ) (at : ℕ) (v : Value ℕ) → meaning s (stored at end pair.now raw.now) ≡ Ok v
        → IfOk result (λ rest. rest.now ≡ drop (length (value_refs v)) into.now) }
{
    let class = class_of(pair.form);
    if is_entry(class) {
        put_edge(edges, unit, at_or(into, 0, None))?;
        return Ok(behind(into, 1));
    }
    if !is_expression(class) {
        return Ok(into);
    }
    let count = count_operands(raw, end, operands)?;
    Ok(behind(into, count))
}
