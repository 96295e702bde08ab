//! Operands of expressions in `.debug_info` (DWARF 5, 7.7.1).

ghost use Rattle.std.specs.Prelude.{◌≡◌, ℕ, ◌+◌, ◌<◌, ◌≤◌, ◌++◌, List, Ok, Some, drop, length, map, slice_get, IfOk};
ghost use Rattle.dwz_def_reading.specs.Units.{RawUnit, entries_in};
ghost use Rattle.dwz_graph.specs.Rows.{RowsMean, node_refs, nodes_refs};
ghost use Rattle.dwz_def_reading.specs.Documents.{DwUnit, Node};
ghost use Rattle.dwz_def_reading.specs.Meanings.{Around, MeaningContext, Sources, alone, scope_of};
ghost use Rattle.dwz_def_reading.specs.Meant.{node_meaning, unit_meaning, units_meaning};
ghost use Rattle.dwz_encode_operands.specs.Narrow.{FirstPlace, number_by};
ghost use Rattle.dwz_encode_operands.specs.Walked.{KeepsPlaces, NotesOperands, row_operands, rows_operands};
ghost use Rattle.dwz_def_output.specs.Refusals.{operands_of_unit, operands_of_units};
ghost use Rattle.dwz_graph.specs.Named.{unit_refs, units_refs};
ghost use Rattle.dwz_unit.specs.Rows.{EntryRow, rows_of, units_of};

use crate::values::{behind, note_value};
use dwz_codes::DW_AT_SIBLING;
use dwz_expr::Operand;
use dwz_graph::here_of;
use dwz_model::NoMemory;
use dwz_unit::{Units, Values, known_value};
use std::alloc::Global;

// Notes the operands of an entry.
fn note_entry<'a>(
    units: &Units,
    first: &mut Option<u64>,
    targets: &'a [u64],
    unit: u64,
    i: u32,
    operands: &mut Vec<Operand>,
) -> Result<&'a [u64], NoMemory>
    requires { i < entries_in (units_of units.now) }
    ensures { (s : MeaningContext ℕ) (row : EntryRow) (d : Node ℕ) (after : ℕ → ℕ) (more : List ℕ) → KeepsPlaces s
        → slice_get (rows_of (units_of units.now)) i ≡ Some row → node_meaning s row.entry ≡ Ok d
        → unit ≡ after s.unit → targets.now ≡ map after (node_refs d) ++ more
        → IfOk result (λ left. NotesOperands after s.unit (row_operands s row) first.old first.new more left.now) }
{
    // Where forms tell how many entries it names, it has no operands of expressions.
    if let Some(count) = units.named_count(i) {
        return Ok(behind(targets, count));
    }
    let Values { pairs, mut cursor } = units.values(i);
    let mut left = targets;
    for pair in pairs {
        let raw = known_value(&mut cursor, pair);
        let end = cursor.at() as u64;
        if pair.name != DW_AT_SIBLING {
            left = note_value(first, left, unit, end, pair, &raw, operands)?;
        }
    }
    Ok(left)
}

// Notes those of the entries from one number to before another.
fn note_entries<'a>(
    units: &Units,
    first: &mut Option<u64>,
    targets: &'a [u64],
    unit: u64,
    from: u32,
    end: u32,
    operands: &mut Vec<Operand>,
) -> Result<&'a [u64], NoMemory>
    requires { end ≤ entries_in (units_of units.now) }
    ensures { (s : MeaningContext ℕ) (rows after_them : List EntryRow) (ds : List (Node ℕ)) (after : ℕ → ℕ) (more : List ℕ) → KeepsPlaces s
        → drop from (rows_of (units_of units.now)) ≡ rows ++ after_them → from + length rows ≡ end → RowsMean s rows ds
        → unit ≡ after s.unit → targets.now ≡ map after (nodes_refs ds) ++ more
        → IfOk result (λ left. NotesOperands after s.unit (rows_operands s rows) first.old first.new more left.now) }
{
    let mut left = targets;
    for i in from..end {
        left = note_entry(units, first, left, unit, i, operands)?;
    }
    Ok(left)
}

// Notes those of a unit that begins at a place after.
fn note_unit<'a>(
    units: &Units,
    first: &mut Option<u64>,
    targets: &'a [u64],
    place: u64,
    n: u32,
    operands: &mut Vec<Operand>,
) -> Result<&'a [u64], NoMemory>
    requires { n < length (units_of units.now) }
    ensures { (around : Around ℕ) (u : RawUnit) (v : DwUnit ℕ) (after : ℕ → ℕ) (more : List ℕ) → KeepsPlaces (scope_of around u)
        → slice_get (units_of units.now) n ≡ Some u → unit_meaning around u ≡ Ok v
        → place ≡ after u.at → targets.now ≡ map after (unit_refs v) ++ more
        → IfOk result (λ left. NotesOperands after u.at (operands_of_unit around u) first.old first.new more left.now) }
{
    let unit = units.unit(n);
    let here = here_of(units, n, &unit);
    note_entries(units, first, targets, place, here.first, here.end, operands)
}

/// The place of the first operand of expressions, in bytes from the first of `.debug_info`, whose new number needs more bytes than the
/// operand has. For each unit is given where it begins after, and for each reference, in order, where what it names stands after. None
/// where each number fits. One walk over all entries, and the values of those that have expressions.
pub fn first_spoken(
    alloc: Global,
    units: &Units,
    targets: &[u64],
    places: &[u64],
) -> Result<Option<u64>, NoMemory>
    requires { length places.now ≡ length (units_of units.now) }
    ensures { (sources : Sources) (said : List (DwUnit ℕ)) (after : ℕ → ℕ)
        → units_meaning (alone sources (units_of units.now)) (units_of units.now) ≡ Ok said
        → targets.now ≡ map after (units_refs said) → places.now ≡ map (λ u. after u.at) (units_of units.now)
        → IfOk result (FirstPlace (number_by after) (operands_of_units (alone sources (units_of units.now)) (units_of units.now))) }
{
    let mut operands = Vec::new(alloc);
    let mut first = None;
    let mut left = targets;
    for n in 0..units.len() {
        left = note_unit(
            units,
            &mut first,
            left,
            places[n as usize],
            n,
            &mut operands,
        )?;
    }
    Ok(first)
}
