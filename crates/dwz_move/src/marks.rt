//! Which tops operands of expressions name.
//!
//! Marks are one pass over a file, and what is known of its tops another: an operand may name a top of any unit, also one that stands
//! before it.

ghost use Rattle.std.specs.Prelude.{◌≡◌, ◌↔◌, ◌⊎◌, ℕ, ◌<◌, ◌≤◌, ◌∷◌, [], List, Ok, Some, false, true, drop, length, map, slice_get, take};
ghost use Rattle.std.specs.Prelude.{IfOk, OnOk};
ghost use Rattle.std.specs.List.{list_any};
ghost use Rattle.dwz_def_tops.specs.Alike.{any_attr};
ghost use Rattle.dwz_def_tops.specs.Spots.{EntryName};
ghost use Rattle.dwz_def_reading.specs.Units.{entries_in};
ghost use Rattle.dwz_graph.specs.Rows.{AreRowsMeant, IsEntryMeant, node_refs};
ghost use Rattle.dwz_def_reading.specs.Documents.{Node, Value, attr_map, node_map};
ghost use Rattle.dwz_def_reading.specs.Meanings.{MeaningContext};
ghost use Rattle.dwz_def_reading.specs.Classes.{class_of};
ghost use Rattle.dwz_def_reading.specs.Meant.{attr_with, meaning};
ghost use Rattle.dwz_model.specs.declared.place.Pair.{Pair};
ghost use Rattle.dwz_graph.specs.Named.{value_refs};
ghost use Rattle.dwz_graph.specs.Resolved.{stored};
ghost use Rattle.dwz_move.specs.Bound.{AreInto, EachInto, is_expression};
ghost use Rattle.dwz_move.specs.Marked;
ghost use Rattle.dwz_move.specs.Marked.{Marks, MarksIf, asked_tops, expression_names, expression_pins, if_asked};
ghost use Rattle.dwz_unit.specs.Rows.{EntryRow, units_of};

use crate::tops::from_entry;
use crate::values::read_expression;
use dwz_codes::{DW_AT_SIBLING, class_of};
use dwz_expr::Operand;
use dwz_forms::Raw;
use dwz_model::{NoMemory, Pair, at_or};
use dwz_unit::{Units, Values, is_entry, is_expression, known_value};

/// For each top whether an operand names an entry of it; and whether one that is a ULEB128 number does.
#[derive(Drop)]
pub struct Named {
    pub by_any: Vec<bool>,
    pub by_uleb: Vec<bool>,
}

/// Marks the top with that number, if there is one and it is asked for.
#[inline(always)]
pub fn mark(marks: &mut Vec<bool>, asked: bool, top: Option<u32>)
    ensures { Marks (if_asked asked top) marks.old.items marks.new.items }
{
    if !asked {
        return;
    }
    let Some(top) = top else {
        return;
    };
    if (top as usize) < marks.len() {
        marks[top as usize] = true;
    }
}

#[inline(always)]
fn is_asked(ulebs: bool, operand: &Operand) -> bool
    ensures { result ≡ Marked.is_asked ulebs operand.now }
{
    operand.uleb || !ulebs
}

// Marks the tops that operands of an expression name, all or those that are ULEB128 numbers. The tops of the expression's references
// stand first.
fn mark_operands(marks: &mut Vec<bool>, ulebs: bool, into: &[Option<u32>], operands: &[Operand])
    ensures { Marks (asked_tops ulebs operands.now into.now) marks.old.items marks.new.items }
{
    for (k, operand) in operands.iter().enumerate() {
        mark(marks, is_asked(ulebs, operand), at_or(into, k, None));
    }
}

// What stands behind the first so many.
#[inline(always)]
fn behind(into: &[Option<u32>], count: usize) -> &[Option<u32>]
    ensures { result.now ≡ drop count into.now }
{
    match into.get(count..) {
        Some(rest) => rest,
        None => &[],
    }
}

// The pairs up to the last one whose value is an expression. The values of those behind it aren't read.
#[inline(always)]
fn up_to_expressions(pairs: &[Pair]) -> &[Pair]
    ensures front { result.now ≡ take (length result.now) pairs.now }
    ensures behind { (k : ℕ) (p : Pair) → length result.now ≤ k → slice_get pairs.now k ≡ Some p → is_expression (class_of p.form) ≡ false }
{
    let mut count = 0;
    for (k, pair) in pairs.iter().enumerate() {
        if is_expression(class_of(pair.form)) {
            count = k + 1;
        }
    }
    &pairs[..count]
}

// Marks the tops that the operands of an entry's expressions name. The tops of the entry's references stand first.
pub(crate) fn mark_entry(
    units: &Units,
    into: &[Option<u32>],
    i: u32,
    named: &mut Named,
    operands: &mut Vec<Operand>,
) -> Result<(), NoMemory>
    requires { i < entries_in (units_of units.now) }
    ensures any { (s : MeaningContext ℕ) (numbers : List ℕ) (row : EntryRow) (d : Node ℕ) (name : ℕ → EntryName)
        → IsEntryMeant (units_of units.now) s i numbers row d → AreInto name into.now (node_refs d)
        → OnOk result (MarksIf (λ n. any_attr (expression_names n) (node_map name d) ≡ true) named.old.by_any.items
        named.new.by_any.items) }
    ensures uleb { (s : MeaningContext ℕ) (numbers : List ℕ) (row : EntryRow) (d : Node ℕ) (name : ℕ → EntryName)
        → IsEntryMeant (units_of units.now) s i numbers row d → AreInto name into.now (node_refs d)
        → OnOk result (MarksIf (λ n. any_attr (expression_pins n) (node_map name d) ≡ true) named.old.by_uleb.items
        named.new.by_uleb.items) }
{
    let Values { pairs, mut cursor } = units.values(i);
    let mut rest = into;
    for pair in up_to_expressions(pairs) {
        let raw = known_value(&mut cursor, pair);
        let end = cursor.at() as u64;
        if pair.name != DW_AT_SIBLING {
            rest = mark_value(named, rest, end, pair, &raw, operands)?;
        }
    }
    Ok(())
}

// Marks the tops that the operands of a value name, if it is an expression. Answers the tops that are left, those of the references of
// what stands behind it.
#[inline(always)]
fn mark_value<'a>(
    named: &mut Named,
    into: &'a [Option<u32>],
    end: u64,
    pair: &Pair,
    raw: &Raw,
    operands: &mut Vec<Operand>,
) -> Result<&'a [Option<u32>], NoMemory>
    ensures any { (s : MeaningContext ℕ) (at : ℕ) (v : Value ℕ) (name : ℕ → EntryName) → meaning s (stored at end pair.now raw.now) ≡ Ok v
        → AreInto name into.now (value_refs v) → OnOk result
        (MarksIf (λ n. expression_names n (attr_map name (attr_with (stored at end pair.now raw.now) v)) ≡ true) named.old.by_any.items
        named.new.by_any.items) }
    ensures uleb { (s : MeaningContext ℕ) (at : ℕ) (v : Value ℕ) (name : ℕ → EntryName) → meaning s (stored at end pair.now raw.now) ≡ Ok v
        → AreInto name into.now (value_refs v) → OnOk result
        (MarksIf (λ n. expression_pins n (attr_map name (attr_with (stored at end pair.now raw.now) v)) ≡ true) named.old.by_uleb.items
        named.new.by_uleb.items) }
    ensures rest { (s : MeaningContext ℕ) (at : ℕ) (v : Value ℕ) → meaning s (stored at end pair.now raw.now) ≡ Ok v
        → IfOk result (λ rest. rest.now ≡ drop (length (value_refs v)) into.now) }
{
    let class = class_of(pair.form);
    if is_entry(class) {
        return Ok(behind(into, 1));
    }
    if !is_expression(class) {
        return Ok(into);
    }
    read_expression(raw, end, operands)?;
    mark_operands(&mut named.by_any, false, into, operands);
    mark_operands(&mut named.by_uleb, true, into, operands);
    Ok(behind(into, operands.len()))
}

// Marks the tops that the operands of expressions name, in the entries from one number to before another. For each reference of the file
// is given the top that it goes into, and for each entry where its references begin.
pub(crate) fn mark_entries(
    units: &Units,
    into: &[Option<u32>],
    starts: &[u32],
    first: u32,
    end: u32,
    named: &mut Named,
    operands: &mut Vec<Operand>,
) -> Result<(), NoMemory>
    requires { end ≤ entries_in (units_of units.now) }
    ensures any { (s : MeaningContext ℕ) (numbers : List ℕ) (rows after : List EntryRow) (ds : List (Node ℕ)) (name : ℕ → EntryName)
        → AreRowsMeant (units_of units.now) s first end numbers rows after ds → EachInto name into.now starts.now first ds
        → OnOk result (MarksIf (λ n. list_any (any_attr (expression_names n)) (map (node_map name) ds) ≡ true) named.old.by_any.items
        named.new.by_any.items) }
    ensures uleb { (s : MeaningContext ℕ) (numbers : List ℕ) (rows after : List EntryRow) (ds : List (Node ℕ)) (name : ℕ → EntryName)
        → AreRowsMeant (units_of units.now) s first end numbers rows after ds → EachInto name into.now starts.now first ds
        → OnOk result (MarksIf (λ n. list_any (any_attr (expression_pins n)) (map (node_map name) ds) ≡ true) named.old.by_uleb.items
        named.new.by_uleb.items) }
{
    for i in first..end {
        // Where forms tell how many entries it names, it has no expression.
        if units.named_count(i).is_some() {
            continue;
        }
        mark_entry(
            units,
            from_entry(into, starts, i as usize),
            i,
            named,
            operands,
        )?;
    }
    Ok(())
}
