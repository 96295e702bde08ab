//! What binds a top: what an entry of it holds that says where it stands, or leads out of its unit.

ghost use Rattle.std.specs.Prelude.{◌≡◌, ℕ, ◌<◌, ◌≤◌, List, Option, Ok, Some, drop, false, length, map, IfOk};
ghost use Rattle.std.specs.List.{list_any};
ghost use Rattle.dwz_def_tops.specs.Alike;
ghost use Rattle.dwz_def_tops.specs.Alike.{attr_binds, entry_binds};
ghost use Rattle.dwz_def_tops.specs.Spots.{EntryName, Top};
ghost use Rattle.dwz_def_reading.specs.Entries.{RawAttr};
ghost use Rattle.dwz_def_reading.specs.Units.{entries_in};
ghost use Rattle.dwz_graph.specs.Rows.{IsEntryMeant, node_refs};
ghost use Rattle.dwz_def_reading.specs.Documents.{Node, Value, attr_map, node_map};
ghost use Rattle.dwz_def_reading.specs.Classes;
ghost use Rattle.dwz_def_reading.specs.Meanings.{MeaningContext};
ghost use Rattle.dwz_def_reading.specs.Meant.{attr_with, meaning};
ghost use Rattle.dwz_graph.specs.Named.{value_refs};
ghost use Rattle.dwz_graph.specs.Resolved.{stored};
ghost use Rattle.dwz_move.specs.Bound;
ghost use Rattle.dwz_move.specs.Bound.{AreInto, HasTops};
ghost use Rattle.dwz_graph.specs.Names.{top_in};
ghost use Rattle.dwz_unit.specs.Rows.{EntryRow, units_of};

use crate::binds::EntryBinds;
use crate::values::read_expression;
use dwz_codes::{DW_AT_SIBLING, DW_TAG_IMPORTED_UNIT, class_of};
use dwz_expr::Operand;
use dwz_forms::{Raw, is_binding};
use dwz_model::{NoMemory, Pair, at_or};
use dwz_unit::{Units, Values, is_entry, is_expression, known_value};

/// The tops of a unit, by their numbers: from the first to before the end.
#[derive(Clone, Copy, Debug, PartialEq, Eq)]
pub struct TopRange {
    pub first: u32,
    pub end: u32,
}

// Whether a reference into that top, or into none, leaves the unit of these tops.
#[inline(always)]
fn leaves(own: &TopRange, into: Option<u32>) -> bool
    ensures { (tops : List Top) (unit : ℕ) (s : EntryName) → HasTops tops unit own.now → into ≡ top_in s
        → result ≡ Alike.leaves tops unit s }
{
    match into {
        None => true,
        Some(top) => top < own.first || top >= own.end,
    }
}

// Whether what a value says binds the top that it stands in, where it is no expression: its form tells. The tops that references go into
// are given from `next` on.
#[inline(always)]
fn form_binds(own: &TopRange, into: &[Option<u32>], next: usize, form: u64) -> bool
    ensures { (s : MeaningContext ℕ) (a : RawAttr) (v : Value ℕ) (tops : List Top) (unit : ℕ) (name : ℕ → EntryName) → HasTops tops unit own.now
        → meaning s a ≡ Ok v → a.pair.form ≡ form → Bound.is_expression (Classes.class_of form) ≡ false
        → AreInto name (drop next into.now) (value_refs v) → result ≡ attr_binds tops unit (attr_map name (attr_with a v)) }
{
    if is_binding(form) {
        return true;
    }
    if is_entry(class_of(form)) {
        return leaves(own, at_or(into, next, None));
    }
    false
}

// The same of any value.
#[inline(always)]
fn value_binds(
    own: &TopRange,
    into: &[Option<u32>],
    next: usize,
    end: u64,
    pair: &Pair,
    raw: &Raw,
    operands: &mut Vec<Operand>,
) -> Result<bool, NoMemory>
    ensures { (s : MeaningContext ℕ) (at : ℕ) (v : Value ℕ) (tops : List Top) (unit : ℕ) (name : ℕ → EntryName) → HasTops tops unit own.now
        → meaning s (stored at end pair.now raw.now) ≡ Ok v → AreInto name (drop next into.now) (value_refs v)
        → IfOk result (λ b. b ≡ attr_binds tops unit (attr_map name (attr_with (stored at end pair.now raw.now) v))) }
{
    if is_binding(pair.form) {
        return Ok(true);
    }
    if !is_expression(class_of(pair.form)) {
        return Ok(form_binds(own, into, next, pair.form));
    }
    let address = read_expression(raw, end, operands)?;
    Ok(address || !operands.is_empty())
}

// Whether one of the first so many references leaves the unit of these tops. The tops that they go into are given.
fn any_leaves(own: &TopRange, into: &[Option<u32>], count: usize) -> bool
    ensures { (tops : List Top) (unit : ℕ) (name : ℕ → EntryName) (places : List ℕ) → HasTops tops unit own.now → AreInto name into.now places
        → count ≡ length places → result ≡ list_any (Alike.leaves tops unit) (map name places) }
{
    for k in 0..count {
        if leaves(own, at_or(into, k, None)) {
            return true;
        }
    }
    false
}

/// Whether what an entry holds binds the top that it stands in, which is one of these of its unit. The tops that its references go
/// into are given in order.
pub(crate) fn entry_binds(
    units: &Units,
    binds: &EntryBinds,
    own: &TopRange,
    into: &[Option<u32>],
    i: u32,
    operands: &mut Vec<Operand>,
) -> Result<bool, NoMemory>
    requires within { i < entries_in (units_of units.now) }
    requires same { binds.now ≡ units.now }
    ensures { (s : MeaningContext ℕ) (numbers : List ℕ) (row : EntryRow) (d : Node ℕ) (tops : List Top) (unit : ℕ) (name : ℕ → EntryName)
        → HasTops tops unit own.now → IsEntryMeant (units_of units.now) s i numbers row d → AreInto name into.now (node_refs d)
        → IfOk result (λ b. b ≡ entry_binds tops unit (node_map name d)) }
{
    if units.entry(i).tag == DW_TAG_IMPORTED_UNIT {
        return Ok(true);
    }
    // Where forms tell how many entries it names, it has no expression.
    if let Some(count) = units.named_count(i) {
        return Ok(binds.by_form(i) || any_leaves(own, into, count));
    }
    let Values { pairs, mut cursor } = units.values(i);
    let mut next = 0;
    for pair in pairs {
        let raw = known_value(&mut cursor, pair);
        let end = cursor.at() as u64;
        if pair.name == DW_AT_SIBLING {
            continue;
        }
        if value_binds(own, into, next, end, pair, &raw, operands)? {
            return Ok(true);
        }
        next += count_of(pair.form);
    }
    Ok(false)
}

// How many entries a value of that form names, if it doesn't bind.
#[inline(always)]
fn count_of(form: u64) -> usize
    ensures few { result ≤ 1 }
    ensures count { result ≡ Bound.count_of (Classes.class_of form) }
{
    if is_entry(class_of(form)) { 1 } else { 0 }
}
