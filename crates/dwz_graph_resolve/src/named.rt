//! What the values of entries name, or the first fault.

ghost use Rattle.std.specs.Prelude.{◌≡◌, ℕ, ◌+◌, ◌^◌, ◌<◌, ◌≤◌, List, [], IfOk, IsOk, Some, length, slice_get, slice_range};
ghost use Rattle.std.specs.List.{list_any};
ghost use Rattle.dwz_def_reading.specs.Faults.{info_fault};
ghost use Rattle.dwz_def_reading.specs.Units.{RawUnit, entries_in};
ghost use Rattle.dwz_def_reading.specs.Meanings;
ghost use Rattle.dwz_def_reading.specs.Meant.{as_class};
ghost use Rattle.dwz_def_reading.specs.NamedLists.{lists_as};
ghost use Rattle.dwz_def_reading.specs.Values.{value_at, written_rows};
ghost use Rattle.dwz_model.specs.declared.fault.ReadErr.TheVariants.{Refused};
ghost use Rattle.dwz_model.specs.declared.fault.Reason.TheVariants.{UnsupportedForm};
ghost use Rattle.dwz_def_reading.specs.Shared.{NamedList};
ghost use Rattle.dwz_graph_resolve.specs.FileRows.{IfLearns};
ghost use Rattle.dwz_graph_resolve.specs.Parts.{IsParted, numbers_as, numbers_file};
ghost use Rattle.dwz_graph_resolve.specs.Named.{attr_named, entry_named, found_in, map_ok, unit_named, units_named};
ghost use Rattle.dwz_graph_resolve.specs.Resolved.{Goes, IsHere, StateAt, StateIn, stored, value_between};
ghost use Rattle.dwz_graph_resolve.specs.Surroundings.{around_in, common_view, entries_among, scope_within};
ghost use Rattle.dwz_unit.specs.Rows.{EntryRow, rows_of, units_of};

use crate::expressions::add_expression;
use crate::files::check_constant;
use crate::here::{Here, here_of};
use crate::kinds::check_kind;
use crate::lists::{add_indexed, add_offset};
use crate::parts::Parts;
use crate::quick::add_quick;
use crate::references::{add_common, add_entry};
use crate::sections::offset_of;
use crate::state::State;
use crate::strings::{check_text, has_common_text, has_slot_text};
use crate::surroundings::Surroundings;
use dwz_bytes::Cursor;
use dwz_codes::{Class, DW_AT_SIBLING, class_of};
use dwz_forms::Raw;
use dwz_model::{DEBUG_INFO, Fault, Pair, ReadErr, Reason};
use dwz_unit::{Stops, Units, known_value, pass_bytes};

// No such form is read.
fn unread_form(at: u64, form: u64) -> ReadErr
    ensures { result ≡ Refused (info_fault at (UnsupportedForm form)) }
{
    ReadErr::Refused(Fault {
        section: DEBUG_INFO,
        at,
        reason: Reason::UnsupportedForm { form },
    })
}

// Adds what a value of that class names.
#[inline(always)]
fn add_as<'a>(
    class: Class,
    units: &Units,
    around: &Surroundings<'a, '_>,
    here: &Here,
    at: u64,
    end: u64,
    pair: &Pair,
    raw: &Raw,
    state: &mut State<'a>,
) -> Result<(), ReadErr>
    requires here { here.now.end ≤ entries_in (units_of units.now) }
    requires room { entries_among (common_view around.now.common) (units_of units.now) < 2 ^ 32 }
    ensures file { state.new.file ≡ state.old.file }
    ensures learns { IfLearns (numbers_as class pair.now.name) here.now.line state.old.files state.new.files result }
    ensures goes { (u : RawUnit) (before : List NamedList) → IsHere (units_of units.now) u here.now
        → StateIn around.now (units_of units.now) u here.now before state.old
        → Goes (common_view around.now.common) (units_of units.now) (StateIn around.now (units_of units.now) u here.now) before state.old state.new result
        (map_ok (found_in (lists_as class (scope_within around.now (units_of units.now) u) (stored at end pair.now raw.now)))
        (as_class class (scope_within around.now (units_of units.now) u) (stored at end pair.now raw.now))) }
{
    let offset = offset_of(raw);
    match class {
        Class::Address => Ok(()),
        Class::Block => Ok(()),
        Class::Constant => check_constant(
            &around.sections,
            here,
            at,
            pair.name,
            raw,
            &mut state.files,
        ),
        Class::Flag => Ok(()),
        Class::Text => Ok(()),
        Class::TextInStr => check_text(around.sections.strs.has(offset), at),
        Class::TextInLineStr => check_text(around.sections.line_strs.has(offset), at),
        Class::TextBySlot => check_text(has_slot_text(&around.sections, here.offsets, offset), at),
        Class::UnitEntry => add_entry(
            units,
            here.first,
            here.end,
            at,
            here.at as u128 + offset,
            &mut state.refs,
            &mut state.hints,
        ),
        Class::InfoEntry => add_entry(
            units,
            0,
            units.entries(),
            at,
            offset,
            &mut state.refs,
            &mut state.hints,
        ),
        Class::Signature => Ok(()),
        Class::Offset => add_offset(units, around, here, at, pair.name, offset, state),
        Class::Expression => add_expression(units, around, here, end, raw, state),
        Class::ListIndex => add_indexed(units, around, here, at, offset, state),
        Class::Index => Ok(()),
        Class::CommonEntry => add_common(
            units,
            around.common,
            at,
            offset,
            &mut state.refs,
            &mut state.hints,
        ),
        Class::CommonText => check_text(has_common_text(around.common, offset), at),
        Class::Unread => Err(unread_form(at, pair.form)),
    }
}

// Adds what an attribute names.
#[inline(always)]
fn add_attr<'a>(
    units: &Units,
    around: &Surroundings<'a, '_>,
    here: &Here,
    at: u64,
    end: u64,
    pair: &Pair,
    raw: &Raw,
    state: &mut State<'a>,
) -> Result<(), ReadErr>
    requires here { here.now.end ≤ entries_in (units_of units.now) }
    requires room { entries_among (common_view around.now.common) (units_of units.now) < 2 ^ 32 }
    ensures file { state.new.file ≡ state.old.file }
    ensures learns { IfLearns (numbers_file (stored at end pair.now raw.now)) here.now.line state.old.files state.new.files result }
    ensures goes { (u : RawUnit) (before : List NamedList) → IsHere (units_of units.now) u here.now
        → StateIn around.now (units_of units.now) u here.now before state.old
        → Goes (common_view around.now.common) (units_of units.now) (StateIn around.now (units_of units.now) u here.now) before state.old state.new result
        (attr_named (scope_within around.now (units_of units.now) u) (stored at end pair.now raw.now)) }
{
    if pair.name == DW_AT_SIBLING {
        return Ok(());
    }
    add_as(
        class_of(pair.form),
        units,
        around,
        here,
        at,
        end,
        pair,
        raw,
        state,
    )
}

// Adds what the value at the cursor names, which was read before, and leaves the cursor behind it.
#[inline(always)]
fn add_value<'a>(
    units: &Units,
    around: &Surroundings<'a, '_>,
    here: &Here,
    pair: &Pair,
    cursor: &mut Cursor,
    state: &mut State<'a>,
) -> Result<(), ReadErr>
    requires here { here.now.end ≤ entries_in (units_of units.now) }
    requires room { entries_among (common_view around.now.common) (units_of units.now) < 2 ^ 32 }
    requires read { IsOk (value_at written_rows pair.now cursor.old) }
    ensures file { state.new.file ≡ state.old.file }
    ensures read { IfOk (value_at written_rows pair.now cursor.old) (λ x. IfOk result (λ y. cursor.new ≡ x.1)) }
    ensures learns { IfOk (value_at written_rows pair.now cursor.old) (λ x.
        IfLearns (numbers_file (value_between cursor.old x.1 pair.now x.0)) here.now.line state.old.files state.new.files result) }
    ensures goes { IfOk (value_at written_rows pair.now cursor.old) (λ x. (u : RawUnit) (before : List NamedList) → IsHere (units_of units.now) u here.now
        → StateIn around.now (units_of units.now) u here.now before state.old
        → Goes (common_view around.now.common) (units_of units.now) (StateIn around.now (units_of units.now) u here.now) before state.old state.new result
        (attr_named (scope_within around.now (units_of units.now) u) (value_between cursor.old x.1 pair.now x.0))) }
{
    let at = cursor.at() as u64;
    let raw = known_value(cursor, pair);
    let end = cursor.at() as u64;
    add_attr(units, around, here, at, end, pair, &raw, state)
}

// The same, kept out of the way of values that are told at once.
#[inline(never)]
fn add_rare<'a>(
    units: &Units,
    around: &Surroundings<'a, '_>,
    here: &Here,
    pair: &Pair,
    cursor: &mut Cursor,
    state: &mut State<'a>,
) -> Result<(), ReadErr>
    requires here { here.now.end ≤ entries_in (units_of units.now) }
    requires room { entries_among (common_view around.now.common) (units_of units.now) < 2 ^ 32 }
    requires read { IsOk (value_at written_rows pair.now cursor.old) }
    ensures file { state.new.file ≡ state.old.file }
    ensures read { IfOk (value_at written_rows pair.now cursor.old) (λ x. IfOk result (λ y. cursor.new ≡ x.1)) }
    ensures learns { IfOk (value_at written_rows pair.now cursor.old) (λ x.
        IfLearns (numbers_file (value_between cursor.old x.1 pair.now x.0)) here.now.line state.old.files state.new.files result) }
    ensures goes { IfOk (value_at written_rows pair.now cursor.old) (λ x. (u : RawUnit) (before : List NamedList) → IsHere (units_of units.now) u here.now
        → StateIn around.now (units_of units.now) u here.now before state.old
        → Goes (common_view around.now.common) (units_of units.now) (StateIn around.now (units_of units.now) u here.now) before state.old state.new result
        (attr_named (scope_within around.now (units_of units.now) u) (value_between cursor.old x.1 pair.now x.0))) }
{
    add_value(units, around, here, pair, cursor, state)
}

// Adds what an entry names.
fn add_values<'a>(
    units: &Units,
    around: &Surroundings<'a, '_>,
    here: &Here,
    i: u32,
    state: &mut State<'a>,
) -> Result<(), ReadErr>
    requires row { i < entries_in (units_of units.now) }
    requires here { here.now.end ≤ entries_in (units_of units.now) }
    requires room { entries_among (common_view around.now.common) (units_of units.now) < 2 ^ 32 }
    ensures file { state.new.file ≡ state.old.file }
    ensures learns { (row : EntryRow) → slice_get (rows_of (units_of units.now)) i ≡ Some row
        → IfLearns (list_any numbers_file row.entry.attrs) here.now.line state.old.files state.new.files result }
    ensures goes { (u : RawUnit) (row : EntryRow) (before : List NamedList) → IsHere (units_of units.now) u here.now
        → slice_get (rows_of (units_of units.now)) i ≡ Some row → StateIn around.now (units_of units.now) u here.now before state.old
        → Goes (common_view around.now.common) (units_of units.now) (StateIn around.now (units_of units.now) u here.now) before state.old state.new result
        (entry_named (scope_within around.now (units_of units.now) u) row.entry) }
{
    state.hints.keep(units.entry(i).at as u128, i);
    let Stops {
        stops,
        pairs,
        mut cursor,
    } = units.stops(i);
    for stop in stops {
        pass_bytes(&mut cursor, stop.skip);
        let pair = &pairs[stop.number];
        if !add_quick(units, around, here, pair, &mut cursor, state) {
            let mut aside = Cursor::new(cursor.bytes(), cursor.at());
            add_rare(units, around, here, pair, &mut aside, state)?;
            cursor = aside;
        }
    }
    Ok(())
}

// Adds what the entries of a unit name.
fn add_unit<'a>(
    units: &Units,
    around: &Surroundings<'a, '_>,
    n: u32,
    state: &mut State<'a>,
    parts: &mut Parts,
) -> Result<(), ReadErr>
    requires unit { n < length (units_of units.now) }
    requires room { entries_among (common_view around.now.common) (units_of units.now) < 2 ^ 32 }
    ensures file { state.new.file ≡ state.old.file }
    ensures parts { (first : ℕ) (before : List NamedList) → first ≤ n → StateAt around.now (units_of units.now) n before state.old
        → IsParted around.now (units_of units.now) first n state.old parts.old
        → IfOk result (λ y. IsParted around.now (units_of units.now) first (n + 1) state.new parts.new) }
    ensures goes { (u : RawUnit) (before : List NamedList) → slice_get (units_of units.now) n ≡ Some u
        → StateAt around.now (units_of units.now) n before state.old
        → Goes (common_view around.now.common) (units_of units.now) (StateAt around.now (units_of units.now) (n + 1)) before state.old state.new result
        (unit_named (around_in around.now (units_of units.now)) u) }
{
    let unit = units.unit(n);
    let here = here_of(units, n, &unit);
    check_kind(units, around, &here, &unit)?;
    for i in here.first..here.end {
        add_values(units, around, &here, i, state)?;
        parts.end_entry(state.refs.as_slice().len())?;
    }
    parts.end_unit(&state.files, here.line)?;
    Ok(())
}

/// Adds what the entries of the units from one number to before another name; or fails with the first fault of what values mean.
pub(crate) fn add_units<'a>(
    units: &Units,
    around: &Surroundings<'a, '_>,
    first: u32,
    end: u32,
    state: &mut State<'a>,
    parts: &mut Parts,
) -> Result<(), ReadErr>
    requires units { (first ≤ end) × (end ≤ length (units_of units.now)) }
    requires room { entries_among (common_view around.now.common) (units_of units.now) < 2 ^ 32 }
    ensures file { state.new.file ≡ state.old.file }
    ensures parts { StateAt around.now (units_of units.now) first [] state.old
        → IsParted around.now (units_of units.now) first first state.old parts.old
        → IfOk result (λ y. IsParted around.now (units_of units.now) first end state.new parts.new) }
    ensures goes { StateAt around.now (units_of units.now) first [] state.old
        → Goes (common_view around.now.common) (units_of units.now) (StateAt around.now (units_of units.now) end) [] state.old state.new result
        (units_named (around_in around.now (units_of units.now)) (slice_range (units_of units.now) first end)) }
{
    for n in first..end {
        add_unit(units, around, n, state, parts)?;
    }
    Ok(())
}
