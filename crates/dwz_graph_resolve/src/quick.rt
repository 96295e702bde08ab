//! Values that are told at once to say what they may, by what is at hand: most are.
//!
//! Each call answers whether it was so. Then what the value names is added, and the cursor stands behind it; else nothing has changed, and
//! the value is looked at again by `add_rare`. No result is carried through memory from one value to the next.

ghost use Rattle.std.specs.Prelude.{◌≡◌, ℕ, ◌≤◌, true, false, List, IfOk, IsOk};
ghost use Rattle.dwz_def_reading.specs.Units.{RawUnit, entries_in};
ghost use Rattle.dwz_def_reading.specs.Meant.{as_class};
ghost use Rattle.dwz_def_reading.specs.NamedLists.{lists_as};
ghost use Rattle.dwz_def_reading.specs.Shared.{NamedList};
ghost use Rattle.dwz_def_reading.specs.Values.{value_at, written_rows};
ghost use Rattle.dwz_graph_resolve.specs.FileRows.{Learns};
ghost use Rattle.dwz_graph_resolve.specs.Named.{attr_named, found_in, map_ok};
ghost use Rattle.dwz_graph_resolve.specs.Parts.{numbers_as, numbers_file};
ghost use Rattle.dwz_graph_resolve.specs.Quick.{AddsNamed, IsUntouched};
ghost use Rattle.dwz_graph_resolve.specs.Resolved.{IsHere, StateIn, stored, value_between};
ghost use Rattle.dwz_graph_resolve.specs.Surroundings.{common_view, scope_within};
ghost use Rattle.dwz_unit.specs.Rows.{units_of};

use crate::expressions::is_plain_expression;
use crate::here::Here;
use crate::lists::is_read_list;
use crate::references::add_hinted;
use crate::sections::offset_of;
use crate::state::State;
use crate::surroundings::Surroundings;
use dwz_bytes::Cursor;
use dwz_codes::{
    Class, DW_AT_SIBLING, DW_FORM_DATA1, DW_FORM_EXPRLOC, DW_FORM_IMPLICIT_CONST,
    DW_FORM_LINE_STRP, DW_FORM_REF4, DW_FORM_SEC_OFFSET, DW_FORM_STRP, class_of, names_file,
    names_list,
};
use dwz_forms::Raw;
use dwz_model::Pair;
use dwz_unit::{Units, known_value};

// A value of that class.
#[inline(always)]
fn add_quick_as<'a>(
    class: Class,
    units: &Units,
    around: &Surroundings<'a, '_>,
    here: &Here,
    pair: &Pair,
    raw: &Raw,
    state: &mut State<'a>,
) -> bool
    requires { here.now.end ≤ entries_in (units_of units.now) }
    ensures file { state.new.file ≡ state.old.file }
    ensures same { result ≡ false → IsUntouched state.old state.new }
    ensures learns { result ≡ true → Learns (numbers_as class pair.now.name) here.now.line state.old.files state.new.files }
    ensures goes { result ≡ true → (at end : ℕ) (u : RawUnit) (before : List NamedList) → IsHere (units_of units.now) u here.now
        → StateIn around.now (units_of units.now) u here.now before state.old
        → AddsNamed (common_view around.now.common) (units_of units.now) (StateIn around.now (units_of units.now) u here.now) before state.old state.new
        (map_ok (found_in (lists_as class (scope_within around.now (units_of units.now) u) (stored at end pair.now raw.now)))
        (as_class class (scope_within around.now (units_of units.now) u) (stored at end pair.now raw.now))) }
{
    let offset = offset_of(raw);
    match class {
        Class::Constant => !names_file(pair.name) || state.files.has_at_once(here.line, raw),
        Class::TextInStr => around.sections.strs.has(offset),
        Class::TextInLineStr => around.sections.line_strs.has(offset),
        Class::UnitEntry => add_hinted(
            units,
            here.first,
            here.end,
            here.at as u128 + offset,
            &mut state.refs,
            &state.hints,
        ),
        Class::Offset => !names_list(pair.name) || is_read_list(around, here, offset, &state.lists),
        Class::Expression => is_plain_expression(raw),
        _ => false,
    }
}

// The value at the cursor, which was read before.
#[inline(always)]
fn add_quick_value<'a>(
    units: &Units,
    around: &Surroundings<'a, '_>,
    here: &Here,
    pair: &Pair,
    cursor: &mut Cursor,
    state: &mut State<'a>,
) -> bool
    requires here { here.now.end ≤ entries_in (units_of units.now) }
    requires read { IsOk (value_at written_rows pair.now cursor.old) }
    ensures file { state.new.file ≡ state.old.file }
    ensures same { result ≡ false → IsUntouched state.old state.new }
    ensures stays { result ≡ false → cursor.new ≡ cursor.old }
    ensures read { result ≡ true → IfOk (value_at written_rows pair.now cursor.old) (λ x. cursor.new ≡ x.1) }
    ensures learns { result ≡ true → IfOk (value_at written_rows pair.now cursor.old) (λ x.
        Learns (numbers_file (value_between cursor.old x.1 pair.now x.0)) here.now.line state.old.files state.new.files) }
    ensures goes { result ≡ true → IfOk (value_at written_rows pair.now cursor.old) (λ x. (u : RawUnit) (before : List NamedList)
        → IsHere (units_of units.now) u here.now → StateIn around.now (units_of units.now) u here.now before state.old
        → AddsNamed (common_view around.now.common) (units_of units.now) (StateIn around.now (units_of units.now) u here.now) before state.old state.new
        (attr_named (scope_within around.now (units_of units.now) u) (value_between cursor.old x.1 pair.now x.0))) }
{
    let mut ahead = Cursor::new(cursor.bytes(), cursor.at());
    let raw = known_value(&mut ahead, pair);
    if pair.name == DW_AT_SIBLING
        || add_quick_as(class_of(pair.form), units, around, here, pair, &raw, state)
    {
        *cursor = ahead;
        return true;
    }
    false
}

/// The value at the cursor, which was read before, if its form is one of those that most values have.
#[inline(always)]
pub(crate) fn add_quick<'a>(
    units: &Units,
    around: &Surroundings<'a, '_>,
    here: &Here,
    pair: &Pair,
    cursor: &mut Cursor,
    state: &mut State<'a>,
) -> bool
    requires here { here.now.end ≤ entries_in (units_of units.now) }
    requires read { IsOk (value_at written_rows pair.now cursor.old) }
    ensures file { state.new.file ≡ state.old.file }
    ensures same { result ≡ false → IsUntouched state.old state.new }
    ensures stays { result ≡ false → cursor.new ≡ cursor.old }
    ensures read { result ≡ true → IfOk (value_at written_rows pair.now cursor.old) (λ x. cursor.new ≡ x.1) }
    ensures learns { result ≡ true → IfOk (value_at written_rows pair.now cursor.old) (λ x.
        Learns (numbers_file (value_between cursor.old x.1 pair.now x.0)) here.now.line state.old.files state.new.files) }
    ensures goes { result ≡ true → IfOk (value_at written_rows pair.now cursor.old) (λ x. (u : RawUnit) (before : List NamedList)
        → IsHere (units_of units.now) u here.now → StateIn around.now (units_of units.now) u here.now before state.old
        → AddsNamed (common_view around.now.common) (units_of units.now) (StateIn around.now (units_of units.now) u here.now) before state.old state.new
        (attr_named (scope_within around.now (units_of units.now) u) (value_between cursor.old x.1 pair.now x.0))) }
{
    match pair.form {
        DW_FORM_REF4 => add_quick_value(units, around, here, pair, cursor, state),
        DW_FORM_STRP => add_quick_value(units, around, here, pair, cursor, state),
        DW_FORM_EXPRLOC => add_quick_value(units, around, here, pair, cursor, state),
        DW_FORM_SEC_OFFSET => add_quick_value(units, around, here, pair, cursor, state),
        DW_FORM_DATA1 => add_quick_value(units, around, here, pair, cursor, state),
        DW_FORM_IMPLICIT_CONST => add_quick_value(units, around, here, pair, cursor, state),
        DW_FORM_LINE_STRP => add_quick_value(units, around, here, pair, cursor, state),
        _ => false,
    }
}
