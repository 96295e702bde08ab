//! Expressions that values are (DWARF 5, 2.5), and the entries that their operands name.

ghost use Rattle.std.specs.Prelude.{◌≡◌, ◌-◌, ◌<◌, ◌≤◌, true, List, length, IfSome};
ghost use Rattle.dwz_def_reading.specs.Units.{RawUnit, entries_in};
ghost use Rattle.dwz_forms.specs.RawValues.{raw_view};
ghost use Rattle.dwz_def_reading.specs.Meanings;
ghost use Rattle.dwz_def_reading.specs.Shared.{NamedList};
ghost use Rattle.dwz_expr.specs.Few.{NamesNone};
ghost use Rattle.dwz_model.specs.declared.fault.ReadErr.TheVariants.{Refused};
ghost use Rattle.dwz_model.specs.declared.fault.Reason.TheVariants.{BadOperand};
ghost use Rattle.dwz_graph_resolve.specs.Operands.{LooksUp, NamesAll, expr_named, lacks_memory};
ghost use Rattle.dwz_graph_resolve.specs.Resolved.{Goes, IsHere, StateIn, scope_in};
ghost use Rattle.dwz_graph_resolve.specs.Surroundings.{common_view, scope_within};
ghost use Rattle.dwz_unit.specs.Rows.{units_of};

use crate::find::find;
use crate::here::Here;
use crate::sections::InputSections;
use crate::state::State;
use crate::surroundings::Surroundings;
use dwz_expr::{Operand, is_plain, read_into};
use dwz_forms::Raw;
use dwz_model::{Base, DEBUG_INFO, Fault, ReadErr, Reason};
use dwz_unit::Units;

/// An operand names no entry.
pub(crate) fn bad_operand(section: u8, at: u64) -> ReadErr
    ensures { result ≡ Refused (record { section = section; at = at; reason = BadOperand }) }
{
    ReadErr::Refused(Fault {
        section,
        at,
        reason: Reason::BadOperand,
    })
}

/// The number of the entry that an operand names: counted from the unit one of its own, else one of the file.
#[inline(always)]
pub fn entry_of(
    units: &Units,
    sections: &InputSections,
    here: &Here,
    operand: &Operand,
) -> Option<u32>
    requires { here.now.end ≤ entries_in (units_of units.now) }
    ensures within { IfSome result (λ i. i < entries_in (units_of units.now)) }
    ensures looks { (u : RawUnit) → IsHere (units_of units.now) u here.now
        → LooksUp (units_of units.now) (scope_in sections.now (units_of units.now) u) operand.now result }
{
    let _sections = sections;
    match operand.base {
        Base::Unit => find(
            units,
            here.first,
            here.end,
            here.at as u128 + operand.number as u128,
        ),
        Base::Info => find(units, 0, units.entries(), operand.number as u128),
    }
}

// Whether memory ran out.
#[inline(always)]
pub(crate) fn is_no_memory<T>(read: &Result<T, ReadErr>) -> bool
    ensures { result ≡ lacks_memory read.now }
{
    match read {
        Ok(_) => false,
        Err(error) => match error {
            ReadErr::NoMemory => true,
            ReadErr::Refused(_) => false,
        },
    }
}

/// Adds the entries that operands of a section's expressions name. Refused at the first that names none.
pub(crate) fn add_operands(
    units: &Units,
    around: &Surroundings,
    here: &Here,
    section: u8,
    operands: &[Operand],
    refs: &mut Vec<u32>,
) -> Result<(), ReadErr>
    requires { here.now.end ≤ entries_in (units_of units.now) }
    ensures { (u : RawUnit) → IsHere (units_of units.now) u here.now
        → NamesAll (units_of units.now) (scope_within around.now (units_of units.now) u) section operands.now refs.old.items refs.new.items
        result }
{
    for operand in operands {
        match entry_of(units, &around.sections, here, operand) {
            Some(number) => refs.push(number)?,
            None => return Err(bad_operand(section, operand.at)),
        }
    }
    Ok(())
}

// The bytes of a value.
#[inline(always)]
fn bytes_of<'a>(raw: &Raw<'a>) -> &'a [u8]
    ensures { result.now ≡ Meanings.bytes_of (raw_view raw.now) }
{
    match raw {
        Raw::Bytes(bytes) => bytes,
        Raw::Number(_) => &[],
    }
}

// Adds what the expression names that a value is, whichever it is.
#[inline(never)]
fn add_any(
    units: &Units,
    around: &Surroundings,
    here: &Here,
    end: u64,
    raw: &Raw,
    state: &mut State,
) -> Result<(), ReadErr>
    requires { here.now.end ≤ entries_in (units_of units.now) }
    ensures file { state.new.file ≡ state.old.file }
    ensures files { state.new.files ≡ state.old.files }
    ensures goes { (u : RawUnit) (before : List NamedList) → IsHere (units_of units.now) u here.now
        → StateIn around.now (units_of units.now) u here.now before state.old
        → Goes (common_view around.now.common) (units_of units.now) (StateIn around.now (units_of units.now) u here.now) before state.old state.new result
        (expr_named (scope_within around.now (units_of units.now) u)
        (record { at = end - length (Meanings.bytes_of (raw_view raw.now)); rest = Meanings.bytes_of (raw_view raw.now) })) }
{
    let bytes = bytes_of(raw);
    let at = end.saturating_sub(bytes.len() as u64);
    state.operands.clear();
    let read = read_into(&mut state.operands, bytes, at, DEBUG_INFO);
    if is_no_memory(&read) {
        return Err(ReadErr::NoMemory);
    }
    add_operands(
        units,
        around,
        here,
        DEBUG_INFO,
        &state.operands,
        &mut state.refs,
    )?;
    match read {
        Ok(_) => Ok(()),
        Err(error) => Err(error),
    }
}

/// Adds what the expression names that a value is. Refused at the first operator that isn't read, or whose operand names no entry.
#[inline(never)]
pub(crate) fn add_expression(
    units: &Units,
    around: &Surroundings,
    here: &Here,
    end: u64,
    raw: &Raw,
    state: &mut State,
) -> Result<(), ReadErr>
    requires { here.now.end ≤ entries_in (units_of units.now) }
    ensures file { state.new.file ≡ state.old.file }
    ensures files { state.new.files ≡ state.old.files }
    ensures goes { (u : RawUnit) (before : List NamedList) → IsHere (units_of units.now) u here.now
        → StateIn around.now (units_of units.now) u here.now before state.old
        → Goes (common_view around.now.common) (units_of units.now) (StateIn around.now (units_of units.now) u here.now) before state.old state.new result
        (expr_named (scope_within around.now (units_of units.now) u)
        (record { at = end - length (Meanings.bytes_of (raw_view raw.now)); rest = Meanings.bytes_of (raw_view raw.now) })) }
{
    if is_plain(bytes_of(raw)) {
        return Ok(());
    }
    add_any(units, around, here, end, raw, state)
}

/// Whether a value is an expression of plain operators, seen at once.
#[inline(always)]
pub(crate) fn is_plain_expression(raw: &Raw) -> bool
    ensures { result ≡ true → NamesNone (Meanings.bytes_of (raw_view raw.now)) }
{
    is_plain(bytes_of(raw))
}
