//! Location lists that attributes name (DWARF 5, 2.6.2 and 7.29).
//!
//! Each entry of a list is read once for each unit of which attributes name it, or name an entry before it, and its operands are kept once.
//! What is behind the last operand of a list is read once for all units.

ghost use Rattle.std.specs.Prelude.{◌≡◌, ◌≤◌, ◌<◌, ◌^◌, List, [], ◌∷◌, ◌++◌, true, length, OnOk};
ghost use Rattle.dwz_def_reading.specs.Units.{RawUnit, entries_in};
ghost use Rattle.dwz_def_reading.specs.Faults.{info_fault};
ghost use Rattle.dwz_def_reading.specs.Shared.{NamedList};
ghost use Rattle.dwz_model.specs.declared.fault.ReadErr.TheVariants.{Refused};
ghost use Rattle.dwz_model.specs.declared.fault.Reason.TheVariants.{BadList};
ghost use Rattle.dwz_graph_resolve.specs.ListParts.{Marks, WasMarked};
ghost use Rattle.dwz_graph_resolve.specs.ListSteps.{AddsIndexed, AddsList, AddsOffset, IsSlotAt, NamesRows, Walks};
ghost use Rattle.dwz_graph_resolve.specs.Resolved.{IsHere, StateIn, place_at};
ghost use Rattle.dwz_graph_resolve.specs.Surroundings.{scope_within};
ghost use Rattle.dwz_unit.specs.Rows.{units_of};

use crate::expressions::{bad_operand, entry_of, is_no_memory};
use crate::here::Here;
use crate::list_parts::{Stop, fit, mark, read_up, row_at};
use crate::operands::ListOperand;
use crate::sections::slot;
use crate::state::State;
use crate::surroundings::Surroundings;
use dwz_codes::names_list;
use dwz_expr::Operand;
use dwz_model::{DEBUG_INFO, DEBUG_LOCLISTS, Fault, Place, ReadErr, Reason};
use dwz_unit::Units;
use std::alloc::AllocError;

/// A list that attributes of a unit name, up to where its entries were read before.
#[derive(Clone, Copy)]
pub(crate) struct ListRow {
    /// Where it begins, in bytes from the first of `.debug_loclists`.
    pub from: u64,
    /// The place behind what was read.
    pub end: u64,
    /// The number of its first operand among those of all lists, and the number behind that of its last.
    pub first: usize,
    pub last: usize,
    /// The number of the unit.
    pub unit: u32,
    /// Whether the list ends with it, and has no operands.
    pub plain: bool,
}

/// The lists that attributes name, as far as these were looked at.
#[derive(Drop)]
pub(crate) struct Lists {
    /// Those of one unit have no entry in common.
    pub rows: Vec<ListRow>,
    /// The operands of these, list by list and in order.
    pub operands: Vec<ListOperand>,
    /// The places of the slots through which lists are named.
    pub slots: Vec<u32>,
    /// For each place of the section, as far as there is room, the number of the row that was made as the entry there was read, counted
    /// from 1; and else 0.
    pub marks: Vec<u32>,
    /// The places of the entries that were read last, kept for the room that they have.
    pub places: Vec<u64>,
}

// An operand of a list that an attribute of a unit names, and its entry.
fn list_operand(units: &Units, file: u32, unit: u32, operand: &Operand, entry: u32) -> ListOperand
    requires { entry < entries_in (units_of units.now) }
    ensures same { operand.now.at < 2 ^ 32 → result.at ≡ operand.now.at }
    ensures width { result.width ≡ operand.now.width }
    ensures uleb { result.uleb ≡ operand.now.uleb }
    ensures base { result.base ≡ operand.now.base }
    ensures unit { result.unit ≡ unit }
    ensures entry { result.entry ≡ entry }
    ensures place { result.place.offset ≡ place_at (units_of units.now) entry }
    ensures file { result.place.file ≡ file }
{
    ListOperand {
        at: operand.at.min(u32::MAX as u64) as u32,
        width: operand.width,
        uleb: operand.uleb,
        unit,
        base: operand.base,
        entry,
        place: Place {
            file,
            offset: units.entry(entry).at,
        },
    }
}

// Adds the operands of a list, with the entries that they name. Refused at the first that names none.
fn name_operands(
    units: &Units,
    around: &Surroundings,
    here: &Here,
    file: u32,
    operands: &[Operand],
    out: &mut Vec<ListOperand>,
) -> Result<(), ReadErr>
    requires { here.now.end ≤ entries_in (units_of units.now) }
    ensures { (u : RawUnit) → IsHere (units_of units.now) u here.now
        → NamesRows (units_of units.now) file (scope_within around.now (units_of units.now) u) operands.now out.old.items out.new.items
        result }
{
    for operand in operands {
        match entry_of(units, &around.sections, here, operand) {
            Some(entry) => out.push(list_operand(units, file, here.number, operand, entry))?,
            None => return Err(bad_operand(DEBUG_LOCLISTS, operand.at)),
        }
    }
    Ok(())
}

// Keeps a row, and that it was made as the entries at these places were read.
fn keep(lists: &mut Lists, row: ListRow) -> Result<(), AllocError>
    ensures rows { OnOk result (lists.new.rows.items ≡ lists.old.rows.items ++ row ∷ []) }
    ensures operands { lists.new.operands ≡ lists.old.operands }
    ensures slots { lists.new.slots ≡ lists.old.slots }
    ensures marks { OnOk result (Marks lists.old.marks.items lists.old.places.items (length lists.new.rows.items)
        lists.new.marks.items) }
{
    lists.rows.push(row)?;
    let number = lists.rows.len();
    if number <= u32::MAX as usize {
        mark(&mut lists.marks, &lists.places, number as u32);
    }
    Ok(())
}

// Whether the list ends where reading stopped, and no operand was read.
fn is_plain(stop: Stop, operands: &[Operand]) -> bool
    ensures { result ≡ true → (stop.plain ≡ true) × (operands.now ≡ []) }
{
    stop.plain && operands.is_empty()
}

// Reads the list at a place, up to where its entries were read before, with the entries that its operands name.
fn walk(
    units: &Units,
    around: &Surroundings,
    here: &Here,
    place: u64,
    state: &mut State,
) -> Result<(), ReadErr>
    requires here { here.now.end ≤ entries_in (units_of units.now) }
    requires place { place < length around.now.sections.lists.now }
    ensures file { state.new.file ≡ state.old.file }
    ensures files { state.new.files ≡ state.old.files }
    ensures goes { (u : RawUnit) (before : List NamedList) → IsHere (units_of units.now) u here.now
        → StateIn around.now (units_of units.now) u here.now before state.old
        → Walks (units_of units.now) (scope_within around.now (units_of units.now) u) here.now.number place before state.old state.new
        result }
{
    state.operands.clear();
    state.lists.places.clear();
    fit(&mut state.lists.marks, around.sections.lists)?;
    let first = state.lists.operands.as_slice().len();
    let read = read_up(
        &mut state.operands,
        &mut state.lists.places,
        around.sections.lists,
        &state.lists.rows,
        &state.lists.marks,
        here.number,
        place,
    );
    if is_no_memory(&read) {
        return Err(ReadErr::NoMemory);
    }
    name_operands(
        units,
        around,
        here,
        state.file,
        &state.operands,
        &mut state.lists.operands,
    )?;
    let stop = read?;
    let last = state.lists.operands.as_slice().len();
    let row = ListRow {
        from: place,
        end: stop.end,
        first,
        last,
        unit: here.number,
        plain: is_plain(stop, &state.operands),
    };
    keep(&mut state.lists, row)?;
    Ok(())
}

// Whether an entry at a place was read for that unit.
fn was_read(lists: &Lists, place: u64, unit: u32) -> bool
    ensures { result ≡ true → WasMarked lists.now.rows.items lists.now.marks.items place unit }
{
    match row_at(&lists.rows, &lists.marks, place) {
        None => false,
        Some(row) => row.unit == unit,
    }
}

// The same, where no entry there was read for the unit before.
fn walk_once(
    units: &Units,
    around: &Surroundings,
    here: &Here,
    place: u64,
    state: &mut State,
) -> Result<(), ReadErr>
    requires here { here.now.end ≤ entries_in (units_of units.now) }
    requires place { place < length around.now.sections.lists.now }
    ensures file { state.new.file ≡ state.old.file }
    ensures files { state.new.files ≡ state.old.files }
    ensures goes { (u : RawUnit) (before : List NamedList) → IsHere (units_of units.now) u here.now
        → StateIn around.now (units_of units.now) u here.now before state.old
        → Walks (units_of units.now) (scope_within around.now (units_of units.now) u) here.now.number place before state.old state.new
        result }
{
    if was_read(&state.lists, place, here.number) {
        return Ok(());
    }
    walk(units, around, here, place, state)
}

fn bad_list(at: u64) -> ReadErr
    ensures { result ≡ Refused (info_fault at BadList) }
{
    ReadErr::Refused(Fault {
        section: DEBUG_INFO,
        at,
        reason: Reason::BadList,
    })
}

// Adds the list at a place that a value names.
#[inline(always)]
fn add_list(
    units: &Units,
    around: &Surroundings,
    here: &Here,
    at: u64,
    place: u128,
    state: &mut State,
) -> Result<(), ReadErr>
    requires { here.now.end ≤ entries_in (units_of units.now) }
    ensures file { state.new.file ≡ state.old.file }
    ensures files { state.new.files ≡ state.old.files }
    ensures goes { (u : RawUnit) (before : List NamedList) → IsHere (units_of units.now) u here.now
        → StateIn around.now (units_of units.now) u here.now before state.old
        → AddsList (units_of units.now) (scope_within around.now (units_of units.now) u) here.now.number at place before state.old state.new
        result }
{
    if place >= around.sections.lists.len() as u128 {
        return Err(bad_list(at));
    }
    walk_once(units, around, here, place as u64, state)
}

/// Adds the list that an offset names, if it is one's.
#[inline(never)]
pub(crate) fn add_offset(
    units: &Units,
    around: &Surroundings,
    here: &Here,
    at: u64,
    name: u16,
    offset: u128,
    state: &mut State,
) -> Result<(), ReadErr>
    requires { here.now.end ≤ entries_in (units_of units.now) }
    ensures file { state.new.file ≡ state.old.file }
    ensures files { state.new.files ≡ state.old.files }
    ensures goes { (u : RawUnit) (before : List NamedList) → IsHere (units_of units.now) u here.now
        → StateIn around.now (units_of units.now) u here.now before state.old
        → AddsOffset (units_of units.now) (scope_within around.now (units_of units.now) u) here.now.number name at offset before state.old
        state.new result }
{
    if names_list(name) {
        add_list(units, around, here, at, offset, state)
    } else {
        Ok(())
    }
}

// A slot of the section, and where the list begins that it holds.
#[derive(Clone, Copy)]
struct ListSlot {
    at: u32,
    place: u128,
}

// The slot of an index.
fn slot_at(section: &[u8], base: u128, index: u128) -> Option<ListSlot>
    requires { length section.now < 2 ^ 32 }
    ensures { IsSlotAt section.now base index result }
{
    match slot(section, base, index) {
        None => None,
        Some(offset) => Some(ListSlot {
            at: (base + 4 * index) as u32,
            place: base + offset as u128,
        }),
    }
}

/// Adds the list that an index names.
#[inline(never)]
pub(crate) fn add_indexed(
    units: &Units,
    around: &Surroundings,
    here: &Here,
    at: u64,
    index: u128,
    state: &mut State,
) -> Result<(), ReadErr>
    requires { here.now.end ≤ entries_in (units_of units.now) }
    ensures file { state.new.file ≡ state.old.file }
    ensures files { state.new.files ≡ state.old.files }
    ensures goes { (u : RawUnit) (before : List NamedList) → IsHere (units_of units.now) u here.now
        → StateIn around.now (units_of units.now) u here.now before state.old
        → AddsIndexed (units_of units.now) (scope_within around.now (units_of units.now) u) here.now.number here.now.lists at index before
        state.old state.new result }
{
    let Some(base) = here.lists else {
        return Err(bad_list(at));
    };
    let Some(slot) = slot_at(around.sections.lists, base as u128, index) else {
        return Err(bad_list(at));
    };
    add_list(units, around, here, at, slot.place, state)?;
    state.lists.slots.push(slot.at)?;
    Ok(())
}

/// Whether the list at a place was read for the unit.
#[inline(always)]
pub(crate) fn is_read_list(around: &Surroundings, here: &Here, place: u128, lists: &Lists) -> bool
    ensures within { result ≡ true → place < length around.now.sections.lists.now }
    ensures marked { result ≡ true → WasMarked lists.now.rows.items lists.now.marks.items place here.now.number }
{
    place < around.sections.lists.len() as u128 && was_read(lists, place as u64, here.number)
}
