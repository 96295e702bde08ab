//! The units in which entries are written.

ghost use Rattle.std.specs.Prelude.{◌≡◌, ◌++◌, List, length, map, slice_index_or, OnOk};
ghost use Rattle.dwz_def_tops.specs.Spots.{EntryName};
ghost use Rattle.dwz_def_reading.specs.Units.{entries_in};
ghost use Rattle.dwz_graph.specs.Index.{IsIndex};
ghost use Rattle.dwz_layout_numbers.specs.Owned.{IsOwned};
ghost use Rattle.dwz_layout_numbers.specs.Owners.{AddsOwners, owner_at, owner_by};
ghost use Rattle.dwz_plan.specs.declared.plan.Home.TheVariants.{Stay};
ghost use Rattle.dwz_unit.specs.Rows.{rows_of, units_of};

use crate::numbers::UnitNumbers;
use dwz_graph::Index;
use dwz_model::{NoMemory, at_or};
use dwz_plan::{Home, Plan};
use dwz_unit::Units;

// Of the entries of a top: the partial unit of its home, or else the kept one. The plan is of as many tops as there are entries of tops.
#[inline(always)]
fn of_top(plan: &Plan, tops: &[u32], parts: &[u32], top: u32, kept: u32) -> u32
    requires { length plan.now.homes ≡ length tops.now }
    ensures { result ≡ owner_at parts.now kept (slice_index_or plan.now.homes top Stay) }
{
    if top as usize >= tops.len() {
        return kept;
    }
    match plan.home(top) {
        Home::Common(part) => at_or(parts, part as usize, kept),
        Home::Local(part) => at_or(parts, part as usize, kept),
        Home::Stay => kept,
    }
}

// Of entries of a top, or of such as are in none.
fn number_of(plan: &Plan, tops: &[u32], parts: &[u32], top: Option<u32>, kept: u32) -> u32
    requires { length plan.now.homes ≡ length tops.now }
    ensures { result ≡ owner_by plan.now parts.now kept top }
{
    match top {
        Some(top) => of_top(plan, tops, parts, top, kept),
        None => kept,
    }
}

// The unit in which entries are written that stand for themselves: those of a unit that are in one top, or in none.
#[derive(Clone, Copy)]
struct Owned {
    unit: u32,
    top: Option<u32>,
    number: u32,
}

// That of a unit of a file whose first unit has that number.
fn owned_of(
    plan: &Plan,
    tops: &[u32],
    numbers: &UnitNumbers,
    first: u32,
    unit: u32,
    top: Option<u32>,
) -> Owned
    requires { length plan.now.homes ≡ length tops.now }
    ensures unit { result.unit ≡ unit }
    ensures top { result.top ≡ top }
    ensures number { IsOwned plan.now numbers.now.parts.items numbers.now.olds.items first result }
{
    let kept = at_or(numbers.olds.as_slice(), first as usize + unit as usize, 0);
    let number = number_of(plan, tops, numbers.parts.as_slice(), top, kept);
    Owned { unit, top, number }
}

// The same where that of the entry before is known.
#[inline(always)]
fn owned_behind(
    before: Owned,
    plan: &Plan,
    tops: &[u32],
    numbers: &UnitNumbers,
    first: u32,
    unit: u32,
    top: Option<u32>,
) -> Owned
    requires plan { length plan.now.homes ≡ length tops.now }
    requires before { IsOwned plan.now numbers.now.parts.items numbers.now.olds.items first before }
    ensures unit { result.unit ≡ unit }
    ensures top { result.top ≡ top }
    ensures number { IsOwned plan.now numbers.now.parts.items numbers.now.olds.items first result }
{
    if before.unit == unit && before.top == top {
        return before;
    }
    owned_of(plan, tops, numbers, first, unit, top)
}

/// Adds the units in which the entries of a file are written, where they stand for themselves, in order. `tops` has for each top the
/// number of its entry.
pub fn put_owners(
    owners: &mut Vec<u32>,
    units: &Units,
    index: &Index,
    plan: &Plan,
    tops: &[u32],
    numbers: &UnitNumbers,
) -> Result<(), NoMemory>
    requires index { length index.now.steps ≡ entries_in (units_of units.now) }
    requires plan { length plan.now.homes ≡ length tops.now }
    ensures { (names : List EntryName) → IsIndex names index.now
        → OnOk result (AddsOwners plan.now numbers.now.parts.items numbers.now.olds.items index.now.starts.unit
        (rows_of (units_of units.now)) names owners.old.items owners.new.items) }
{
    let first = index.starts().unit;
    let mut owned = owned_of(plan, tops, numbers, first, 0, None);
    for entry in 0..units.entries() {
        let unit = units.entry(entry).unit;
        let top = index.top_of(entry);
        owned = owned_behind(owned, plan, tops, numbers, first, unit, top);
        owners.push(owned.number)?;
    }
    Ok(())
}

/// Adds the units in which the entries of a finished common file stand, in order: its own, which are the first of all that are written.
pub fn put_own_units(owners: &mut Vec<u32>, units: &Units) -> Result<(), NoMemory>
    ensures { OnOk result (owners.new.items ≡ owners.old.items ++ map (λ row. row.unit) (rows_of (units_of units.now))) }
{
    for entry in 0..units.entries() {
        owners.push(units.entry(entry).unit)?;
    }
    Ok(())
}
