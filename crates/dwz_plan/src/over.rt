//! Tops of files over a finished common file (DWARF 5, 7.3.6): what is free of them, and where what is taken goes.
ghost use Rattle.std.specs.Prelude.{◌≡◌, ℕ, ◌+◌, ◌-◌, ◌<◌, ◌≤◌, ◌^◌, ◌++◌, All, length, map, take, IfOk, OnOk};
ghost use Rattle.std.specs.Prelude.{slice_index_or};
ghost use Rattle.std.specs.List.{range_with_len};
ghost use Rattle.dwz_def_taken.specs.Takes.{is_free};
ghost use Rattle.dwz_plan.specs.Gained.{group_of};
ghost use Rattle.dwz_plan.specs.Gaining.{AreNumbers};
ghost use Rattle.dwz_plan.specs.Over.{IsImageRow, count_own, free_row, free_rows, free_tops, own_count, own_units, place_behind, place_over};
ghost use Rattle.dwz_plan.specs.Over.{stand_over, standing_parts, takers_from, tops_in, unit_at};
ghost use Rattle.dwz_plan.specs.OverSteps.{standing_one};
ghost use Rattle.dwz_plan.specs.Rows.{with_targets};

use crate::plan::{Home, Partial};
use crate::users::push_turned;
use dwz_def_taken::Fixed;
use dwz_groups::{Edge, Groups, TopRow, Tops, group};
use dwz_model::{DwzList, NoMemory, Numbers};
use std::alloc::Global;

/// How many units the files have: those of the common file are the last ones.
pub(crate) fn own_units(tops: &Tops, fixed: &Fixed) -> usize
    requires { length fixed.now.roots ≤ length tops.now.files_of_units }
    ensures { result ≡ own_units tops.now fixed.now }
{
    tops.files_of_units.len() - fixed.roots.len()
}

/// The first ones, so many.
pub(crate) fn first<T>(items: &[T], count: usize) -> &[T]
    requires { count ≤ length items.now }
    ensures { result.now ≡ take count items.now }
{
    &items[..count]
}

// How many tops are of so many units: those before the first of another one.
fn count_own(rows: &[TopRow], units: usize) -> usize
    ensures { result ≡ count_own units rows.now }
{
    for (top, row) in rows.iter().enumerate() {
        if row.unit as usize >= units {
            return top;
        }
    }
    rows.len()
}

// Whether a top isn't taken, and needn't stay.
fn is_free(fixed: &Fixed, top: usize) -> bool
    requires images { top < length fixed.now.images }
    requires blocked { top < length fixed.now.blocked }
    ensures { result ≡ is_free fixed.now top }
{
    fixed.images.as_slice()[top].is_none() && !fixed.blocked.as_slice()[top]
}

// A row whose top may move only if it is free.
fn free_row(row: &TopRow, free: bool) -> TopRow
    ensures { result ≡ free_row free row.now }
{
    TopRow {
        movable: row.movable && free,
        ..*row
    }
}

// Rows of which only free tops may move.
fn free_rows(alloc: Global, rows: &[TopRow], fixed: &Fixed) -> Result<Vec<TopRow>, NoMemory>
    requires images { length rows.now ≤ length fixed.now.images }
    requires blocked { length rows.now ≤ length fixed.now.blocked }
    ensures { IfOk result (λ free. free.items ≡ free_rows fixed.now 0 rows.now) }
{
    let mut free = Vec::with_capacity(alloc, rows.len())?;
    for (top, row) in rows.iter().enumerate() {
        free.push(free_row(row, is_free(fixed, top)))?;
    }
    Ok(free)
}

/// The tops of the files, of which only free ones may move. What they refer into isn't copied.
pub(crate) fn free_tops(alloc: Global, tops: &Tops, fixed: &Fixed) -> Result<Tops, NoMemory>
    requires parts { length fixed.now.roots ≤ length tops.now.files_of_units }
    requires images { length fixed.now.images ≡ length tops.now.rows }
    requires blocked { length fixed.now.blocked ≡ length tops.now.rows }
    ensures { IfOk result (λ free. with_targets (take (own_count tops.now fixed.now) tops.now.targets) free ≡ free_tops tops.now fixed.now) }
{
    let units = own_units(tops, fixed);
    let rows = tops.rows.as_slice();
    let own = first(rows, count_own(rows, units));
    let rows = free_rows(alloc, own, fixed)?;
    let files_of_units = first(tops.files_of_units.as_slice(), units).to_vec(alloc)?;
    Ok(Tops {
        rows: DwzList::new(rows),
        targets: group(alloc, 0, &[])?,
        files_of_units: Numbers::new(files_of_units),
        files: tops.files,
    })
}

// For each partial unit of the common file the units that take it, of so many, in order.
fn takers(alloc: Global, fixed: &Fixed, units: usize) -> Result<Groups, NoMemory>
    requires few { units < 2 ^ 32 }
    requires units { units ≤ length fixed.now.takes }
    requires inside { All (λ parts. All (λ p. p < length fixed.now.roots) parts) fixed.now.takes }
    ensures { IfOk result (λ takers. takers ≡ map (λ p. takers_from p 0 (take units fixed.now.takes)) (range_with_len 0 (length fixed.now.roots))) }
{
    let takes = fixed.takes.as_slice();
    let mut pairs = Vec::new(alloc);
    for unit in 0..units {
        push_turned(&mut pairs, takes[unit].as_slice(), unit as u32)?;
    }
    let by_part = group(alloc, fixed.roots.len(), pairs.as_slice())?;
    by_part.without_repeats(alloc)
}

// Appends a top under the number of its partial unit, if it is of one: the units of these are those from `first` on.
fn push_standing(
    pairs: &mut Vec<Edge>,
    row: &TopRow,
    top: u32,
    first: usize,
) -> Result<(), NoMemory>
    ensures { OnOk result (pairs.new.items ≡ pairs.old.items ++ standing_one first row.now top) }
{
    let unit = row.unit as usize;
    if unit >= first {
        pairs.push(Edge {
            key: (unit - first) as u32,
            value: top,
        })?;
    }
    Ok(())
}

// For each of so many units from `first` on its tops.
fn standing_tops(
    alloc: Global,
    rows: &[TopRow],
    first: usize,
    count: usize,
) -> Result<Groups, NoMemory>
    requires few { length rows.now < 2 ^ 32 }
    requires units { All (λ row. row.unit < first + count) rows.now }
    ensures { IfOk result (λ held. held ≡ map (λ p. tops_in (first + p) 0 rows.now) (range_with_len 0 count)) }
{
    let mut pairs = Vec::new(alloc);
    for (top, row) in rows.iter().enumerate() {
        push_standing(&mut pairs, row, top as u32, first)?;
    }
    group(alloc, count, pairs.as_slice())
}

fn partial(alloc: Global, file: u32, users: &[u32], tops: &[u32]) -> Result<Partial, NoMemory>
    ensures { IfOk result (λ part. part ≡ record { file = file; users = users.now; tops = tops.now }) }
{
    let users = Numbers::new(users.to_vec(alloc)?);
    let tops = Numbers::new(tops.to_vec(alloc)?);
    Ok(Partial { file, users, tops })
}

/// The partial units of the common file: each with the units that take it, and its own tops.
pub(crate) fn standing_parts(
    alloc: Global,
    tops: &Tops,
    fixed: &Fixed,
) -> Result<Vec<Partial>, NoMemory>
    requires rows { length tops.now.rows < 2 ^ 32 }
    requires units { length tops.now.files_of_units < 2 ^ 32 }
    requires of_units { All (λ row. row.unit < length tops.now.files_of_units) tops.now.rows }
    requires parts { length fixed.now.roots ≤ length tops.now.files_of_units }
    requires takes { length fixed.now.takes ≡ length tops.now.files_of_units }
    requires inside { All (λ parts. All (λ p. p < length fixed.now.roots) parts) fixed.now.takes }
    ensures { IfOk result (λ parts. parts.items ≡ standing_parts tops.now fixed.now) }
{
    let first = own_units(tops, fixed);
    let count = fixed.roots.len();
    let takers = takers(alloc, fixed, first)?;
    let held = standing_tops(alloc, tops.rows.as_slice(), first, count)?;
    let mut parts = Vec::new(alloc);
    for number in 0..count {
        let users = takers.get(number);
        let own = held.get(number);
        let part = partial(alloc, tops.files, users, own)?;
        parts.push(part)?;
    }
    Ok(parts)
}

// A home in a partial unit that has so many others before it.
fn behind(home: Home, parts: u32) -> Home
    requires { AreNumbers (2 ^ 32 - parts) (group_of home) }
    ensures { result ≡ place_behind parts home }
{
    match home {
        Home::Common(part) => Home::Common(parts + part),
        Home::Local(part) => Home::Local(parts + part),
        Home::Stay => Home::Stay,
    }
}

fn unit_of(rows: &[TopRow], top: u32) -> u32
    requires { top < length rows.now }
    ensures { result ≡ unit_at rows.now top }
{
    rows[top as usize].unit
}

// Where a top goes as planned; none is planned for those behind.
fn home_at(homes: &[Home], top: usize) -> Home
    ensures { result ≡ slice_index_or homes.now top Home.Stay }
{
    if top < homes.len() {
        homes[top]
    } else {
        Home::Stay
    }
}

// Where a top goes that is planned to go there, or is taken.
fn home_over(tops: &Tops, fixed: &Fixed, homes: &[Home], top: usize) -> Home
    requires parts { length fixed.now.roots ≤ length tops.now.files_of_units }
    requires few { length fixed.now.roots < 2 ^ 32 }
    requires images { top < length fixed.now.images }
    requires inside { All (IsImageRow tops.now fixed.now) fixed.now.images }
    requires homes { All (λ h. AreNumbers (2 ^ 32 - length fixed.now.roots) (group_of h)) homes.now }
    ensures { result ≡ place_over tops.now fixed.now homes.now top }
{
    match fixed.images.as_slice()[top] {
        Some(image) => {
            let first = own_units(tops, fixed);
            Home::Common(unit_of(tops.rows.as_slice(), image) - first as u32)
        }
        None => behind(home_at(homes, top), fixed.roots.len() as u32),
    }
}

/// For each top where it goes: one that is taken to its image; another one as planned, behind the partial units of the common file.
pub(crate) fn homes_over(
    alloc: Global,
    tops: &Tops,
    fixed: &Fixed,
    homes: &[Home],
) -> Result<Vec<Home>, NoMemory>
    requires parts { length fixed.now.roots ≤ length tops.now.files_of_units }
    requires few { length fixed.now.roots < 2 ^ 32 }
    requires images { length fixed.now.images ≡ length tops.now.rows }
    requires inside { All (IsImageRow tops.now fixed.now) fixed.now.images }
    requires homes { All (λ h. AreNumbers (2 ^ 32 - length fixed.now.roots) (group_of h)) homes.now }
    ensures { IfOk result (λ all. all.items ≡ map (place_over tops.now fixed.now homes.now) (range_with_len 0 (length tops.now.rows))) }
{
    let count = tops.rows.len();
    let mut all = Vec::with_capacity(alloc, count)?;
    for top in 0..count {
        all.push(home_over(tops, fixed, homes, top))?;
    }
    Ok(all)
}

// What stands for a top as planned; none is planned for those behind.
fn stand_in_at(stand_ins: &[u32], top: usize) -> u32
    requires { top < 2 ^ 32 }
    ensures { result ≡ slice_index_or stand_ins.now top top }
{
    if top < stand_ins.len() {
        stand_ins[top]
    } else {
        top as u32
    }
}

fn stand_in_over(fixed: &Fixed, stand_ins: &[u32], top: usize) -> u32
    requires few { top < 2 ^ 32 }
    requires images { top < length fixed.now.images }
    ensures { result ≡ stand_over fixed.now stand_ins.now top }
{
    match fixed.images.as_slice()[top] {
        Some(image) => image,
        None => stand_in_at(stand_ins, top),
    }
}

/// For each top the one that stands for it after: its image where it is taken, and else as planned.
pub(crate) fn stand_ins_over(
    alloc: Global,
    count: usize,
    fixed: &Fixed,
    stand_ins: &[u32],
) -> Result<Vec<u32>, NoMemory>
    requires few { count < 2 ^ 32 }
    requires images { length fixed.now.images ≡ count }
    ensures { IfOk result (λ all. all.items ≡ map (stand_over fixed.now stand_ins.now) (range_with_len 0 count)) }
{
    let mut all = Vec::with_capacity(alloc, count)?;
    for top in 0..count {
        all.push(stand_in_over(fixed, stand_ins, top))?;
    }
    Ok(all)
}
