//! What is left of a plan: the partial units that gain.
ghost use Rattle.std.specs.Prelude.{◌≡◌, ℕ, ◌+◌, ◌-◌, ◌<◌, ◌≤◌, ◌^◌, ◌++◌, All, length, map, IfOk, slice_index, slice_index_or, ◌∷◌, []};
ghost use Rattle.dwz_plan.specs.Gaining.{AreNumbers, weights_of};
ghost use Rattle.dwz_plan.specs.Gained.{AreMarks, among, before, group_of, part_seed, place_after};

use crate::plan::{Home, Partial};
use crate::{gaining_groups, gains_by_itself};
use dwz_groups::{Groups, TopRow};
use dwz_model::NoMemory;
use std::alloc::Global;

// The group of a top that goes there: the partial unit.
fn group_of(home: Home) -> Option<u32>
    ensures { result ≡ group_of home }
{
    match home {
        Home::Common(part) => Some(part),
        Home::Local(part) => Some(part),
        Home::Stay => None,
    }
}

/// For each top its group.
pub(crate) fn groups_of(alloc: Global, homes: &[Home]) -> Result<Vec<Option<u32>>, NoMemory>
    ensures { IfOk result (λ groups. groups.items ≡ map group_of homes.now) }
{
    let mut groups = Vec::with_capacity(alloc, homes.len())?;
    for home in homes {
        groups.push(group_of(*home))?;
    }
    Ok(groups)
}

// Whether a partial unit gains by itself.
fn seed(part: &Partial, rows: &[TopRow]) -> bool
    requires users { length part.now.users < 2 ^ 32 }
    requires tops { length part.now.tops < 2 ^ 32 }
    requires inside { All (λ t. t < length rows.now) part.now.tops }
    ensures { result ≡ part_seed (weights_of rows.now) part.now }
{
    gains_by_itself(part.users.len() as u32, part.tops.as_slice(), rows)
}

/// For each partial unit whether it gains by itself.
pub(crate) fn seeds(
    alloc: Global,
    partials: &[Partial],
    rows: &[TopRow],
) -> Result<Vec<bool>, NoMemory>
    requires users { All (λ part. length part.users < 2 ^ 32) partials.now }
    requires tops { All (λ part. length part.tops < 2 ^ 32) partials.now }
    requires inside { All (λ part. All (λ t. t < length rows.now) part.tops) partials.now }
    ensures { IfOk result (λ seeds. seeds.items ≡ map (part_seed (weights_of rows.now)) partials.now) }
{
    let mut seeds = Vec::with_capacity(alloc, partials.len())?;
    for part in partials {
        seeds.push(seed(part, rows))?;
    }
    Ok(seeds)
}

// How many marks there are before each.
fn numbers(alloc: Global, marks: &[bool]) -> Result<Vec<u32>, NoMemory>
    requires { length marks.now < 2 ^ 32 }
    ensures len { IfOk result (λ numbers. length numbers.items ≡ length marks.now) }
    ensures each { IfOk result (λ numbers. (k : ℕ) → k < length marks.now → slice_index numbers.items k ≡ before marks.now k) }
{
    let mut numbers = Vec::with_capacity(alloc, marks.len())?;
    let mut count = 0;
    for mark in marks {
        numbers.push(count)?;
        if *mark {
            count += 1;
        }
    }
    Ok(numbers)
}

// Where a top goes, if only into partial units that are marked, which then have these numbers.
fn home_after(home: Home, marks: &[bool], numbers: &[u32]) -> Home
    requires home { AreNumbers (length marks.now) (group_of home) }
    requires len { length numbers.now ≡ length marks.now }
    requires each { (k : ℕ) → k < length marks.now → slice_index numbers.now k ≡ before marks.now k }
    ensures { result ≡ place_after marks.now home }
{
    match home {
        Home::Common(part) => {
            if marks[part as usize] {
                Home::Common(numbers[part as usize])
            } else {
                Home::Stay
            }
        }
        Home::Local(part) => {
            if marks[part as usize] {
                Home::Local(numbers[part as usize])
            } else {
                Home::Stay
            }
        }
        Home::Stay => Home::Stay,
    }
}

/// Where each top goes, if only into partial units that are marked.
pub(crate) fn homes_after(
    alloc: Global,
    homes: &[Home],
    marks: &[bool],
) -> Result<Vec<Home>, NoMemory>
    requires few { length marks.now < 2 ^ 32 }
    requires homes { All (λ h. AreNumbers (length marks.now) (group_of h)) homes.now }
    ensures { IfOk result (λ after. after.items ≡ map (place_after marks.now) homes.now) }
{
    let numbers = numbers(alloc, marks)?;
    let mut after = Vec::with_capacity(alloc, homes.len())?;
    for home in homes {
        after.push(home_after(*home, marks, numbers.as_slice()))?;
    }
    Ok(after)
}

/// The partial units that are marked.
pub(crate) fn partials_after(
    alloc: Global,
    partials: Vec<Partial>,
    marks: &[bool],
) -> Result<Vec<Partial>, NoMemory>
    requires { length marks.now ≡ length partials.items }
    ensures { IfOk result (λ after. after.items ≡ among marks.now partials.items) }
{
    let mut after = Vec::new(alloc);
    let mut number = 0;
    for part in partials {
        if marks[number] {
            after.push(part)?;
        }
        number += 1;
    }
    Ok(after)
}

/// Which partial units gain.
pub(crate) fn marks_of(
    alloc: Global,
    partials: &[Partial],
    homes: &[Home],
    rows: &[TopRow],
    targets: &Groups,
) -> Result<Vec<bool>, NoMemory>
    requires few { length partials.now < 2 ^ 32 }
    requires users { All (λ part. length part.users < 2 ^ 32) partials.now }
    requires tops { All (λ part. length part.tops < 2 ^ 32) partials.now }
    requires inside { All (λ part. All (λ t. t < length rows.now) part.tops) partials.now }
    requires homes { All (λ h. AreNumbers (length partials.now) (group_of h)) homes.now }
    requires len { length homes.now ≤ length targets.now }
    ensures { IfOk result (λ marks. AreMarks (weights_of rows.now) targets.now partials.now homes.now marks.items) }
{
    let groups = groups_of(alloc, homes)?;
    let seeds = seeds(alloc, partials, rows)?;
    let marks = gaining_groups(alloc, seeds.as_slice(), groups.as_slice(), targets)?;
    Ok(marks)
}
