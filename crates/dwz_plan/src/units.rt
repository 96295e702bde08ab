//! What units keep and import.
ghost use Rattle.std.specs.Prelude.{◌≡◌, ℕ, ◌+◌, ◌-◌, ◌<◌, ◌≤◌, ◌^◌, ◌++◌, ◌∷◌, [], true, false, All, length, map, IfOk, OnOk, ◌&&◌};
ghost use Rattle.std.specs.Prelude.{if◌then◌else◌};
ghost use Rattle.dwz_groups.specs.Groups.{grouped};
ghost use Rattle.dwz_plan.specs.Steps.{is_in_unit, same_bool, staying_pairs, turned};

use crate::homes::stays;
use crate::plan::{Home, Partial};
use crate::users::push_turned;
use dwz_groups::{Edge, Groups, TopRow, group};
use dwz_model::NoMemory;
use std::alloc::Global;

// Appends a pair if it is wanted.
fn push_if(pairs: &mut Vec<Edge>, wanted: bool, pair: Edge) -> Result<(), NoMemory>
    ensures { OnOk result (pairs.new.items ≡ pairs.old.items ++ (if wanted then pair ∷ [] else [])) }
{
    if wanted {
        pairs.push(pair)?;
    }
    Ok(())
}

// Whether a top stays, and is pinned or not as asked.
fn is_kept(pinned: bool, home: Home, wanted: bool) -> bool
    ensures { result ≡ (same_bool pinned wanted && is_in_unit home) }
{
    pinned == wanted && stays(home)
}

// Appends under its unit each top that stays, of those that are pinned or of the others.
fn push_staying(
    pairs: &mut Vec<Edge>,
    rows: &[TopRow],
    homes: &[Home],
    pinned: bool,
) -> Result<(), NoMemory>
    requires few { length rows.now < 2 ^ 32 }
    requires homes { length homes.now ≡ length rows.now }
    ensures { OnOk result (pairs.new.items ≡ pairs.old.items ++ staying_pairs pinned 0 rows.now homes.now) }
{
    for (top, row) in rows.iter().enumerate() {
        let wanted = is_kept(row.pinned, homes[top], pinned);
        let pair = Edge {
            key: row.unit,
            value: top as u32,
        };
        push_if(pairs, wanted, pair)?;
    }
    Ok(())
}

/// For each unit the tops that stay in it, pinned ones first.
pub(crate) fn kept_of_units(
    alloc: Global,
    rows: &[TopRow],
    homes: &[Home],
    units: usize,
) -> Result<Groups, NoMemory>
    requires few { length rows.now < 2 ^ 32 }
    requires homes { length homes.now ≡ length rows.now }
    requires units { All (λ row. row.unit < units) rows.now }
    ensures { IfOk result (λ kept. kept ≡ grouped units
        (staying_pairs true 0 rows.now homes.now ++ staying_pairs false 0 rows.now homes.now)) }
{
    let mut pairs = Vec::with_capacity(alloc, rows.len())?;
    push_staying(&mut pairs, rows, homes, true)?;
    push_staying(&mut pairs, rows, homes, false)?;
    group(alloc, units, pairs.as_slice())
}

/// For each unit the partial units that have it among their users.
pub(crate) fn imports(alloc: Global, partials: &[Partial], units: usize) -> Result<Groups, NoMemory>
    requires few { length partials.now < 2 ^ 32 }
    requires users { All (λ part. All (λ u. u < units) part.users) partials.now }
    ensures { IfOk result (λ imports. imports ≡ grouped units (turned 0 (map (λ part. part.users) partials.now))) }
{
    let mut pairs = Vec::new(alloc);
    for (number, part) in partials.iter().enumerate() {
        push_turned(&mut pairs, part.users.as_slice(), number as u32)?;
    }
    group(alloc, units, pairs.as_slice())
}
