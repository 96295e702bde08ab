//! The units that use tops.
ghost use Rattle.std.specs.Prelude.{◌≡◌, ℕ, ◌+◌, ◌-◌, ◌<◌, ◌≤◌, ◌^◌, ◌++◌, All, length, map, IfOk, OnOk};
ghost use Rattle.dwz_plan.specs.Steps.{all_keys, pair, turned, unit_pairs};

use dwz_groups::{Edge, Groups, TopRow, group};
use dwz_model::NoMemory;
use std::alloc::Global;

// Under the unit of each top that can be moved, the top that stands for it.
#[tactic(auto, unfolding(crate::specs::Steps::unit_pairs))]
fn unit_pairs(alloc: Global, rows: &[TopRow], reps: &[u32]) -> Result<Vec<Edge>, NoMemory>
    ensures { IfOk result (λ pairs. pairs.items ≡ unit_pairs rows.now reps.now) }
{
    rows.iter()
        .zip(reps)
        .filter(|(row, _)| row.movable)
        .map(|(row, rep)| Edge {
            key: row.unit,
            value: *rep,
        })
        .collect(alloc)
}

/// Appends a value under each of these keys.
pub(crate) fn push_turned(pairs: &mut Vec<Edge>, keys: &[u32], value: u32) -> Result<(), NoMemory>
    ensures { OnOk result (pairs.new.items ≡ pairs.old.items ++ map (λ k. pair k value) keys.now) }
{
    for key in keys {
        pairs.push(Edge { key: *key, value })?;
    }
    Ok(())
}

// Each number of a list as a key, with the number of the list.
fn turn_lists(alloc: Global, lists: &Groups) -> Result<Vec<Edge>, NoMemory>
    requires { length lists.now < 2 ^ 32 }
    ensures { IfOk result (λ pairs. pairs.items ≡ turned 0 lists.now) }
{
    let mut pairs = Vec::new(alloc);
    for number in 0..lists.len() {
        push_turned(&mut pairs, lists.get(number), number as u32)?;
    }
    Ok(pairs)
}

/// For each top the units that have a top for which it stands, in order.
pub(crate) fn users(
    alloc: Global,
    rows: &[TopRow],
    reps: &[u32],
    units: usize,
) -> Result<Groups, NoMemory>
    requires few { units < 2 ^ 32 }
    requires units { All (λ row. row.unit < units) rows.now }
    requires reps { All (λ rep. rep < length rows.now) reps.now }
    ensures { IfOk result (λ users. users ≡ all_keys (length rows.now) units (unit_pairs rows.now reps.now)) }
{
    let pairs = unit_pairs(alloc, rows, reps)?;
    let by_unit = group(alloc, units, pairs.as_slice())?;
    let pairs = turn_lists(alloc, &by_unit)?;
    let by_rep = group(alloc, rows.len(), pairs.as_slice())?;
    by_rep.without_repeats(alloc)
}
