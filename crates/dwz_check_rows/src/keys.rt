//! Numbers that tell the name list and the class of a node.

ghost use Rattle.std.specs.Prelude.{◌≡◌, ◌+◌, ◌*◌, ◌≤◌, ◌^◌, length, map, IfOk};
ghost use Rattle.dwz_check_rows.specs.Keys.{key, IsInOrder};
ghost use Rattle.dwz_check_rows.specs.UnitRows.{numbers_between, plain_tops};

use crate::columns::{Columns, UnitNodes};
use dwz_model::NoMemory;
use std::alloc::Global;

// By name list, and then by class.
fn key_of(names: u32, class: u32) -> u64
    ensures { result ≡ names * 2 ^ 32 + class }
{
    u64::from(names) * (1 << 32) + u64::from(class)
}

// Of the nodes from `start` up to `end`.
pub(crate) fn space_keys(
    alloc: Global,
    classes: &[u32],
    names: &[u32],
    start: usize,
    end: usize,
) -> Result<Vec<u64>, NoMemory>
    requires classes { end ≤ length classes.now }
    requires names { end ≤ length names.now }
    ensures { IfOk result (λ keys. keys.items ≡ map (key classes.now names.now) (numbers_between start end)) }
{
    let mut keys = Vec::new(alloc);
    for node in start..end {
        keys.push(key_of(names[node], classes[node]))?;
    }
    Ok(keys)
}

// Of the tops of a unit that import nothing.
pub(crate) fn top_keys(
    alloc: Global,
    classes: &[u32],
    columns: &Columns,
    unit: &UnitNodes,
) -> Result<Vec<u64>, NoMemory>
    requires classes { unit.now.tops_end ≤ length classes.now }
    requires names { unit.now.tops_end ≤ length columns.now.names }
    requires plain { unit.now.tops_end ≤ length columns.now.plain }
    ensures { IfOk result (λ keys. keys.items ≡ map (key classes.now columns.now.names) (plain_tops columns.now unit.now)) }
{
    let names = columns.names.as_slice();
    let plain = columns.plain.as_slice();
    let mut keys = Vec::new(alloc);
    for node in unit.top as usize..unit.tops_end as usize {
        if plain[node] {
            keys.push(key_of(names[node], classes[node]))?;
        }
    }
    Ok(keys)
}

// In order, each once.
pub(crate) fn sort_keys(mut keys: Vec<u64>) -> Vec<u64>
    ensures { IsInOrder keys.items result.items }
{
    keys.sort_unstable();
    keys.dedup();
    keys
}

// The same of lists that are in order, one behind the other: they are merged.
pub(crate) fn merge_keys(mut keys: Vec<u64>) -> Result<Vec<u64>, NoMemory>
    ensures { IfOk result (λ sorted. IsInOrder keys.items sorted.items) }
{
    keys.sort()?;
    keys.dedup();
    Ok(keys)
}
