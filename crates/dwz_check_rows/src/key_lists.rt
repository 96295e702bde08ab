//! The sorted tops of each unit.
//!
//! All stand in one row with their ends, as in `Groups`.

ghost use Rattle.std.specs.Prelude.{◌≡◌, ◌<◌, ◌≤◌, ◌∷◌, [], length, IfOk, slice_index_or, slice_range};
ghost use Rattle.std.specs.List.{flat_map};
ghost use Rattle.dwz_model.specs.Lists.{Each};
ghost use Rattle.dwz_groups.specs.Parts.{start_at};
ghost use Rattle.dwz_check_rows.specs.Rows.{AreTopLists};
ghost use Rattle.dwz_check_rows.specs.UnitRows.{AreColumns};

use crate::columns::Columns;
use crate::keys::{sort_keys, top_keys};
use dwz_model::NoMemory;
use std::alloc::Global;
use std::marker::Model;

/// Lists of keys, one for each unit.
#[derive(Drop)]
pub(crate) struct KeyLists {
    ends: Vec<usize>,
    keys: Vec<u64>,
}

impl Model for KeyLists {
    ghost use Rattle.std.specs.Prelude.{ℕ, List, length};
    ghost use Rattle.dwz_groups.specs.Parts.{parts_of, Rise};

    ghost Value = { List (List ℕ) };

    ghost view = { λ l. parts_of 0 l.ends.items l.keys.items };

    ghost invariant = { λ l. Rise 0 l.ends.items (length l.keys.items) };
}

impl KeyLists {
    // The list of a unit.
    fn get(&self, unit: usize) -> &[u64]
        requires { unit < length self.now }
        ensures { result.now ≡ slice_index_or self.now unit [] }
    {
        let end = self.ends[unit];
        part(
            self.keys.as_slice(),
            start_at(self.ends.as_slice(), unit),
            end,
        )
    }
}

// Where the list of a unit begins.
fn start_at(ends: &[usize], unit: usize) -> usize
    requires { unit < length ends.now }
    ensures { result ≡ start_at 0 ends.now unit }
{
    if unit == 0 { 0 } else { ends[unit - 1] }
}

fn part(keys: &[u64], start: usize, end: usize) -> &[u64]
    requires rising { start ≤ end }
    requires within { end ≤ length keys.now }
    ensures { result.now ≡ slice_range keys.now start end }
{
    &keys[start..end]
}

/// For each unit the keys of its tops that import nothing, in order.
pub(crate) fn sorted_tops(
    alloc: Global,
    classes: &[u32],
    columns: &Columns,
) -> Result<KeyLists, NoMemory>
    requires { AreColumns (length classes.now) columns.now }
    ensures { IfOk result (AreTopLists classes.now columns.now) }
{
    let mut ends = Vec::new(alloc);
    let mut keys = Vec::new(alloc);
    for unit in columns.units.as_slice() {
        let sorted = sort_keys(top_keys(alloc, classes, columns, unit)?);
        keys.extend_from_slice(&sorted)?;
        ends.push(keys.len())?;
    }
    Ok(KeyLists { ends, keys })
}

/// The list of a unit, and behind it those of what it imports.
pub(crate) fn joined(
    alloc: Global,
    lists: &KeyLists,
    unit: usize,
    imports: &[u32],
) -> Result<Vec<u64>, NoMemory>
    requires unit { unit < length lists.now }
    requires imports { Each (λ y. y < length lists.now) imports.now }
    ensures { IfOk result (λ keys. keys.items ≡ flat_map (λ y. slice_index_or lists.now y []) (unit ∷ imports.now)) }
{
    let mut keys = Vec::from_slice(alloc, lists.get(unit))?;
    for import in imports {
        keys.extend_from_slice(lists.get(*import as usize))?;
    }
    Ok(keys)
}
