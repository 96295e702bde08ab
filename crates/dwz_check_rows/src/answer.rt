//! The first units that don't mean the same.

ghost use Rattle.std.specs.Prelude.{◌≡◌, ◌↔◌, ℕ, ◌<◌, ◌≤◌, ◌^◌, List, length, IfOk, IsTrue};
ghost use Rattle.dwz_model.specs.Lists.{Each};
ghost use Rattle.dwz_def_check.specs.Answer.{SameBy};
ghost use Rattle.dwz_def_check.specs.CrossRows.{RowsSame};
ghost use Rattle.dwz_check_rows.specs.Rows.{AreTopLists, IsWholeUnit, UnitsSame, is_whole, whole_between};
ghost use Rattle.dwz_check_rows.specs.UnitRows.{AreColumns, IsNumbering, new_rows, old_rows};

use crate::columns::{Columns, RowKind};
use crate::key_lists::{KeyLists, sorted_tops};
use crate::row::row_of;
use dwz_def_check::Same;
use dwz_model::NoMemory;
use std::alloc::Global;

// Whether a unit isn't partial.
fn is_whole(kind: RowKind) -> bool
    ensures { result ≡ is_whole kind }
{
    match kind {
        RowKind::Partial => false,
        RowKind::Compile { .. } => true,
        RowKind::OfType { .. } => true,
    }
}

// The numbers of the units from `start` up to `end` that aren't partial.
fn whole_between(
    alloc: Global,
    columns: &Columns,
    start: usize,
    end: usize,
) -> Result<Vec<u32>, NoMemory>
    requires end { end ≤ length columns.now.units }
    requires few { length columns.now.units < 2 ^ 32 }
    ensures { IfOk result (λ numbers. numbers.items ≡ whole_between columns.now start end) }
{
    let units = columns.units.as_slice();
    let mut numbers = Vec::new(alloc);
    for unit in start..end {
        if is_whole(units[unit].kind) {
            numbers.push(unit as u32)?;
        }
    }
    Ok(numbers)
}

// Whether the rows of two units are the same.
fn are_same(
    alloc: Global,
    classes: &[u32],
    columns: &Columns,
    tops: &KeyLists,
    old: usize,
    new: usize,
) -> Result<bool, NoMemory>
    requires columns { AreColumns (length classes.now) columns.now }
    requires tops { AreTopLists classes.now columns.now tops.now }
    requires old { IsWholeUnit columns.now old }
    requires new { IsWholeUnit columns.now new }
    ensures { IfOk result (λ same. IsTrue same ↔ UnitsSame classes.now columns.now old new) }
{
    let old = row_of(alloc, classes, columns, tops, old)?;
    let new = row_of(alloc, classes, columns, tops, new)?;
    Ok(old.is_same(&new))
}

// What is said of as many units of either file.
fn compare_each(
    alloc: Global,
    classes: &[u32],
    columns: &Columns,
    old: &[u32],
    new: &[u32],
) -> Result<Same, NoMemory>
    requires columns { AreColumns (length classes.now) columns.now }
    requires old { Each (IsWholeUnit columns.now) old.now }
    requires new { Each (IsWholeUnit columns.now) new.now }
    requires as_many { length old.now ≡ length new.now }
    requires few { length old.now < 2 ^ 32 }
    ensures { IfOk result (SameBy (UnitsSame classes.now columns.now) old.now new.now) }
{
    let tops = sorted_tops(alloc, classes, columns)?;
    for (n, unit) in old.iter().enumerate() {
        let same = are_same(
            alloc,
            classes,
            columns,
            &tops,
            *unit as usize,
            new[n] as usize,
        )?;
        if !same {
            return Ok(Same::Unit(n as u32));
        }
    }
    Ok(Same::Yes)
}

/// Whether two files mean the same, where each node has that class: by the rows of their units that aren't partial, whatever the numbers
/// of name lists stand for.
pub fn compare(alloc: Global, classes: &[u32], columns: &Columns) -> Result<Same, NoMemory>
    requires { AreColumns (length classes.now) columns.now }
    ensures { IfOk result (λ same. (lists : ℕ → List (List ℕ)) → IsNumbering columns.now.names lists
        → SameBy RowsSame (old_rows lists classes.now columns.now) (new_rows lists classes.now columns.now) same) }
{
    let end = columns.old + columns.new;
    let old = whole_between(alloc, columns, 0, columns.old)?;
    let new = whole_between(alloc, columns, columns.old, end)?;
    let first = old.len();
    let second = new.len();
    if first != second {
        return Ok(Same::Units {
            first: first as u32,
            second: second as u32,
        });
    }
    compare_each(alloc, classes, columns, &old, &new)
}
