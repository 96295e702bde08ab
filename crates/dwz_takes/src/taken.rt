//! What units take: for each unit what it can take by itself, without what it misses.

ghost use Rattle.std.specs.Prelude.{◌≡◌, ◌↔◌, ℕ, ◌+◌, ◌-◌, ◌<◌, ◌≤◌, [], IfOk, OnOk, filter, length, slice_index_or, false};
ghost use Rattle.dwz_model.specs.Lists.{In};
ghost use Rattle.dwz_takes.specs.Steps.{AreClear};
ghost use Rattle.dwz_takes.specs.Tables.{AreTables};
ghost use Rattle.dwz_takes.specs.Takes.{AreRows, AreTaken, AreTakes};

use crate::fits::fits;
use crate::flags::{clear_all, mark_all};
use crate::missing::drop_missing;
use crate::rows::Rows;
use crate::tables::Tables;
use dwz_model::{DwzList, NoMemory, Numbers};
use std::alloc::Global;

// Those of a list that are marked.
fn marked_of(alloc: Global, flags: &[bool], list: &[u32]) -> Result<Vec<u32>, NoMemory>
    requires { (n : ℕ) → In n list.now → n < length flags.now }
    ensures { IfOk result (λ kept. kept.items ≡ filter (λ n. slice_index_or flags.now n false) list.now) }
{
    let mut kept = Vec::new(alloc);
    for number in list {
        if flags[*number as usize] {
            kept.push(*number)?;
        }
    }
    Ok(kept)
}

/// The partial units that a unit takes, in ascending order. Nothing is marked before and after.
fn taken_by(
    alloc: Global,
    rows: &Rows,
    tables: &Tables,
    classes: &mut [bool],
    names: &mut [bool],
    parts: &mut [bool],
    unit: usize,
) -> Result<Numbers, NoMemory>
    requires rows { AreRows rows.now }
    requires tables { AreTables rows.now tables.now }
    requires unit { unit < length rows.now.unit_tops }
    requires classes_len { length classes.old ≡ length rows.now.classes }
    requires names_len { length names.old ≡ rows.now.names }
    requires parts_len { length parts.old ≡ length rows.now.part_tops }
    requires classes { AreClear classes.old }
    requires names { AreClear names.old }
    requires parts { AreClear parts.old }
    ensures classes { OnOk result (AreClear classes.new) }
    ensures names { OnOk result (AreClear names.new) }
    ensures parts { OnOk result (AreClear parts.new) }
    ensures taken { IfOk result (λ taken. AreTaken rows.now unit taken) }
{
    let fits = fits(alloc, rows, tables, classes, names, unit)?;
    mark_all(parts, fits.as_slice());
    drop_missing(alloc, rows, &tables.sources, parts, fits.as_slice())?;
    let taken = marked_of(alloc, parts, fits.as_slice())?;
    clear_all(parts, fits.as_slice());
    Ok(Numbers::new(taken))
}

// For each unit of a stretch the partial units that it takes.
fn taken_between(
    alloc: Global,
    rows: &Rows,
    tables: &Tables,
    from: usize,
    to: usize,
) -> Result<Vec<Numbers>, NoMemory>
    requires rows { AreRows rows.now }
    requires tables { AreTables rows.now tables.now }
    requires rising { from ≤ to }
    requires within { to ≤ length rows.now.unit_tops }
    ensures len { IfOk result (λ lists. length lists.items ≡ to - from) }
    ensures each { IfOk result (λ lists. (i : ℕ) → i < to - from → AreTaken rows.now (from + i) (slice_index_or lists.items i [])) }
{
    let mut classes = vec![in alloc; false; rows.classes.len()]?;
    let mut names = vec![in alloc; false; rows.names as usize]?;
    let mut parts = vec![in alloc; false; rows.part_tops.len()]?;
    let mut lists = Vec::with_capacity(alloc, to - from)?;
    for unit in from..to {
        let taken = taken_by(
            alloc,
            rows,
            tables,
            classes.as_mut_slice(),
            names.as_mut_slice(),
            parts.as_mut_slice(),
            unit,
        )?;
        lists.push(taken)?;
    }
    Ok(lists)
}

/// For each unit the partial units that it takes, in ascending order.
pub fn takes(alloc: Global, rows: &Rows) -> Result<DwzList<Numbers>, NoMemory>
    requires { AreRows rows.now }
    ensures { IfOk result (λ takes. AreTakes rows.now takes) }
{
    let tables = Tables::make(alloc, rows)?;
    let lists = taken_between(alloc, rows, &tables, 0, rows.unit_tops.len())?;
    Ok(DwzList::new(lists))
}
