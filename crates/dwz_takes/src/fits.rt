//! Which partial units a unit can take by itself.

ghost use Rattle.std.specs.Prelude.{◌≡◌, ◌↔◌, ◌⊎◌, ℕ, ◌<◌, IsTrue, IfOk, OnOk, length, slice_index};
ghost use Rattle.dwz_model.specs.Lists.{In, Rising};
ghost use Rattle.dwz_takes.specs.Steps.{AreClear, AreMarked, IsMarkedWhole};
ghost use Rattle.dwz_takes.specs.Tables.{AreTables};
ghost use Rattle.dwz_takes.specs.Takes.{AreBelow, AreRows, FitsIn, class_of, list_at};

use crate::flags::{clear_all, has_all, has_classes, mark_all};
use crate::rows::Rows;
use crate::tables::Tables;
use dwz_groups::Groups;
use dwz_model::NoMemory;
use std::alloc::Global;

// Whether a partial unit has a top, and all that it holds is marked.
fn is_marked_whole(rows: &Rows, classes: &[bool], names: &[bool], part: usize) -> bool
    requires rows { AreRows rows.now }
    requires part { part < length rows.now.part_tops }
    requires classes { length classes.now ≡ length rows.now.classes }
    requires names { length names.now ≡ rows.now.names }
    ensures { IsTrue result ↔ IsMarkedWhole rows.now classes.now names.now part }
{
    let tops = rows.part_tops.get(part);
    !tops.is_empty()
        && has_all(names, rows.part_names.get(part))
        && has_classes(classes, rows.classes.as_slice(), tops)
}

// Adds those of these partial units of which all is marked.
fn add_marked(
    fits: &mut Vec<u32>,
    rows: &Rows,
    classes: &[bool],
    names: &[bool],
    parts: &[u32],
) -> Result<(), NoMemory>
    requires rows { AreRows rows.now }
    requires parts { (p : ℕ) → In p parts.now → p < length rows.now.part_tops }
    requires classes { length classes.now ≡ length rows.now.classes }
    requires names { length names.now ≡ rows.now.names }
    ensures { OnOk result ((p : ℕ) → In p fits.new.items
        ↔ (In p fits.old.items ⊎ (In p parts.now × IsMarkedWhole rows.now classes.now names.now p))) }
{
    for part in parts {
        if is_marked_whole(rows, classes, names, *part as usize) {
            fits.push(*part)?;
        }
    }
    Ok(())
}

// Of the partial units under these classes those of which all is marked.
fn marked_parts(
    alloc: Global,
    rows: &Rows,
    watchers: &Groups,
    own: &[u32],
    classes: &[bool],
    names: &[bool],
) -> Result<Vec<u32>, NoMemory>
    requires rows { AreRows rows.now }
    requires own { (k : ℕ) → In k own.now → k < length watchers.now }
    requires watchers { AreBelow (length rows.now.part_tops) watchers.now }
    requires classes { length classes.now ≡ length rows.now.classes }
    requires names { length names.now ≡ rows.now.names }
    ensures { IfOk result (λ fits. (p : ℕ) → In p fits.items ↔ ((k : ℕ) × In k own.now × In p (list_at watchers.now k)
        × IsMarkedWhole rows.now classes.now names.now p)) }
{
    let mut fits = Vec::new(alloc);
    for class in own {
        add_marked(
            &mut fits,
            rows,
            classes,
            names,
            watchers.get(*class as usize),
        )?;
    }
    Ok(fits)
}

// The numbers of a list in ascending order, each once.
fn in_order(mut numbers: Vec<u32>) -> Vec<u32>
    ensures each { (n : ℕ) → In n result.items ↔ In n numbers.items }
    ensures rising { Rising result.items }
{
    numbers.sort_unstable();
    numbers.dedup();
    numbers
}

/// The partial units that a unit can take by itself, in ascending order. Nothing is marked before and after.
pub(crate) fn fits(
    alloc: Global,
    rows: &Rows,
    tables: &Tables,
    classes: &mut [bool],
    names: &mut [bool],
    unit: usize,
) -> Result<Vec<u32>, NoMemory>
    requires rows { AreRows rows.now }
    requires tables { AreTables rows.now tables.now }
    requires unit { unit < length rows.now.unit_tops }
    requires classes_len { length classes.old ≡ length rows.now.classes }
    requires names_len { length names.old ≡ rows.now.names }
    requires classes { AreClear classes.old }
    requires names { AreClear names.old }
    ensures classes { OnOk result (AreClear classes.new) }
    ensures names { OnOk result (AreClear names.new) }
    ensures each { IfOk result (λ fits. (p : ℕ) → In p fits.items ↔ FitsIn rows.now unit p) }
    ensures rising { IfOk result (λ fits. Rising fits.items) }
{
    let own = tables.classes.get(unit);
    let spaces = rows.unit_names.get(unit);
    mark_all(classes, own);
    mark_all(names, spaces);
    let found = marked_parts(alloc, rows, &tables.watchers, own, classes, names)?;
    clear_all(classes, own);
    clear_all(names, spaces);
    Ok(in_order(found))
}
