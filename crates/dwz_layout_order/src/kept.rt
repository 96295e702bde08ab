//! What is written of units that are kept.

ghost use Rattle.std.specs.Prelude.{◌≡◌, ℕ, ◌+◌, ◌<◌, ◌≤◌, ◌^◌, [], Some, length, slice_get, IfOk, OnOk};
ghost use Rattle.dwz_def_reading.specs.Units.{RawUnit, entries_in};
ghost use Rattle.dwz_layout_order.specs.Kept.{IsKept, PutsKept, behind_unit, from_source, imports_at};
ghost use Rattle.dwz_layout_order.specs.Outline.{HasRoom};
ghost use Rattle.dwz_layout_order.specs.Sorts.{SortOf};
ghost use Rattle.dwz_unit.specs.declared.rows.RawUnit.{RawUnit as UnitOfCode};
ghost use Rattle.dwz_unit.specs.Rows.{shown_units, units_of};

use crate::marks::Marks;
use crate::outline::{Next, put_list};
use crate::sorts::sort_of;
use dwz_codes::DW_UT_COMPILE;
use dwz_graph::InputSections;
use dwz_layout::UnitItems;
use dwz_layout_items::{Item, Outer, put_kept, put_whole};
use dwz_model::{DwzList, NoMemory};
use dwz_plan::Plan;
use dwz_unit::{RawUnit as RawUnitOfCode, Units};
use std::alloc::Global;

/// A file of which something moves: its number, its sections and its units, and the numbers of its first unit and of its first entry
/// among those of all files.
#[derive(Clone, Copy)]
pub struct Source<'f, 'a> {
    pub file: u32,
    pub units: &'f Units<'a>,
    pub sections: &'f InputSections<'a>,
    pub unit: u32,
    pub start: u32,
}

// Appends what is written of a unit. `outers` is a row that is used again.
pub(crate) fn put_unit(
    items: &mut Vec<Item>,
    outers: &mut Vec<Outer>,
    next: &mut Next,
    units: &Units,
    marks: &Marks,
    n: u32,
    unit: &RawUnitOfCode,
    imports: &[u32],
) -> Result<(), NoMemory>
    requires shown { slice_get (shown_units (units_of units.now)) n ≡ Some unit.now }
    requires few { entries_in (units_of units.now) < 2 ^ 31 }
    requires room { HasRoom next.old unit.now.first (entries_in (units_of units.now)) }
    ensures items { (u : RawUnit) → slice_get (units_of units.now) n ≡ Some u
        → OnOk result (IsKept marks.now u.kind u.below next.old imports.now items.old.items items.new.items) }
    ensures next { (u : RawUnit) → slice_get (units_of units.now) n ≡ Some u → OnOk result (next.new ≡ behind_unit u next.old) }
{
    if unit.kind != DW_UT_COMPILE {
        return put_whole(items);
    }
    outers.clear();
    let end = units.entry(unit.first).end;
    put_list(outers, next, units, marks, unit.first + 1, end)?;
    put_kept(items, outers.as_slice(), imports)
}

// What is written of the unit with a number.
fn unit_items(
    alloc: Global,
    outers: &mut Vec<Outer>,
    next: &mut Next,
    source: &Source,
    marks: &Marks,
    n: u32,
    imports: &[u32],
) -> Result<UnitItems, NoMemory>
    requires there { n < length (units_of source.now.units.now) }
    requires few { source.now.start + entries_in (units_of source.now.units.now) < 2 ^ 31 }
    requires room { (x : UnitOfCode) → slice_get (shown_units (units_of source.now.units.now)) n ≡ Some x
        → HasRoom next.old x.first (entries_in (units_of source.now.units.now)) }
    ensures items { (u : RawUnit) (x : UnitOfCode) → slice_get (units_of source.now.units.now) n ≡ Some u
        → slice_get (shown_units (units_of source.now.units.now)) n ≡ Some x
        → IfOk result (λ o. IsKept marks.now u.kind u.below next.old imports.now [] o.items) }
    ensures sort { (u : RawUnit) (x : UnitOfCode) → slice_get (units_of source.now.units.now) n ≡ Some u
        → slice_get (shown_units (units_of source.now.units.now)) n ≡ Some x
        → IfOk result (λ o. SortOf (units_of source.now.units.now) source.now.file source.now.start x.first u o.sort) }
    ensures next { (u : RawUnit) → slice_get (units_of source.now.units.now) n ≡ Some u → OnOk result (next.new ≡ behind_unit u next.old) }
{
    let unit = source.units.unit(n);
    let mut items = Vec::new(alloc);
    put_unit(
        &mut items,
        outers,
        next,
        source.units,
        marks,
        n,
        &unit,
        imports,
    )?;
    let sort = sort_of(
        source.units,
        source.sections,
        source.file,
        source.start,
        n,
        &unit,
    );
    Ok(UnitItems {
        sort,
        items: DwzList::new(items),
    })
}

/// Appends what is written of the old units of a file, in order. The next top and the next space are the file's first.
pub fn put_units(
    alloc: Global,
    order: &mut Vec<UnitItems>,
    source: &Source,
    marks: &Marks,
    plan: &Plan,
    from: &Next,
) -> Result<(), NoMemory>
    requires few { source.now.start + entries_in (units_of source.now.units.now) < 2 ^ 31 }
    requires room { HasRoom from.now 0 (entries_in (units_of source.now.units.now)) }
    requires few_units { source.now.unit + length (units_of source.now.units.now) < 2 ^ 32 }
    requires imports { source.now.unit + length (units_of source.now.units.now) ≤ length plan.now.imports }
    ensures { OnOk result (PutsKept (units_of source.now.units.now) marks.now (imports_at plan.now) (from_source source.now) from.now
        order.old.items order.new.items) }
{
    let mut outers = Vec::new(alloc);
    let mut next = *from;
    for n in 0..source.units.len() {
        let imports = plan.imports(source.unit + n);
        let unit = unit_items(alloc, &mut outers, &mut next, source, marks, n, imports)?;
        order.push(unit)?;
    }
    Ok(())
}
