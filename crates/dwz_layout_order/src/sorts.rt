//! What kind of unit an old unit is.

ghost use Rattle.std.specs.Prelude.{◌≡◌, ℕ, ◌+◌, ◌<◌, ◌^◌, Some, IfSome, length, slice_get};
ghost use Rattle.dwz_def_reading.specs.Units.{RawUnit, entries_in};
ghost use Rattle.dwz_layout_order.specs.Sorts.{IsMainOf, SortOf};
ghost use Rattle.dwz_unit.specs.Rows.{shown_units, units_of};

use dwz_codes::DW_UT_COMPILE;
use dwz_expr::Operand;
use dwz_graph::{InputSections, entry_of, here_of};
use dwz_layout::{Row, Sort};
use dwz_model::Base;
use dwz_unit::{RawUnit as RawUnitOfCode, Units};

// The number of the entry that describes the type of a type unit; that of its root, where there is no such entry.
fn main_of(units: &Units, sections: &InputSections, n: u32, unit: &RawUnitOfCode) -> u32
    requires shown { slice_get (shown_units (units_of units.now)) n ≡ Some unit.now }
    requires there { unit.now.first < entries_in (units_of units.now) }
    ensures within { result < entries_in (units_of units.now) }
    ensures main { (u : RawUnit) → slice_get (units_of units.now) n ≡ Some u → IsMainOf (units_of units.now) u unit.now.type_offset result }
{
    let here = here_of(units, n, unit);
    let operand = Operand {
        at: 0,
        width: 4,
        uleb: false,
        base: Base::Unit,
        number: unit.type_offset as u64,
    };
    match entry_of(units, sections, &here, &operand) {
        Some(entry) => entry,
        None => unit.first,
    }
}

/// What kind of unit the unit with a number is. `file` is the number of its file, and `start` that of the file's first entry among all.
pub(crate) fn sort_of(
    units: &Units,
    sections: &InputSections,
    file: u32,
    start: u32,
    n: u32,
    unit: &RawUnitOfCode,
) -> Sort
    requires shown { slice_get (shown_units (units_of units.now)) n ≡ Some unit.now }
    requires there { unit.now.first < entries_in (units_of units.now) }
    requires room { start + entries_in (units_of units.now) < 2 ^ 32 }
    ensures { (u : RawUnit) → slice_get (units_of units.now) n ≡ Some u → SortOf (units_of units.now) file start unit.now.first u result }
{
    let root = Row {
        file,
        entry: unit.first,
    };
    if unit.kind == DW_UT_COMPILE {
        return Sort::Compile(root);
    }
    Sort::OfType {
        root,
        signature: unit.signature,
        main: start + main_of(units, sections, n, unit),
    }
}
