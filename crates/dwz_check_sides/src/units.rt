//! The nodes of units.

ghost use Rattle.std.specs.Prelude.{◌≡◌, ℕ, ◌+◌, ◌<◌, ◌^◌, ◌++◌, List, OnOk, Some, length, map, slice_get};
ghost use Rattle.dwz_def_check.specs.CrossLists.{NumberedUnit, numbered_units};
ghost use Rattle.dwz_def_reading.specs.Documents.{DwUnit};
ghost use Rattle.dwz_def_reading.specs.Units;
ghost use Rattle.dwz_check_index.specs.declared.index.CrossStarts.{CrossStarts};
ghost use Rattle.dwz_check_sides.specs.Says.{IsSide, SaysSome};
ghost use Rattle.dwz_check_sides.specs.Units.{lone_end, nodes_of, raw_kind, tops_end};
ghost use Rattle.dwz_unit.specs.Rows.{unit_shown};

use crate::side::Side;
use dwz_check_rows::{RowKind, UnitNodes};
use dwz_codes::{DW_UT_COMPILE, DW_UT_TYPE};
use dwz_model::NoMemory;
use dwz_unit::RawUnit;

// What a unit is, whose root has that number, and behind whose spaces the next number is that one.
fn kind_of(unit: &RawUnit, root: u32, spaces_end: u32) -> RowKind
    ensures { (first : ℕ) (u : Units.RawUnit) → unit_shown first u ≡ unit.now → result ≡ raw_kind root spaces_end u.kind }
{
    if unit.kind == DW_UT_COMPILE {
        return RowKind::Compile { root, spaces_end };
    }
    if unit.kind == DW_UT_TYPE {
        return RowKind::OfType {
            signature: unit.signature,
        };
    }
    RowKind::Partial
}

// Where the roots and spaces of the units behind one begin, or where those of the last end. They are counted from 0 in the file, and so
// many others come before.
fn lone_behind(side: &Side, n: u32, before: u32) -> u32
    requires said { SaysSome side.now }
    requires none { side.now.index.now.starts.lone ≡ 0 }
    requires room { before + length side.now.index.now.lone < 2 ^ 32 }
    ensures { (said : List (DwUnit ℕ)) (starts : CrossStarts) (x : NumberedUnit ℕ) → IsSide side.now said starts
        → slice_get (numbered_units starts.top starts.lone said) n ≡ Some x → result ≡ before + lone_end x }
{
    match side.index.units().get(n as usize + 1) {
        Some(start) => before + start.lone,
        None => before + side.index.lone_count(),
    }
}

// Where the tops of the units behind one begin, or where those of the last end.
fn tops_behind(side: &Side, n: u32) -> u32
    requires said { SaysSome side.now }
    requires room { side.now.index.now.starts.top + length side.now.index.now.tops < 2 ^ 32 }
    ensures { (said : List (DwUnit ℕ)) (starts : CrossStarts) (x : NumberedUnit ℕ) → IsSide side.now said starts
        → slice_get (numbered_units starts.top starts.lone said) n ≡ Some x → result ≡ tops_end x }
{
    match side.index.units().get(n as usize + 1) {
        Some(start) => start.top,
        None => side.index.starts().top + side.index.top_count(),
    }
}

// The nodes of the unit with a number.
fn nodes_at(side: &Side, n: u32, before: u32) -> UnitNodes
    requires said { SaysSome side.now }
    requires none { side.now.index.now.starts.lone ≡ 0 }
    requires lone { before + length side.now.index.now.lone < 2 ^ 32 }
    requires tops { side.now.index.now.starts.top + length side.now.index.now.tops < 2 ^ 32 }
    requires within { n < length side.now.index.now.units }
    ensures { (said : List (DwUnit ℕ)) (starts : CrossStarts) (x : NumberedUnit ℕ) → IsSide side.now said starts
        → slice_get (numbered_units starts.top starts.lone said) n ≡ Some x → result ≡ nodes_of before x }
{
    let start = side.index.units()[n as usize];
    let unit = side.file.units.unit(n);
    let root = before + start.lone;
    let spaces_end = lone_behind(side, n, before);
    UnitNodes {
        kind: kind_of(&unit, root, spaces_end),
        top: start.top,
        tops_end: tops_behind(side, n),
    }
}

/// Adds the nodes of the units of a file, where so many roots and spaces come before its own.
pub fn put_units(side: &Side, before: u32, units: &mut Vec<UnitNodes>) -> Result<(), NoMemory>
    requires said { SaysSome side.now }
    requires none { side.now.index.now.starts.lone ≡ 0 }
    requires lone { before + length side.now.index.now.lone < 2 ^ 32 }
    requires tops { side.now.index.now.starts.top + length side.now.index.now.tops < 2 ^ 32 }
    ensures { (said : List (DwUnit ℕ)) (starts : CrossStarts) → IsSide side.now said starts
        → OnOk result (units.new.items ≡ units.old.items ++ map (nodes_of before) (numbered_units starts.top starts.lone said)) }
{
    for n in 0..side.file.units.len() {
        units.push(nodes_at(side, n, before))?;
    }
    Ok(())
}
