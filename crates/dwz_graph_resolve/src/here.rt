//! What is kept of a unit as long as its entries are looked at.

ghost use Rattle.std.specs.Prelude.{◌≡◌, ℕ, ◌<◌, Some, slice_get};
ghost use Rattle.dwz_def_reading.specs.Units.{entries_in};
ghost use Rattle.dwz_def_reading.specs.Values.{HasSpelling};
ghost use Rattle.dwz_forms.specs.RawValues.{raw_view};
ghost use Rattle.dwz_def_reading.specs.Meanings;
ghost use Rattle.dwz_def_reading.specs.Meanings.{first_raw};
ghost use Rattle.dwz_graph_resolve.specs.Resolved.{IsUnitHere};
ghost use Rattle.dwz_unit.specs.Rows.{EntryRow, attr_view, rows_of, shown_units, units_of};

use crate::first::first_attr;
use crate::sections::offset_of;
use dwz_codes::{DW_AT_LOCLISTS_BASE, DW_AT_STMT_LIST, DW_AT_STR_OFFSETS_BASE, DW_FORM_SEC_OFFSET};
use dwz_unit::{RawAttr, RawUnit, Units};

/// What is kept of a unit as long as its entries are looked at.
#[derive(Clone, Copy)]
pub struct Here {
    /// Its number.
    pub number: u32,
    /// Where it begins.
    pub at: u32,
    /// The number of its root.
    pub first: u32,
    /// The number behind that of its last entry.
    pub end: u32,
    /// The base of its slots of `.debug_str_offsets`, where it has one.
    pub offsets: Option<u32>,
    /// The base of its slots of `.debug_loclists`, where it has one.
    pub lists: Option<u32>,
    /// Where its line table begins, if it has one.
    pub line: Option<u32>,
}

// The offset that an attribute gives. It has 4 bytes.
#[inline(always)]
fn base_in(attr: &RawAttr) -> Option<u32>
    requires { HasSpelling attr.now.pair.form (raw_view attr.now.raw) }
    ensures { result ≡ Meanings.base_in (Some (attr_view attr.now)) }
{
    if attr.pair.form == DW_FORM_SEC_OFFSET {
        Some(offset_of(&attr.raw) as u32)
    } else {
        None
    }
}

// The offset that the first attribute of a name gives, of the entry with a number.
fn base_of(units: &Units, root: u32, name: u16) -> Option<u32>
    requires { root < entries_in (units_of units.now) }
    ensures { (row : EntryRow) → slice_get (rows_of (units_of units.now)) root ≡ Some row
        → result ≡ Meanings.base_in (first_raw name row.entry.attrs) }
{
    match first_attr(units, root, name) {
        None => None,
        Some(attr) => base_in(&attr),
    }
}

/// What is kept of the unit with a number.
pub fn here_of(units: &Units, number: u32, unit: &RawUnit) -> Here
    requires { unit.now.first < entries_in (units_of units.now) }
    ensures { slice_get (shown_units (units_of units.now)) number ≡ Some unit.now → IsUnitHere (units_of units.now) number unit.now result }
{
    Here {
        number,
        at: unit.at,
        first: unit.first,
        end: units.entry(unit.first).end,
        offsets: base_of(units, unit.first, DW_AT_STR_OFFSETS_BASE),
        lists: base_of(units, unit.first, DW_AT_LOCLISTS_BASE),
        line: base_of(units, unit.first, DW_AT_STMT_LIST),
    }
}
