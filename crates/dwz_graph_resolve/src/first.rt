//! The first value of a name in an entry.

ghost use Rattle.std.specs.Prelude.{◌≡◌, ◌<◌, Some, slice_get, IfSome};
ghost use Rattle.std.specs.Option.{option_map};
ghost use Rattle.dwz_def_reading.specs.Units.{entries_in};
ghost use Rattle.dwz_def_reading.specs.Values.{HasSpelling};
ghost use Rattle.dwz_forms.specs.RawValues.{raw_view};
ghost use Rattle.dwz_def_reading.specs.Meanings.{first_raw};
ghost use Rattle.dwz_unit.specs.Rows.{EntryRow, attr_view, rows_of, units_of};

use dwz_unit::{RawAttr, Units, Values};

/// The first value of a name in the entry with a number (DWARF 5, 2.2: an entry has at most one). Names are looked at first, and the values
/// before it are read once.
pub fn first_attr<'x>(units: &Units<'x>, entry: u32, name: u16) -> Option<RawAttr<'x>>
    requires { entry < entries_in (units_of units.now) }
    ensures first { (row : EntryRow) → slice_get (rows_of (units_of units.now)) entry ≡ Some row
        → option_map attr_view result ≡ first_raw name row.entry.attrs }
    ensures spelled { IfSome result (λ a. HasSpelling a.pair.form (raw_view a.raw)) }
{
    let count = units.entry(entry).attrs;
    let Values { pairs, cursor: _ } = units.values(entry);
    for k in 0..count {
        let pair = pairs[k as usize];
        if pair.name == name {
            return Some(units.attr(entry, k));
        }
    }
    None
}
