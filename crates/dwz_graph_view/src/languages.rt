//! The language of a unit.

ghost use Rattle.std.specs.Prelude.{◌≡◌, ℕ, ◌<◌, Some, slice_get};
ghost use Rattle.dwz_def_reading.specs.Documents.{Node, Value, first_named, number_in, number_of_attr};
ghost use Rattle.dwz_def_reading.specs.Entries.{RawAttr as RawAttrOfSpecs};
ghost use Rattle.dwz_def_reading.specs.Meanings.{MeaningContext, MeansAs, MeansNode};
ghost use Rattle.dwz_def_reading.specs.Units.{entries_in};
ghost use Rattle.dwz_forms.specs.RawValues.{raw_view};
ghost use Rattle.dwz_unit.specs.Rows.{EntryRow, rows_of, units_of};

use dwz_codes::{Class, DW_AT_LANGUAGE, class_of};
use dwz_forms::Raw;
use dwz_graph::first_attr;
use dwz_label_entries::number_of;
use dwz_unit::Units;

// The number that a value of that class is, of an attribute that numbers no file.
fn number_as(class: Class, raw: &Raw) -> Option<i128>
    ensures { (s : MeaningContext ℕ) (a : RawAttrOfSpecs) (v : Value ℕ) → a.pair.name ≡ 0x13 → a.raw ≡ raw_view raw.now
        → MeansAs class s a v → result ≡ number_in v.plain }
{
    if class != Class::Constant {
        return None;
    }
    Some(number_of(raw))
}

/// The language of a unit, by the number of its root: what its first `DW_AT_language` says (DWARF 5, 3.1.1), where that is a number.
pub(crate) fn language_of(units: &Units, root: u32) -> Option<i128>
    requires { root < entries_in (units_of units.now) }
    ensures { (s : MeaningContext ℕ) (row : EntryRow) (d : Node ℕ) → slice_get (rows_of (units_of units.now)) root ≡ Some row
        → MeansNode s row.entry d → result ≡ number_of_attr (first_named 0x13 d.attrs) }
{
    match first_attr(units, root, DW_AT_LANGUAGE) {
        None => None,
        Some(attr) => number_as(class_of(attr.pair.form), &attr.raw),
    }
}
