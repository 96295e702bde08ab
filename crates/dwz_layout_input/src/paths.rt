//! Which entries number files (DWARF 5, 2.14 and 3.3.8.2).

ghost use Rattle.std.specs.Prelude.{◌≡◌, ◌<◌, ◌≤◌, Some, slice_get, slice_range};
ghost use Rattle.std.specs.List.{list_any};
ghost use Rattle.dwz_def_reading.specs.Units.{entries_in};
ghost use Rattle.dwz_layout_numbers.specs.Befores as Known;
ghost use Rattle.dwz_layout_numbers.specs.Befores.{is_pair_file};
ghost use Rattle.dwz_layout_input.specs.Roots.{numbers_file};
ghost use Rattle.dwz_unit.specs.Rows.{EntryRow, rows_of, units_of};

use dwz_codes::{Class, class_of, names_file};
use dwz_model::Pair;
use dwz_unit::{Units, Values};

#[inline(always)]
fn is_constant(class: Class) -> bool
    ensures { result ≡ Known.is_constant class }
{
    match class {
        Class::Constant => true,
        _ => false,
    }
}

// Whether values of that name and form number files.
#[inline(always)]
fn is_file(pair: &Pair) -> bool
    ensures { result ≡ is_pair_file pair.now }
{
    is_constant(class_of(pair.form)) && names_file(pair.name)
}

// Whether one of them does.
fn any_file(pairs: &[Pair]) -> bool
    ensures { result ≡ list_any is_pair_file pairs.now }
{
    pairs.iter().any(is_file)
}

// Whether an entry numbers a file.
fn entry_numbers_file(units: &Units, i: u32) -> bool
    requires { i < entries_in (units_of units.now) }
    ensures { (row : EntryRow) → slice_get (rows_of (units_of units.now)) i ≡ Some row → result ≡ numbers_file row }
{
    let Values {
        pairs,
        cursor: _cursor,
    } = units.values(i);
    any_file(pairs)
}

/// Whether one of the entries from one number to before another numbers a file.
pub(crate) fn any_numbers_file(units: &Units, first: u32, end: u32) -> bool
    requires { end ≤ entries_in (units_of units.now) }
    ensures { result ≡ list_any numbers_file (slice_range (rows_of (units_of units.now)) first end) }
{
    for i in first..end {
        if entry_numbers_file(units, i) {
            return true;
        }
    }
    false
}
