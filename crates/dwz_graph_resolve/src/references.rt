//! Entries that values name (DWARF 5, 7.5.5, class reference).

ghost use Rattle.std.specs.Prelude.{◌≡◌, ℕ, ◌^◌, ◌<◌, ◌≤◌, true, false, List, Option, slice_range};
ghost use Rattle.dwz_def_reading.specs.Faults.{info_fault};
ghost use Rattle.dwz_def_reading.specs.Units.{entries_in};
ghost use Rattle.dwz_def_reading.specs.Entries.{RawAttr};
ghost use Rattle.dwz_def_reading.specs.Meanings.{Common, offset_of};
ghost use Rattle.dwz_def_reading.specs.Meant.{common_entry, entry_among};
ghost use Rattle.dwz_model.specs.declared.fault.Reason.TheVariants.{BadReference};
ghost use Rattle.dwz_model.specs.declared.fault.ReadErr.TheVariants.{Refused};
ghost use Rattle.dwz_graph_resolve.specs.Quick.{AddsEntry};
ghost use Rattle.dwz_graph_resolve.specs.Resolved.{NamesEntry, places};
ghost use Rattle.dwz_graph_resolve.specs.Surroundings.{common_view, entries_among};
ghost use Rattle.dwz_unit.specs.Rows.{units_of};

use crate::find::{find_again, find_hinted};
use crate::hints::Hints;
use crate::surroundings::CommonPart;
use dwz_model::{DEBUG_INFO, Fault, ReadErr, Reason};
use dwz_unit::Units;

/// No entry begins where a value says.
pub(crate) fn bad_reference(at: u64) -> ReadErr
    ensures { result ≡ Refused (info_fault at BadReference) }
{
    ReadErr::Refused(Fault {
        section: DEBUG_INFO,
        at,
        reason: Reason::BadReference,
    })
}

/// Adds the entry that begins at a place, among those from `first` to before `end`. `at` is where the value stands that names it.
#[inline(always)]
pub(crate) fn add_entry(
    units: &Units,
    first: u32,
    end: u32,
    at: u64,
    place: u128,
    refs: &mut Vec<u32>,
    hints: &mut Hints,
) -> Result<(), ReadErr>
    requires { end ≤ entries_in (units_of units.now) }
    ensures { (common : Option (Common ℕ)) (own : List ℕ) → slice_range (places (units_of units.now)) first end ≡ own
        → NamesEntry common (units_of units.now) refs.old.items refs.new.items result (entry_among (λ n. n) own at place) }
{
    match find_again(units, first, end, place, hints) {
        Some(number) => {
            refs.push(number)?;
            Ok(())
        }
        None => Err(bad_reference(at)),
    }
}

/// Adds the entry that begins at a place, where a hint says which it is.
#[inline(always)]
pub(crate) fn add_hinted(
    units: &Units,
    first: u32,
    end: u32,
    place: u128,
    refs: &mut Vec<u32>,
    hints: &Hints,
) -> bool
    requires { end ≤ entries_in (units_of units.now) }
    ensures added { result ≡ true → (common : Option (Common ℕ)) (own : List ℕ) (at : ℕ) → slice_range (places (units_of units.now)) first end ≡ own
        → AddsEntry common (units_of units.now) refs.old.items refs.new.items (entry_among (λ n. n) own at place) }
    ensures same { result ≡ false → refs.new.items ≡ refs.old.items }
{
    match find_hinted(units, first, end, place, hints) {
        None => false,
        Some(number) => match refs.push(number) {
            Ok(()) => true,
            Err(_) => false,
        },
    }
}

/// Adds the entry of the common file that begins at a place. Its number stands behind those of the file's own entries.
#[inline(never)]
pub(crate) fn add_common(
    units: &Units,
    common: Option<CommonPart>,
    at: u64,
    place: u128,
    refs: &mut Vec<u32>,
    hints: &mut Hints,
) -> Result<(), ReadErr>
    requires { entries_among (common_view common) (units_of units.now) < 2 ^ 32 }
    ensures { (a : RawAttr) → a.at ≡ at → offset_of a ≡ place
        → NamesEntry (common_view common.entry) (units_of units.now) refs.old.items refs.new.items result
        (common_entry a (common_view common.entry)) }
{
    let Some(common) = common else {
        return Err(bad_reference(at));
    };
    match find_again(common.units, 0, common.units.entries(), place, hints) {
        Some(number) => {
            refs.push(units.entries() + number)?;
            Ok(())
        }
        None => Err(bad_reference(at)),
    }
}
