//! The type of a type unit (DWARF 5, 3.1.4).

ghost use Rattle.std.specs.Prelude.{◌≡◌, ℕ, ◌+◌, ◌≤◌, List, slice_range};
ghost use Rattle.dwz_def_reading.specs.Faults.{info_fault};
ghost use Rattle.dwz_def_reading.specs.Units.{RawUnit, entries_in};
ghost use Rattle.dwz_def_reading.specs.Meanings;
ghost use Rattle.dwz_model.specs.declared.fault.Reason.TheVariants.{BadReference};
ghost use Rattle.dwz_graph_resolve.specs.Named.{kind_named};
ghost use Rattle.dwz_graph_resolve.specs.Resolved.{Checks, IsDone, IsHere, places};
ghost use Rattle.dwz_graph_resolve.specs.Surroundings.{scope_within};
ghost use Rattle.dwz_unit.specs.Rows.{unit_shown, units_of};

use crate::find::find;
use crate::here::Here;
use crate::surroundings::Surroundings;
use dwz_codes::DW_UT_TYPE;
use dwz_model::{DEBUG_INFO, Fault, ReadErr, Reason};
use dwz_unit::{RawUnit as RawUnitOfCode, Units};

// The type of a unit is one of its entries.
fn check_type(units: &Units, first: u32, end: u32, at: u32, type_offset: u32) -> Result<(), ReadErr>
    requires { end ≤ entries_in (units_of units.now) }
    ensures { (own : List ℕ) → slice_range (places (units_of units.now)) first end ≡ own
        → Checks result (Meanings.has (at + type_offset) own) (info_fault (at + 20) BadReference) }
{
    match find(units, first, end, at as u128 + type_offset as u128) {
        Some(_) => Ok(()),
        None => Err(ReadErr::Refused(Fault {
            section: DEBUG_INFO,
            at: at as u64 + 20,
            reason: Reason::BadReference,
        })),
    }
}

/// The type of a type unit is one of its entries.
pub(crate) fn check_kind(
    units: &Units,
    around: &Surroundings,
    here: &Here,
    unit: &RawUnitOfCode,
) -> Result<(), ReadErr>
    requires { here.now.end ≤ entries_in (units_of units.now) }
    ensures { (u : RawUnit) → IsHere (units_of units.now) u here.now → unit_shown unit.now.first u ≡ unit.now
        → IsDone result (kind_named (scope_within around.now (units_of units.now) u) u.kind) }
{
    let _around = around;
    if unit.kind != DW_UT_TYPE {
        return Ok(());
    }
    check_type(units, here.first, here.end, here.at, unit.type_offset)
}
