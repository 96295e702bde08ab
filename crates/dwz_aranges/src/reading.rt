//! All sets of a section.

ghost use Rattle.std.specs.Prelude.{◌≡◌};
ghost use Rattle.dwz_bytes.specs.Input.{input};
ghost use Rattle.dwz_def_reading.specs.Faults.{Answers};
ghost use Rattle.dwz_def_reading.specs.Ranges.{bad_ranges, sets_at};
ghost use Rattle.dwz_aranges.specs.Views.{any_unit, set_views};

use crate::sets::{Set, set_there};
use dwz_model::{DEBUG_ARANGES, DwzList, Fault, ReadErr, Reason};
use std::alloc::Global;

/// The sets of a section, in order.
pub type Sets = DwzList<Set>;

// The set at a place is bad.
fn bad_at(at: usize) -> Fault
    ensures { result ≡ bad_ranges at }
{
    Fault {
        section: DEBUG_ARANGES,
        at: at as u64,
        reason: Reason::BadAranges,
    }
}

/// Reads `.debug_aranges`, a row of sets without gaps (DWARF 5, 6.1.2), whichever units there are. Refused as `BadAranges`
/// exactly at the first set that isn't whole in the section, is shorter than its header, or is of another version than 2.
pub fn read(alloc: Global, section: &[u8]) -> Result<Sets, ReadErr>
    ensures { Answers set_views result (sets_at any_unit (input section.now 0)) }
{
    let mut sets = Vec::new(alloc);
    let mut at = 0;
    while at < section.len() {
        match set_there(section, at) {
            None => return Err(ReadErr::Refused(bad_at(at))),
            Some((set, behind)) => {
                sets.push(set)?;
                at = behind;
            }
        }
    }
    Ok(Sets::new(sets))
}
