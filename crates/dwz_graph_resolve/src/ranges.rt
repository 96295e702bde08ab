//! Sets of address ranges, each of which is of a unit that isn't partial (DWARF 5, 6.1.2).

ghost use Rattle.std.specs.Prelude.{◌≡◌, ◌≤◌, length};
ghost use Rattle.dwz_def_reading.specs.Input.{input};
ghost use Rattle.dwz_def_reading.specs.Files.{is_place_of};
ghost use Rattle.dwz_def_reading.specs.Ranges.{bad_ranges, sets_at};
ghost use Rattle.dwz_model.specs.declared.fault.ReadErr.TheVariants.{Refused};
ghost use Rattle.dwz_graph_resolve.specs.Resolved.{Tells};
ghost use Rattle.dwz_unit.specs.Rows.{units_of};

use dwz_aranges::set_there;
use dwz_codes::DW_UT_PARTIAL;
use dwz_model::{DEBUG_ARANGES, Fault, ReadErr, Reason};
use dwz_unit::Units;

fn bad_set(at: usize) -> ReadErr
    ensures { result ≡ Refused (bad_ranges at) }
{
    ReadErr::Refused(Fault {
        section: DEBUG_ARANGES,
        at: at as u64,
        reason: Reason::BadAranges,
    })
}

// Whether a unit begins at a place that isn't partial.
fn is_unit(units: &Units, place: u32) -> bool
    ensures { result ≡ is_place_of (units_of units.now) place }
{
    let mut low = 0;
    let mut high = units.len();
    while low < high {
        let middle = low + (high - low) / 2;
        let unit = units.unit(middle);
        let at = unit.at;
        if at == place {
            return unit.kind != DW_UT_PARTIAL;
        }
        if at < place {
            low = middle + 1;
        } else {
            high = middle;
        }
    }
    false
}

/// Goes on where each set of address ranges is of a unit that isn't partial. Refused at the first that is bad, or is of none.
pub(crate) fn check_ranges(units: &Units, section: &[u8]) -> Result<(), ReadErr>
    ensures { Tells result (sets_at (is_place_of (units_of units.now)) (input section.now 0)) }
{
    let mut at = 0;
    while at < section.len() {
        let Some((set, behind)) = set_there(section, at) else {
            return Err(bad_set(at));
        };
        if !is_unit(units, set.unit) {
            return Err(bad_set(at));
        }
        at = behind;
    }
    Ok(())
}
