//! Texts that values name (DWARF 5, 7.5.5, class string).

ghost use Rattle.std.specs.Prelude.{◌≡◌};
ghost use Rattle.dwz_def_reading.specs.Faults.{info_fault};
ghost use Rattle.dwz_model.specs.declared.fault.Reason.TheVariants.{BadString};
ghost use Rattle.dwz_model.specs.declared.fault.ReadErr.TheVariants.{Refused};
ghost use Rattle.dwz_graph_resolve.specs.Resolved.{Checks, has_slot_text, sources_view};
ghost use Rattle.dwz_graph_resolve.specs.Surroundings.{common_view, has_common_text};

use crate::sections::{InputSections, slot};
use crate::surroundings::CommonPart;
use dwz_model::{DEBUG_INFO, Fault, ReadErr, Reason};

/// No text stands where a value says.
pub(crate) fn bad_string(at: u64) -> ReadErr
    ensures { result ≡ Refused (info_fault at BadString) }
{
    ReadErr::Refused(Fault {
        section: DEBUG_INFO,
        at,
        reason: Reason::BadString,
    })
}

/// Goes on where a text is there.
#[inline(always)]
pub(crate) fn check_text(is_there: bool, at: u64) -> Result<(), ReadErr>
    ensures { Checks result is_there (info_fault at BadString) }
{
    if is_there {
        Ok(())
    } else {
        Err(bad_string(at))
    }
}

/// Whether a text stands at the offset that is in a slot.
#[inline(always)]
pub(crate) fn has_slot_text(sections: &InputSections, base: Option<u32>, index: u128) -> bool
    ensures { result ≡ has_slot_text (sources_view sections.now) base index }
{
    let Some(base) = base else {
        return false;
    };
    let Some(offset) = slot(sections.offsets, base as u128, index) else {
        return false;
    };
    sections.strs.has(offset as u128)
}

/// Whether a text of the common file stands at an offset, if there is one.
pub(crate) fn has_common_text(common: Option<CommonPart>, offset: u128) -> bool
    ensures { result ≡ has_common_text (common_view common.entry) offset }
{
    match common {
        None => false,
        Some(common) => common.strs.has(offset),
    }
}
