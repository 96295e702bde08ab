//! Why a file whose values can all be copied isn't written: an operand is too narrow, or a section too large.

ghost use Rattle.std.specs.Prelude.{◌≡◌, ◌-◌, ◌<◌, ◌^◌, IfNone, List, map};
ghost use Rattle.dwz_def_expand.specs.OneFile.{OneFile};
ghost use Rattle.dwz_def_expand.specs.Output.{FirstTooNarrow, Spoken};
ghost use Rattle.dwz_def_output.specs.NewFiles.{IsFound};
ghost use Rattle.dwz_def_output.specs.Refusals.{InFile};
ghost use Rattle.dwz_expand_sections.specs.Large.{HaveLengths};
ghost use Rattle.dwz_expand_sections.specs.Narrow.{FirstPlace, operand_after};
ghost use Rattle.dwz_expand_sections.specs.Refusals.{HavePlaces, SizeRefusal};

use crate::large::first_large;
use crate::narrow::narrow_fault;
use dwz_model::{DEBUG_INFO, DEBUG_LOCLISTS, Refusal};

/// The places of the first operands that are too narrow, in bytes from the first of their section.
#[derive(Clone, Copy, Debug)]
pub struct NarrowPlaces {
    /// In the values of the file.
    pub own: Option<u64>,
    /// In its location lists.
    pub listed: Option<u64>,
    /// In the values of its common file.
    pub common: Option<u64>,
}

// The refusal for the first operand of a section that is too narrow.
fn narrow_in(file: u32, section: u8, first: Option<u64>) -> Option<Refusal>
    ensures { (f : OneFile) (spoken : List Spoken) → FirstPlace (map (operand_after f) spoken) first
        → IsFound (InFile (λ number. FirstTooNarrow f section spoken) file) result }
{
    match narrow_fault(section, first) {
        None => None,
        Some(fault) => Some(Refusal {
            file,
            section: fault.section,
            at: fault.at,
            reason: fault.reason,
        }),
    }
}

/// The first refusal of a file whose values can all be copied: of the first operand that is too narrow, in its values, in its location
/// lists, or in the values of its common file; or else of the first new section that is too large, where the new `.debug_info` and
/// `.debug_abbrev` have so many bytes. Where there is none, places in the new `.debug_info` have four bytes. The file has the number 0, and
/// its common file the number 1.
pub fn size_refusal(places: &NarrowPlaces, info: u64, abbrevs: u64) -> Option<Refusal>
    ensures found { (f : OneFile) → HavePlaces f places.now → HaveLengths f info abbrevs → IsFound (SizeRefusal f) result }
    ensures fits { IfNone result (info < 2 ^ 32 - 16) }
{
    let common = narrow_in(1, DEBUG_INFO, places.common).or(first_large(info, abbrevs));
    let listed = narrow_in(0, DEBUG_LOCLISTS, places.listed).or(common);
    narrow_in(0, DEBUG_INFO, places.own).or(listed)
}
