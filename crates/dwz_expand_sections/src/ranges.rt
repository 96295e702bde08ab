//! Sets of address ranges (DWARF 5, 6.1.2).

ghost use Rattle.std.specs.Prelude.{◌≡◌, ◌<◌, ◌^◌, All, IfOk, IsOk, length, map};
ghost use Rattle.std.specs.List.Sorted.{IsStrictlyIncreasing};
ghost use Rattle.dwz_aranges.specs.Views.{any_unit};
ghost use Rattle.dwz_def_expand.specs.OneFile.{OneFile};
ghost use Rattle.dwz_def_expand.specs.Output.{new_ranges};
ghost use Rattle.dwz_def_reading.specs.Input.{input};
ghost use Rattle.dwz_def_reading.specs.Ranges.{sets_at};
ghost use Rattle.dwz_expand_sections.specs.Ranges.{HasStarts};

use dwz_encode_sections::ranges;
use dwz_expand_layout::LaidUnit;
use dwz_model::NoMemory;
use std::alloc::Global;

// Where units begin.
fn starts_of(alloc: Global, laid: &[LaidUnit]) -> Result<Vec<u32>, NoMemory>
    requires { All (λ u. u.at < 2 ^ 32) laid.now }
    ensures { IfOk result (λ starts. starts.items ≡ map (λ u. u.at) laid.now) }
{
    let mut starts = Vec::with_capacity(alloc, laid.len())?;
    for unit in laid {
        starts.push(unit.at as u32)?;
    }
    Ok(starts)
}

/// `.debug_aranges` of the file: each set has in place of its unit's offset the one after, and all other bytes are as they were.
/// `units` says where the units that aren't partial began, in ascending order, and `laid` where each is now. The section reads, and
/// `.debug_info` is no longer than four bytes can count.
pub fn ranges_after(
    alloc: Global,
    section: &[u8],
    units: &[u32],
    laid: &[LaidUnit],
) -> Result<Vec<u8>, NoMemory>
    requires reads { IsOk (sets_at any_unit (input section.now 0)) }
    requires rises { IsStrictlyIncreasing units.now }
    requires as_many { length laid.now ≡ length units.now }
    requires few { All (λ u. u.at < 2 ^ 32) laid.now }
    ensures { (f : OneFile) → HasStarts f section.now units.now laid.now → IfOk result (λ out. out.items ≡ new_ranges f) }
{
    let starts = starts_of(alloc, laid)?;
    ranges(alloc, section, units, starts.as_slice())
}
