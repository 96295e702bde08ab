//! Sections that have too many bytes.

ghost use Rattle.std.specs.Prelude.{◌≡◌, ◌-◌, ◌<◌, ◌^◌, IfNone};
ghost use Rattle.dwz_def_expand.specs.OneFile.{OneFile};
ghost use Rattle.dwz_def_expand.specs.Output.{LargeRefusal};
ghost use Rattle.dwz_def_output.specs.NewFiles.{IsFound};
ghost use Rattle.dwz_def_output.specs.Refusals.{too_large_at};
ghost use Rattle.dwz_expand_sections.specs.Large.{HaveLengths, of_file};

use dwz_model::{DEBUG_ABBREV, DEBUG_INFO, Reason, Refusal};

// A section of so many bytes is too large.
const TOO_LARGE: u64 = 0xffff_fff0;

// The file is refused for its section with that code.
fn too_large(section: u8) -> Refusal
    ensures { result ≡ of_file (too_large_at section) }
{
    Refusal {
        file: 0,
        section,
        at: 0,
        reason: Reason::TooLarge,
    }
}

/// The refusal of the first new section that is too large, where the new `.debug_info` and `.debug_abbrev` have so many bytes. The other
/// sections are as long as they were, and a file that reads is shorter.
pub fn first_large(info: u64, abbrevs: u64) -> Option<Refusal>
    ensures found { (f : OneFile) → HaveLengths f info abbrevs → IsFound (LargeRefusal f) result }
    ensures fits { IfNone result (info < 2 ^ 32 - 16) }
{
    if info >= TOO_LARGE {
        Some(too_large(DEBUG_INFO))
    } else if abbrevs >= TOO_LARGE {
        Some(too_large(DEBUG_ABBREV))
    } else {
        None
    }
}
