//! Faults of new sections.

ghost use Rattle.std.specs.Prelude.{◌≡◌, ℕ, ◌<◌, ◌^◌, length};
ghost use Rattle.std.specs.Option.{option_copied};
ghost use Rattle.std.specs.List.{range_with_len};
ghost use Rattle.dwz_def_readback.specs.Files.{CommonFile, Run};
ghost use Rattle.dwz_def_output.specs.Refusals.{InFile, IsLargeSection, SectionsFaultBy, too_large_at};
ghost use Rattle.dwz_def_reading.specs.FirstOf.{OfFirst};
ghost use Rattle.dwz_def_output.specs.Changed.{changes_by, if_new};
ghost use Rattle.dwz_def_output.specs.NewFiles.{AreNewBy, IsFound, IsNewFileBy, IsNewOrOldBy};

use dwz_def_output::NewFile;
use dwz_model::{
    Blob, DEBUG_ABBREV, DEBUG_ARANGES, DEBUG_INFO, DEBUG_LINE, DEBUG_LOCLISTS, DEBUG_STR,
    DEBUG_STR_OFFSETS, Fault, Reason, Refusal, Sections,
};

/// A section of so many bytes is too large, and so is a file.
pub(crate) const TOO_LARGE: usize = 0xffff_fff0;

/// The fault of a section with a code that is too large, or with 0 of a file.
pub(crate) fn too_large(section: u8) -> Fault
    ensures { result ≡ too_large_at section }
{
    Fault {
        section,
        at: 0,
        reason: Reason::TooLarge,
    }
}

/// A fault in the file with a number.
pub(crate) fn in_file(file: u32, fault: Fault) -> Refusal
    ensures { result ≡ record { file = file; section = fault.section; at = fault.at; reason = fault.reason } }
{
    Refusal {
        file,
        section: fault.section,
        at: fault.at,
        reason: fault.reason,
    }
}

// The fault of the new section with a code, where it is too large.
fn large(code: u8, bytes: Option<&Blob>) -> Option<Fault>
    ensures { IsFound (OfFirst IsLargeSection (if_new code (option_copied bytes.entry))) result }
{
    match bytes {
        Some(bytes) if bytes.len() >= TOO_LARGE => Some(too_large(code)),
        _ => None,
    }
}

/// The fault of the first new section that is too large.
pub(crate) fn first_large(sections: &Sections) -> Option<Fault>
    ensures { IsFound (OfFirst IsLargeSection (changes_by sections.now None).new) result }
{
    large(DEBUG_INFO, Some(&sections.info))
        .or(large(DEBUG_ABBREV, Some(&sections.abbrev)))
        .or(large(DEBUG_STR, sections.strs.as_ref()))
        .or(large(DEBUG_STR_OFFSETS, sections.offsets.as_ref()))
        .or(large(DEBUG_LINE, sections.line.as_ref()))
        .or(large(DEBUG_LOCLISTS, sections.loclists.as_ref()))
        .or(large(DEBUG_ARANGES, sections.aranges.as_ref()))
}

// The first fault of what is new in a file.
fn new_fault(new: &NewFile) -> Option<Fault>
    ensures { (k : CommonFile) (r : Run) (file : ℕ) → IsNewFileBy k r file new.now → IsFound (SectionsFaultBy k r file) result }
{
    new.narrow.or(first_large(&new.sections))
}

// The same of a file that may stay as it is.
fn fault_of(new: &Option<NewFile>) -> Option<Fault>
    ensures { (k : CommonFile) (r : Run) (file : ℕ) → IsNewOrOldBy k r file new.now → IsFound (SectionsFaultBy k r file) result }
{
    match new {
        Some(new) => new_fault(new),
        None => None,
    }
}

/// The first fault of the new sections of the files, which come in order.
pub(crate) fn sections_refusal(made: &[Option<NewFile>]) -> Option<Refusal>
    requires { length made.now < 2 ^ 32 }
    ensures { (k : CommonFile) (r : Run) (count : ℕ) → AreNewBy k r made.now count
        → IsFound (OfFirst (InFile (SectionsFaultBy k r)) (range_with_len 0 (length made.now))) result }
{
    for (file, new) in made.iter().enumerate() {
        if let Some(fault) = fault_of(new) {
            return Some(in_file(file as u32, fault));
        }
    }
    None
}
