//! The new file.

ghost use Rattle.std.specs.Prelude.{◌≡◌, ◌+◌, ◌-◌, ◌<◌, ◌^◌};
ghost use Rattle.dwz_model.specs.declared.fault.Reason.TheVariants.{Layout as of_layout, TooLarge as of_size};
ghost use Rattle.dwz_def_expand.specs.OneFile.{OneFile, ReadsOne};
ghost use Rattle.dwz_def_expand.specs.Output.{new_sections};
ghost use Rattle.dwz_expand_file.specs.Answers.{AnswersFile};

use crate::bytes::look_at;
use crate::made::rebuild_file;
use crate::without::{Moved, without_sup};
use dwz_elf::Elf;
use dwz_model::{Fault, ReadErr, Reason, Sections};
use std::alloc::Global;

// A fault at a section header of the moved ones, at the same header of the file that was read.
fn at_header(moved: &Moved, fault: Fault) -> Fault
    ensures header { fault.reason ≡ of_layout → moved.now.began + (fault.at - moved.now.headers_at) < 2 ^ 64
        → result ≡ record { section = fault.section; at = moved.now.began + (fault.at - moved.now.headers_at); reason = fault.reason } }
    ensures whole { fault.reason ≡ of_size → result ≡ fault }
{
    match fault.reason {
        Reason::Layout => {
            let behind = fault.at.saturating_sub(moved.headers_at);
            Fault {
                section: fault.section,
                at: moved.began.saturating_add(behind),
                reason: fault.reason,
            }
        }
        _ => fault,
    }
}

/// The bytes of a file that was read, without `.debug_sup` and with its new sections. `input` is the file as it was read.
///
/// Refused with `Layout`, section 0, at the first section header of the file that was read whose section begins among the loaded bytes, and
/// gets another content or ends behind them. Refused with `TooLarge`, section 0, at 0, where it isn't refused so and the new file would have
/// 2^32 - 16 bytes or more.
pub fn expanded_file(alloc: Global, input: &[u8], sections: Sections) -> Result<Vec<u8>, ReadErr>
    ensures { (f : OneFile) → ReadsOne f → input.now ≡ f.file.bytes → sections ≡ new_sections f
        → AnswersFile (λ out. out.items) input.now sections result }
{
    look_at(input);
    let _read = Elf::read_with_sup(alloc, input)?;
    let moved = without_sup(alloc, input)?;
    let elf = Elf::read_with_sup(alloc, &moved.bytes)?;
    match rebuild_file(alloc, &moved.bytes, &elf, sections) {
        Ok(out) => Ok(out),
        Err(ReadErr::Refused(fault)) => Err(ReadErr::Refused(at_header(&moved, fault))),
        Err(ReadErr::NoMemory) => Err(ReadErr::NoMemory),
    }
}
