//! The same file with some sections replaced.
//!
//! A new content for a section that has one already replaces it. Both faults of laying out come before any byte is written, the section
//! inside loaded bytes before the file that is too large.

ghost use Rattle.std.specs.Prelude.{◌≡◌, ℕ, ◌<◌, ◌≤◌, [], None, Some, IsSome, IsNone, IfOk, OnOk, OnErr};
ghost use Rattle.dwz_def_reading.specs.ElfLayout;
ghost use Rattle.dwz_def_reading.specs.ElfReading.{section_range};
ghost use Rattle.dwz_elf.specs.Rebuilds.{Finishes, IsWritten, changes_of, replaced, with_sup};

use crate::edits::{Edits, sup_bytes};
use crate::elf::Elf;
use crate::layout::{self, TOO_LARGE};
use crate::output::{file_of, new_count};
use dwz_def_reading::NewContent;
use dwz_model::{Blob, Fault, NoMemory, ReadErr, Reason, WHOLE_FILE};
use std::alloc::Global;
use std::marker::Model;

/// A file that is to be made from another one: its bytes that are loaded stay, and the other sections are written again
/// behind them, some with a new content.
#[derive(Drop)]
pub struct Rebuild<'a> {
    elf: &'a Elf,
    edits: Edits,
}

impl<'a> Model for Rebuild<'a> {
    ghost use Rattle.dwz_elf.specs.Rebuilds.{RebuildView, changes_of};

    ghost Value = { RebuildView };

    ghost view = { λ r. record { elf = r.elf.now; changes = changes_of r.edits } };
}

impl<'a> Rebuild<'a> {
    /// The file with nothing new.
    pub fn new(alloc: Global, elf: &'a Elf) -> Rebuild<'a>
        ensures file { result.elf ≡ elf.now }
        ensures none { result.changes.new ≡ [] }
        ensures no_sup { result.changes.sup ≡ None }
    {
        Rebuild {
            elf,
            edits: Edits {
                replaced: Vec::new(alloc),
                sup: None,
            },
        }
    }

    /// Gives the section with a code, which is there, a new content, in place of one that was given before. After an error
    /// nothing has changed.
    pub fn replace(&mut self, code: u8, bytes: Blob) -> Result<(), NoMemory>
        requires { IsSome (section_range self.old.elf.sections code) }
        ensures ok { OnOk result (self.new ≡ replaced code bytes self.old) }
        ensures err { OnErr result (self.new ≡ self.old) }
    {
        self.edits.replaced.insert(0, NewContent { code, bytes })?;
        Ok(())
    }

    /// Adds `.debug_sup`, where none was added. It comes to be the last section. After an error nothing has changed.
    pub fn add_sup(&mut self, bytes: Blob) -> Result<(), NoMemory>
        requires { self.old.changes.sup ≡ None }
        ensures ok { OnOk result (self.new ≡ with_sup bytes self.old) }
        ensures err { OnErr result (self.new ≡ self.old) }
    {
        self.edits.sup = Some(bytes);
        Ok(())
    }

    /// The file's bytes. `input` is what the sections were read from.
    ///
    /// Refused with `Layout`, section 0, at the first section header whose section begins among the bytes that stay, and
    /// gets another content or ends behind them; the name table gets another content where `.debug_sup` was added. Refused
    /// with `TooLarge`, section 0, at 0, where it isn't refused so and the file would have 2^32 - 16 bytes or more.
    pub fn finish(&self, alloc: Global, input: &[u8]) -> Result<Vec<u8>, ReadErr>
        ensures { Finishes (λ out. out.items) self.now input.now result }
    {
        let keep = layout::keep_end(self.elf);
        if let Some(fault) = layout::layout_fault(self.elf, &self.edits, keep) {
            return Err(ReadErr::Refused(fault));
        }
        let order = layout::order_of(alloc, self.elf, keep)?;
        match write_in_order(alloc, self.elf, &self.edits, input, keep, &order)? {
            Some(out) => Ok(out),
            None => Err(ReadErr::Refused(Fault {
                section: WHOLE_FILE,
                at: 0,
                reason: Reason::TooLarge,
            })),
        }
    }
}

// The file whose sections are in that order. None where it is too large.
fn write_in_order(
    alloc: Global,
    elf: &Elf,
    edits: &Edits,
    input: &[u8],
    keep: u128,
    order: &[(u64, usize)],
) -> Result<Option<Vec<u8>>, NoMemory>
    requires { keep ≡ ElfLayout.keep_end elf.now }
    ensures { IfOk result (IsWritten (λ out. out.items) elf.now (changes_of edits.now) input.now order.now) }
{
    if keep >= TOO_LARGE as u128 {
        return Ok(None);
    }
    let keep = keep as u64;
    let Some(places) = layout::place(alloc, elf, edits, input, keep, order)? else {
        return Ok(None);
    };
    let sup_end = places.end as u128 + sup_bytes(edits).len() as u128;
    if sup_end >= TOO_LARGE as u128 {
        return Ok(None);
    }
    let headers_at = layout::up(sup_end as u64, 8);
    if headers_at + 64 * new_count(elf, edits) as u128 >= TOO_LARGE as u128 {
        return Ok(None);
    }
    let out = file_of(alloc, elf, edits, input, keep, &places, headers_at as u64)?;
    Ok(Some(out))
}
