//! The supplementary file.

ghost use Rattle.std.specs.Prelude.{◌≡◌, ◌+◌, ◌^◌, ◌<◌, ◌++◌, ◌∷◌, [], IfOk, OnOk, length, unwrap_or};
ghost use Rattle.dwz_def_reading.specs.ElfLayout.{too_large};
ghost use Rattle.dwz_def_reading.specs.PlainFile.{if_there, plain_section, sections_with, text_section_of};
ghost use Rattle.dwz_def_reading.specs.SupplementaryFile.{common_file, common_sum};
ghost use Rattle.dwz_sup.specs.Seen.{sections_seen};

use crate::plain::{PlainSection, plain_file};
use crate::sup::{checksum, debug_sup};
use dwz_model::{Blob, NoMemory, Sections};
use std::alloc::Global;

// SHF_MERGE and SHF_STRINGS: equal texts may be stored once.
const TEXTS: u64 = 0x30;

// The checksum of the file with these sections.
fn common_sum(sections: &Sections) -> [u8; 32]
    requires { length sections.now.info + length (unwrap_or sections.now.strs []) + length sections.now.abbrev < 2 ^ 61 }
    ensures { result ≡ common_sum sections.now }
{
    match &sections.strs {
        None => checksum(sections.info.as_slice(), &[], sections.abbrev.as_slice()),
        Some(strs) => checksum(
            sections.info.as_slice(),
            strs.as_slice(),
            sections.abbrev.as_slice(),
        ),
    }
}

// Appends a section.
fn push<'a>(
    parts: &mut Vec<PlainSection<'a>>,
    name: &'a [u8],
    bytes: &'a [u8],
) -> Result<(), NoMemory>
    ensures { OnOk result (sections_seen parts.new.items ≡ sections_seen parts.old.items ++ plain_section name.now bytes.now ∷ []) }
{
    parts.push(PlainSection {
        name,
        flags: 0,
        entry_size: 0,
        bytes,
    })?;
    Ok(())
}

// Appends a section, if it is there.
fn push_if_there<'a>(
    parts: &mut Vec<PlainSection<'a>>,
    name: &'a [u8],
    bytes: &'a Option<Blob>,
) -> Result<(), NoMemory>
    ensures { OnOk result (sections_seen parts.new.items ≡ sections_seen parts.old.items ++ if_there (plain_section name.now) bytes.now) }
{
    match bytes {
        None => Ok(()),
        Some(bytes) => push(parts, name, bytes.as_slice()),
    }
}

// Appends `.debug_str`, if it is there.
fn push_texts<'a>(
    parts: &mut Vec<PlainSection<'a>>,
    bytes: &'a Option<Blob>,
) -> Result<(), NoMemory>
    ensures { OnOk result (sections_seen parts.new.items ≡ sections_seen parts.old.items ++ if_there text_section_of bytes.now) }
{
    if let Some(bytes) = bytes {
        parts.push(PlainSection {
            name: b".debug_str",
            flags: TEXTS,
            entry_size: 1,
            bytes: bytes.as_slice(),
        })?;
    }
    Ok(())
}

// The sections in the order of their codes.
fn parts_of<'a>(
    alloc: Global,
    sections: &'a Sections,
    sup: &'a [u8],
) -> Result<Vec<PlainSection<'a>>, NoMemory>
    ensures { IfOk result (λ parts. sections_seen parts.items ≡ sections_with sections.now sup.now) }
{
    let mut parts = Vec::new(alloc);
    push(&mut parts, b".debug_info", sections.info.as_slice())?;
    push(&mut parts, b".debug_abbrev", sections.abbrev.as_slice())?;
    push_texts(&mut parts, &sections.strs)?;
    push_if_there(&mut parts, b".debug_str_offsets", &sections.offsets)?;
    push_if_there(&mut parts, b".debug_line", &sections.line)?;
    push_if_there(&mut parts, b".debug_loclists", &sections.loclists)?;
    push_if_there(&mut parts, b".debug_aranges", &sections.aranges)?;
    push(&mut parts, b".debug_sup", sup)?;
    Ok(parts)
}

/// The supplementary file for a machine (`e_machine`) and with these flags (`e_flags`): an ELF file of the plain layout with the
/// sections that are there, and `.debug_sup` with their checksum.
pub fn common_file(
    alloc: Global,
    machine: u16,
    flags: u32,
    sections: &Sections,
) -> Result<Vec<u8>, NoMemory>
    requires { length (common_file machine flags sections.now) < too_large }
    ensures { IfOk result (λ file. file.items ≡ common_file machine flags sections.now) }
{
    let sum = common_sum(sections);
    let sup = debug_sup(alloc, true, b"", &sum)?;
    let parts = parts_of(alloc, sections, sup.as_slice())?;
    plain_file(alloc, machine, flags, &parts)
}
