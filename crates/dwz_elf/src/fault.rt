//! Why an ELF file isn't read, and where.

ghost use Rattle.std.specs.Prelude.{◌≡◌, ◌+◌, ◌*◌, ◌≤◌, ◌<◌, [], IfNone, length, slice_get};
ghost use Rattle.std.specs.List.{list_any};
ghost use Rattle.dwz_def_reading.specs.ElfFaults;
ghost use Rattle.dwz_def_reading.specs.ElfHeaders;
ghost use Rattle.dwz_def_reading.specs.ElfHeaders.{headers_end};
ghost use Rattle.dwz_def_reading.specs.ElfReading;
ghost use Rattle.dwz_elf.specs.Manners.{manner_of};

use crate::header::{end_of, has_relocations, is_compressed, is_there};
use crate::manner::Manner;
use dwz_def_reading::{FileHeader, Header, Section};
use dwz_model::{DEBUG_SUP, Fault, Reason, WHOLE_FILE};

// The magic number, class 64, little-endian, version 1.
const IDENTIFICATION: [u8; 7] = [0x7f, 0x45, 0x4c, 0x46, 2, 1, 1];

// How many bytes a file header has, and a section header.
const FILE_HEADER: usize = 64;

const HEADER: u16 = 64;

const ET_EXEC: u16 = 2;

const ET_DYN: u16 = 3;

// Where the fields of the file header are.
const E_TYPE: u64 = 16;

const E_PHOFF: u64 = 32;

const E_SHOFF: u64 = 40;

const E_SHENTSIZE: u64 = 58;

const E_SHNUM: u64 = 60;

const E_SHSTRNDX: u64 = 62;

// A fault of the file at a place.
fn file_fault(reason: Reason, at: u64) -> Fault
    ensures { result ≡ ElfFaults.file_fault reason at }
{
    Fault {
        section: WHOLE_FILE,
        at,
        reason,
    }
}

// The place of the first byte that isn't the wanted one, or is missing.
#[tactic(auto, unfolding(dwz_def_reading::specs::ElfReading::first_other))]
fn first_other(wanted: &[u8], bytes: &[u8]) -> Option<usize>
    ensures { result ≡ ElfReading.first_other 0 wanted.now bytes.now }
{
    for (at, byte) in wanted.iter().enumerate() {
        if at >= bytes.len() {
            return Some(at);
        }
        if bytes[at] != *byte {
            return Some(at);
        }
    }
    None
}

/// The fault of a file that isn't a little-endian ELF64 file with a whole header.
#[tactic(auto, unfolding(dwz_def_reading::specs::ElfReading::identification_fault))]
pub(crate) fn identification_fault(bytes: &[u8]) -> Option<Fault>
    ensures fault { result ≡ ElfReading.identification_fault bytes.now }
    ensures room { IfNone result (64 ≤ length bytes.now) }
{
    if let Some(at) = first_other(&IDENTIFICATION, bytes) {
        return Some(file_fault(Reason::NotElf, at as u64));
    }
    if bytes.len() < FILE_HEADER {
        return Some(file_fault(Reason::NotElf, bytes.len() as u64));
    }
    None
}

/// The first fault of the file header's fields, in a file of that length.
#[tactic(auto, unfolding(dwz_def_reading::specs::ElfReading::field_fault_for))]
pub(crate) fn field_fault(manner: Manner, len: usize, file: &FileHeader) -> Option<Fault>
    ensures fault { result ≡ ElfReading.field_fault_for (manner_of manner) len file.now }
    ensures names { IfNone result (file.now.names < file.now.headers) }
    ensures room { IfNone result (headers_end file.now ≤ len) }
{
    if file.kind != ET_EXEC && file.kind != ET_DYN {
        return Some(file_fault(Reason::FileType, E_TYPE));
    }
    if file.headers_at == 0 {
        return Some(file_fault(Reason::SectionTable, E_SHOFF));
    }
    if file.header_size != HEADER {
        return Some(file_fault(Reason::SectionTable, E_SHENTSIZE));
    }
    if file.headers == 0 || file.headers > manner.most_headers {
        return Some(file_fault(Reason::SectionTable, E_SHNUM));
    }
    if file.names == 0 || file.names >= file.headers {
        return Some(file_fault(Reason::SectionTable, E_SHSTRNDX));
    }
    let headers_end = file.headers_at as u128 + 64 * file.headers as u128;
    if headers_end > len as u128 {
        return Some(file_fault(Reason::SectionTable, E_SHOFF));
    }
    if file.program_headers != 0 && program_headers_end(file) > len as u128 {
        return Some(file_fault(Reason::SectionTable, E_PHOFF));
    }
    None
}

/// Where the program header table ends.
pub(crate) fn program_headers_end(file: &FileHeader) -> u128
    ensures { result ≡ ElfHeaders.program_headers_end file.now }
{
    file.program_headers_at as u128
        + file.program_header_size as u128 * file.program_headers as u128
}

/// The fault of the name table, in a file of that length.
#[tactic(auto, unfolding(dwz_def_reading::specs::ElfReading::names_fault))]
pub(crate) fn names_fault(len: usize, names: &Header) -> Option<Fault>
    ensures fault { result ≡ ElfReading.names_fault len names.now }
    ensures room { IfNone result (ElfHeaders.end_of names.now ≤ len) }
{
    if !is_there(names) || end_of(names) > len as u128 {
        return Some(file_fault(Reason::SectionTable, E_SHSTRNDX));
    }
    None
}

// Whether the section is there and has that code.
fn has_code(section: &Section, code: u8) -> bool
    ensures { result ≡ ElfReading.has_code code section.now }
{
    is_there(&section.header) && section.name.code == code
}

// Whether a section with that code is there.
fn any_has_code(sections: &[Section], code: u8) -> bool
    ensures { result ≡ list_any (ElfReading.has_code code) sections.now }
{
    sections.iter().any(|section| has_code(section, code))
}

// Whether the alignment isn't 0, and no power of two.
fn is_misaligned(header: &Header) -> bool
    ensures { result ≡ ElfReading.is_misaligned header.now }
{
    header.align != 0 && !header.align.is_power_of_two()
}

// Whether the section has bytes that are past the end of the file, or begins inside its header.
fn is_misplaced(len: usize, header: &Header) -> bool
    ensures { result ≡ ElfReading.is_misplaced len header.now }
{
    is_there(header) && header.size > 0 && (end_of(header) > len as u128 || header.offset < 64)
}

// Whether the section has a name with a code that one before it has too, or is the name table.
fn is_misnamed(names: u16, before: &[Section], section: &Section) -> bool
    ensures { result ≡ ElfReading.is_misnamed names before.now section.now }
{
    let code = section.name.code;
    code != 0
        && ((is_there(&section.header) && any_has_code(before, code))
            || before.len() == names as usize)
}

// Whether no file may have the section header, given those before it.
fn is_wrong(len: usize, names: u16, before: &[Section], section: &Section) -> bool
    ensures { result ≡ ElfReading.is_wrong len names before.now section.now }
{
    is_misaligned(&section.header)
        || is_misplaced(len, &section.header)
        || !section.name.ends
        || is_misnamed(names, before, section)
}

/// The first fault of the section headers by themselves, in a file of that length whose name table has that index.
pub(crate) fn headers_fault(len: usize, names: u16, sections: &[Section]) -> Option<Fault>
    ensures { result ≡ ElfReading.first_in (ElfReading.header_fault len names) [] sections.now }
{
    for (index, section) in sections.iter().enumerate() {
        if is_wrong(len, names, &sections[..index], section) {
            return Some(file_fault(Reason::SectionTable, section.header.at));
        }
    }
    None
}

// Whether the section with that index is there, and is written again with other offsets.
fn is_rewritten(sections: &[Section], index: u32) -> bool
    ensures { result ≡ ElfReading.is_rewritten (slice_get sections.now index) }
{
    match sections.get(index as usize) {
        Some(section) => {
            is_there(&section.header) && section.name.code != 0 && section.name.code < 9
        }
        None => false,
    }
}

// Whether the section is an index, which can't be kept.
fn is_index(manner: Manner, section: &Section) -> bool
    ensures { result ≡ ElfFaults.is_index manner.may_have_sup section.now }
{
    section.name.is_index && !(manner.may_have_sup && section.name.code == DEBUG_SUP)
}

// The fault of a section that can't be kept, or read.
#[tactic(auto, unfolding(dwz_def_reading::specs::ElfReading::unkept_fault_for))]
fn unkept_fault(manner: Manner, sections: &[Section], section: &Section) -> Option<Fault>
    ensures { result ≡ ElfReading.unkept_fault_for (manner_of manner) sections.now section.now }
{
    let header = &section.header;
    if !is_there(header) {
        return None;
    }
    if is_index(manner, section)
        || (has_relocations(header) && is_rewritten(sections, header.info))
    {
        return Some(file_fault(Reason::Index, header.at));
    }
    if section.name.is_debug && is_compressed(header) {
        return Some(file_fault(Reason::Compressed, header.at));
    }
    None
}

/// The first fault of a section that can't be kept, or read.
pub(crate) fn kept_fault(manner: Manner, sections: &[Section]) -> Option<Fault>
    ensures { result ≡ ElfReading.first_in (λ before. ElfReading.unkept_fault_for (manner_of manner) sections.now) [] sections.now }
{
    for section in sections {
        let fault = unkept_fault(manner, sections, section);
        if fault.is_some() {
            return fault;
        }
    }
    None
}

/// The fault of a file without debug information.
#[tactic(auto, unfolding(dwz_def_reading::specs::ElfReading::missing_fault))]
pub(crate) fn missing_fault(sections: &[Section]) -> Option<Fault>
    ensures { result ≡ ElfReading.missing_fault sections.now }
{
    if any_has_code(sections, 1) && any_has_code(sections, 2) {
        return None;
    }
    Some(file_fault(Reason::NoDebugInfo, 0))
}
