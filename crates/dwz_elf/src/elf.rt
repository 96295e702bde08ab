//! A file's sections.

ghost use Rattle.std.specs.Prelude.{◌≡◌, ◌≤◌, ◌<◌, Err, IfNone, IfOk, List, None, Some, length, map, drop, take};
ghost use Rattle.std.specs.List.{list_any};
ghost use Rattle.dwz_def_reading.specs.ElfFaults.{read_back};
ghost use Rattle.dwz_def_reading.specs.ElfHeaders;
ghost use Rattle.dwz_def_reading.specs.ElfNames;
ghost use Rattle.dwz_def_reading.specs.declared.elf.Header.{Header};
ghost use Rattle.dwz_def_reading.specs.ElfReading.{bytes_in, elf_fault, elf_fault_for, elf_of, range_in, section_range};
ghost use Rattle.dwz_elf.specs.Manners.{manner_of};
ghost use Rattle.dwz_elf.specs.Names.{is_there_called};
ghost use Rattle.dwz_elf.specs.Reads.{GivesOrRefuses, IsWhole, front_fault_for, front_fault_of, rest_fault_for};
ghost use Rattle.dwz_model.specs.declared.fault.Fault.{Fault};
ghost use Rattle.dwz_model.specs.declared.fault.ReadErr.TheVariants.{Refused};

use crate::fault;
use crate::header::{file_header, header_at, headers_from, is_there};
use crate::manner::Manner;
use crate::name::{has_name, names_end, section_of};
use dwz_def_reading::{FileHeader, Header, Section};
use dwz_model::{Fault, NoMemory, ReadErr};
use std::alloc::Global;
use std::marker::Model;

/// The sections of an ELF64 file.
#[derive(Drop)]
pub struct Elf {
    len: usize,
    file: FileHeader,
    sections: Vec<Section>,
}

impl Model for Elf {
    ghost use Rattle.dwz_def_reading.specs.ElfReading.{ElfView};

    ghost Value = { ElfView };

    ghost view = { λ e. record { length = e.len; file = e.file; sections = e.sections.items } };
}

// The first fault of the file header and of the name table.
#[tactic(auto, unfolding(crate::specs::Reads::front_fault_for))]
fn front_fault(manner: Manner, bytes: &[u8]) -> Option<Fault>
    ensures fault { result ≡ front_fault_for (manner_of manner) bytes.now }
    ensures whole { IfNone result (IsWhole bytes.now) }
{
    if let Some(fault) = fault::identification_fault(bytes) {
        return Some(fault);
    }
    let file = file_header(bytes);
    if let Some(fault) = fault::field_fault(manner, bytes.len(), &file) {
        return Some(fault);
    }
    let names = names_header(bytes, &file);
    fault::names_fault(bytes.len(), &names)
}

// The header of the name table.
fn names_header(bytes: &[u8], file: &FileHeader) -> Header
    requires file { file.now ≡ ElfHeaders.file_header bytes.now }
    requires names { file.now.names < file.now.headers }
    requires room { ElfHeaders.headers_end file.now ≤ length bytes.now }
    ensures { result ≡ ElfNames.names_header bytes.now }
{
    header_at(bytes, file.headers_at as usize + 64 * file.names as usize)
}

// The sections with those headers.
fn name_sections(alloc: Global, table: &[u8], headers: &[Header]) -> Result<Vec<Section>, NoMemory>
    ensures { IfOk result (λ sections. sections.items ≡ map (ElfNames.section_named table.now) headers.now) }
{
    let end = names_end(table);
    headers
        .iter()
        .map(|header| section_of(table, end, header))
        .collect(alloc)
}

// The sections of a file whose tables are whole.
fn sections_of(alloc: Global, bytes: &[u8], file: &FileHeader) -> Result<Vec<Section>, NoMemory>
    requires file { file.now ≡ ElfHeaders.file_header bytes.now }
    requires whole { IsWhole bytes.now }
    ensures { IfOk result (λ sections. sections.items ≡ ElfNames.sections_in bytes.now) }
{
    let names = names_header(bytes, file);
    let start = names.offset as usize;
    let table = &bytes[start..start + names.size as usize];
    let headers = headers_from(
        alloc,
        bytes,
        file.headers_at as usize,
        file.headers as usize,
    )?;
    name_sections(alloc, table, &headers)
}

// The first fault of the section headers, in a file of that length whose name table has that index.
#[tactic(auto, unfolding(crate::specs::Reads::rest_fault_for))]
fn rest_fault(manner: Manner, len: usize, names: u16, sections: &[Section]) -> Option<Fault>
    ensures { result ≡ rest_fault_for (manner_of manner) len names sections.now }
{
    if let Some(fault) = fault::headers_fault(len, names, sections) {
        return Some(fault);
    }
    if let Some(fault) = fault::kept_fault(manner, sections) {
        return Some(fault);
    }
    fault::missing_fault(sections)
}

// Reads the sections of a file in that manner.
fn read_in(alloc: Global, manner: Manner, bytes: &[u8]) -> Result<Elf, ReadErr>
    ensures gives { GivesOrRefuses result (elf_fault_for (manner_of manner) bytes.now) (elf_of bytes.now) }
    ensures at_once { (f : Fault) → front_fault_for (manner_of manner) bytes.now ≡ Some f → result ≡ Err (Refused f) }
{
    if let Some(fault) = front_fault(manner, bytes) {
        return Err(ReadErr::Refused(fault));
    }
    let file = file_header(bytes);
    let sections = sections_of(alloc, bytes, &file)?;
    if let Some(fault) = rest_fault(manner, bytes.len(), file.names, &sections) {
        return Err(ReadErr::Refused(fault));
    }
    Ok(Elf {
        len: bytes.len(),
        file,
        sections,
    })
}

impl Elf {
    /// Reads the sections of a file. Refused with its first fault, and read exactly where it has none:
    ///
    /// - `NotElf`, at the first byte of the identification that is wrong or missing, else at the length of a file that is
    ///   too short for a header.
    /// - `FileType`, at 16: neither an executable nor a shared object.
    /// - `SectionTable`, at the field of the file header or at the section header that is wrong.
    /// - `Index` and `Compressed`, at the section header, the one before the other: a section that can't be kept, and a
    ///   `.debug_` section that is compressed.
    /// - `NoDebugInfo`, at 0: `.debug_info` or `.debug_abbrev` isn't there.
    ///
    /// All places are counted from the first byte of the file. The faults of the identification, of the file header and of
    /// the name table come before any memory is taken.
    pub fn read(alloc: Global, bytes: &[u8]) -> Result<Elf, ReadErr>
        ensures gives { GivesOrRefuses result (elf_fault bytes.now) (elf_of bytes.now) }
        ensures at_once { (f : Fault) → front_fault_of bytes.now ≡ Some f → result ≡ Err (Refused f) }
    {
        read_in(alloc, Manner::by_itself(), bytes)
    }

    /// Reads the sections of a file that may have been written by this tool: as `read`, but `.debug_sup` may be there, and the
    /// file may have one section header more, which was added for it.
    pub fn read_with_sup(alloc: Global, bytes: &[u8]) -> Result<Elf, ReadErr>
        ensures gives { GivesOrRefuses result (elf_fault_for read_back bytes.now) (elf_of bytes.now) }
        ensures at_once { (f : Fault) → front_fault_for read_back bytes.now ≡ Some f → result ≡ Err (Refused f) }
    {
        read_in(alloc, Manner::read_back(), bytes)
    }

    /// The machine that the file is for.
    pub fn machine(&self) -> u16
        ensures { result ≡ self.now.file.machine }
    {
        self.file.machine
    }

    /// The processor's flags in the file header.
    pub fn flags(&self) -> u32
        ensures { result ≡ self.now.file.flags }
    {
        self.file.flags
    }

    /// The offset in the file and the size of the section with a code, in bytes. None exactly where no section with that
    /// code is there: the file has none, or it has no content in the file. 0 is no section's code.
    pub fn section(&self, code: u8) -> Option<(u64, u64)>
        ensures { result ≡ section_range self.now.sections code }
    {
        range_of(&self.sections, code)
    }

    /// The bytes of the section with a code, in the file that the sections were read from. A section that isn't there counts
    /// as empty.
    pub fn content<'a>(&self, file: &'a [u8], code: u8) -> &'a [u8]
        ensures { result.now ≡ bytes_in file.now (section_range self.now.sections code) }
    {
        match self.section(code) {
            None => &[],
            Some((at, size)) => run_of(run_from(file, at), size),
        }
    }

    /// Whether a section with that name has a content in the file that the sections were read from. The name is short.
    pub fn has_section(&self, file: &[u8], name: &[u8]) -> bool
        requires { length name.now < 24 }
        ensures { self.now ≡ elf_of file.now → elf_fault file.now ≡ None
            → result ≡ list_any (is_there_called (ElfNames.name_table file.now) name.now) (ElfHeaders.headers_in file.now) }
    {
        let Some(names) = self.sections.get(self.file.names as usize) else {
            return false;
        };
        let table = run_of(run_from(file, names.header.offset), names.header.size);
        any_called(table, &self.sections, name)
    }

    pub(crate) fn file(&self) -> FileHeader
        ensures { result ≡ self.now.file }
    {
        self.file
    }

    pub(crate) fn sections(&self) -> &[Section]
        ensures { result.now ≡ self.now.sections }
    {
        &self.sections
    }
}

// The bytes from a place on, as far as there are some.
fn run_from(bytes: &[u8], at: u64) -> &[u8]
    ensures { result.now ≡ drop at bytes.now }
{
    if at < bytes.len() as u64 {
        &bytes[at as usize..]
    } else {
        &[]
    }
}

// So many bytes, or all where there are fewer.
fn run_of(bytes: &[u8], size: u64) -> &[u8]
    ensures { result.now ≡ take size bytes.now }
{
    if size < bytes.len() as u64 {
        &bytes[..size as usize]
    } else {
        bytes
    }
}

// The range of the section with a code.
#[tactic(auto, unfolding(dwz_def_reading::specs::ElfReading::section_range))]
fn range_of(sections: &[Section], code: u8) -> Option<(u64, u64)>
    ensures { result ≡ section_range sections.now code }
{
    if code == 0 {
        return None;
    }
    first_range(sections, code)
}

// The range of the first section with a code that is there.
fn first_range(sections: &[Section], code: u8) -> Option<(u64, u64)>
    ensures { result ≡ range_in sections.now code }
{
    for section in sections {
        if is_there(&section.header) && section.name.code == code {
            return Some((section.header.offset, section.header.size));
        }
    }
    None
}

// Whether a section has a content, and that name, which is short. The names of all stand in the table.
fn any_called(table: &[u8], sections: &[Section], name: &[u8]) -> bool
    requires { length name.now < 24 }
    ensures { (headers : List Header) → sections.now ≡ map (ElfNames.section_named table.now) headers
        → result ≡ list_any (is_there_called table.now name.now) headers }
{
    for section in sections {
        if is_there(&section.header) && has_name(table, section, name) {
            return true;
        }
    }
    false
}
