//! The file header and the section headers, as they are stored (ELF-64 Object File Format, "ELF Header" and "Sections").

ghost use Rattle.std.specs.Prelude.{◌≡◌, ◌≤◌, ◌+◌, ◌*◌, IfOk, length};
ghost use Rattle.dwz_def_reading.specs.ElfHeaders;
ghost use Rattle.dwz_def_reading.specs.ElfHeaders.{number_at};

use dwz_bytes::Cursor;
use dwz_def_reading::{FileHeader, Header};
use dwz_model::NoMemory;
use std::alloc::Global;

const SHT_NULL: u32 = 0;

const SHT_NOBITS: u32 = 8;

const SHF_ALLOC: u64 = 2;

// The number of two bytes at a place.
#[tactic(auto, unfolding(dwz_def_reading::specs::ElfHeaders::number_at))]
fn u16_at(bytes: &[u8], at: usize) -> u16
    requires { at + 2 ≤ length bytes.now }
    ensures { result ≡ number_at bytes.now at 2 }
{
    let mut cursor = Cursor::new(bytes, at);
    let Ok(number) = cursor.u16() else {
        unreachable!()
    };
    number
}

// The number of four bytes at a place.
#[tactic(auto, unfolding(dwz_def_reading::specs::ElfHeaders::number_at))]
fn u32_at(bytes: &[u8], at: usize) -> u32
    requires { at + 4 ≤ length bytes.now }
    ensures { result ≡ number_at bytes.now at 4 }
{
    let mut cursor = Cursor::new(bytes, at);
    let Ok(number) = cursor.u32() else {
        unreachable!()
    };
    number
}

// The number of eight bytes at a place.
#[tactic(auto, unfolding(dwz_def_reading::specs::ElfHeaders::number_at))]
fn u64_at(bytes: &[u8], at: usize) -> u64
    requires { at + 8 ≤ length bytes.now }
    ensures { result ≡ number_at bytes.now at 8 }
{
    let mut cursor = Cursor::new(bytes, at);
    let Ok(number) = cursor.u64() else {
        unreachable!()
    };
    number
}

/// The header at the front of a file that has one.
pub(crate) fn file_header(bytes: &[u8]) -> FileHeader
    requires { 64 ≤ length bytes.now }
    ensures { result ≡ ElfHeaders.file_header bytes.now }
{
    FileHeader {
        kind: u16_at(bytes, 16),
        machine: u16_at(bytes, 18),
        program_headers_at: u64_at(bytes, 32),
        headers_at: u64_at(bytes, 40),
        flags: u32_at(bytes, 48),
        program_header_size: u16_at(bytes, 54),
        program_headers: u16_at(bytes, 56),
        header_size: u16_at(bytes, 58),
        headers: u16_at(bytes, 60),
        names: u16_at(bytes, 62),
    }
}

/// The section header at a place.
pub(crate) fn header_at(bytes: &[u8], at: usize) -> Header
    requires { at + 64 ≤ length bytes.now }
    ensures { result ≡ ElfHeaders.header_at bytes.now at }
{
    Header {
        at: at as u64,
        name: u32_at(bytes, at),
        kind: u32_at(bytes, at + 4),
        flags: u64_at(bytes, at + 8),
        offset: u64_at(bytes, at + 24),
        size: u64_at(bytes, at + 32),
        info: u32_at(bytes, at + 44),
        align: u64_at(bytes, at + 48),
    }
}

/// `count` section headers, from a place on.
pub(crate) fn headers_from(
    alloc: Global,
    bytes: &[u8],
    first: usize,
    count: usize,
) -> Result<Vec<Header>, NoMemory>
    requires { first + 64 * count ≤ length bytes.now }
    ensures { IfOk result (λ v. v.items ≡ ElfHeaders.headers_from bytes.now first count) }
{
    let mut headers = Vec::with_capacity(alloc, count)?;
    for index in 0..count {
        headers.push(header_at(bytes, first + 64 * index))?;
    }
    Ok(headers)
}

/// Whether the section has a content in the file.
pub(crate) fn is_there(header: &Header) -> bool
    ensures { result ≡ ElfHeaders.is_there header.now }
{
    header.kind != SHT_NULL && header.kind != SHT_NOBITS
}

/// Whether the section is loaded with the program.
pub(crate) fn is_loaded(header: &Header) -> bool
    ensures { result ≡ ElfHeaders.is_loaded header.now }
{
    header.flags & SHF_ALLOC != 0
}

/// Where the section ends.
pub(crate) fn end_of(header: &Header) -> u128
    ensures { result ≡ ElfHeaders.end_of header.now }
{
    header.offset as u128 + header.size as u128
}
