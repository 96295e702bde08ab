//! A file of which `.debug_sup` isn't kept.

ghost use Rattle.std.specs.Prelude.{◌≡◌, ◌<◌, ◌^◌, ◌++◌, ◌==◌, if◌then◌else◌, IfOk, List, None, OnOk, ℕ, drop, length, map, take};
ghost use Rattle.dwz_def_expand.specs.Dropped;
ghost use Rattle.dwz_def_reading.specs.ElfFaults.{read_back};
ghost use Rattle.dwz_def_reading.specs.ElfHeaders;
ghost use Rattle.dwz_def_reading.specs.ElfLayout;
ghost use Rattle.dwz_def_reading.specs.ElfNames;
ghost use Rattle.dwz_def_reading.specs.ElfNames.{section_named};
ghost use Rattle.dwz_def_reading.specs.ElfReading.{ElfView, elf_fault_for};
ghost use Rattle.dwz_def_reading.specs.Values.{AreBytes};
ghost use Rattle.dwz_elf.specs.Reads.{IsWhole};
ghost use Rattle.dwz_expand_file.specs.Without.{IsMoved};

use crate::bytes::{front, put_zeros};
use crate::headers::{end_of, file_header, header_at, headers_from, is_loaded, is_there};
use crate::sup::is_sup;
use dwz_def_reading::{FileHeader, Header};
use dwz_model::NoMemory;
use std::alloc::Global;

const FILE_HEADER: u128 = 64;

const SECTION_HEADER: usize = 64;

/// The file, with its section headers behind it: that of `.debug_sup` is zero bytes.
#[derive(Drop)]
pub(crate) struct Moved {
    pub(crate) bytes: Vec<u8>,
    /// Where the section headers begin, and where they began in the file that was read.
    pub(crate) headers_at: u64,
    pub(crate) began: u64,
}

// Where the last section that is loaded from the file ends.
fn loaded_end(headers: &[Header]) -> u128
    ensures { (table : List ℕ) → result ≡ ElfLayout.loaded_end (map (section_named table) headers.now) }
{
    let mut last = 0;
    for header in headers {
        if is_there(header) && is_loaded(header) {
            last = last.max(end_of(header));
        }
    }
    last
}

// Where the program header table ends, if there is one.
fn programs_end(file: &FileHeader) -> u128
    ensures { result ≡ (if file.now.program_headers == 0 then 0 else ElfHeaders.program_headers_end file.now) }
{
    if file.program_headers == 0 {
        return 0;
    }
    file.program_headers_at as u128
        + file.program_header_size as u128 * file.program_headers as u128
}

// Where the bytes end that are kept of a file with these headers.
#[tactic(auto, unfolding(dwz_def_reading::specs::ElfLayout::keep_end))]
fn keep_end(file: &FileHeader, headers: &[Header]) -> u128
    ensures { (e : ElfView) (table : List ℕ) → e.file ≡ file.now → e.sections ≡ map (section_named table) headers.now
        → result ≡ ElfLayout.keep_end e }
{
    FILE_HEADER.max(programs_end(file)).max(loaded_end(headers))
}

// The bytes from a place on, or none where there are fewer.
fn behind(bytes: &[u8], place: u64) -> &[u8]
    ensures { result.now ≡ drop place bytes.now }
{
    &bytes[place.min(bytes.len() as u64) as usize..]
}

// The first bytes, or all where there are fewer.
fn first(bytes: &[u8], count: usize) -> &[u8]
    ensures { result.now ≡ take count bytes.now }
{
    &bytes[..count.min(bytes.len())]
}

// Appends a section header as it is stored, or zero bytes for that of `.debug_sup`.
fn put_header(
    out: &mut Vec<u8>,
    input: &[u8],
    table: &[u8],
    header: &Header,
) -> Result<(), NoMemory>
    ensures { OnOk result (out.new.items ≡ out.old.items ++ Dropped.header_without input.now (section_named table.now header.now)) }
{
    if is_sup(table, header) {
        put_zeros(out, SECTION_HEADER)
    } else {
        out.extend_from_slice(first(behind(input, header.at), SECTION_HEADER))
    }
}

// Appends section headers, whose names stand in that table.
fn put_headers(
    out: &mut Vec<u8>,
    input: &[u8],
    table: &[u8],
    headers: &[Header],
) -> Result<(), NoMemory>
    ensures { OnOk result (out.new.items
        ≡ out.old.items ++ Dropped.headers_without input.now (map (section_named table.now) headers.now)) }
{
    for header in headers {
        put_header(out, input, table, header)?;
    }
    Ok(())
}

// The names of sections.
fn name_table<'a>(input: &'a [u8], file: &FileHeader) -> &'a [u8]
    requires file { file.now ≡ ElfHeaders.file_header input.now }
    requires whole { IsWhole input.now }
    ensures { result.now ≡ ElfNames.name_table input.now }
{
    let names = header_at(
        input,
        file.headers_at as usize + SECTION_HEADER * file.names as usize,
    );
    let start = names.offset as usize;
    &input[start..start + names.size as usize]
}

// Behind what is kept of a file, and behind the file itself.
fn table_place(input: &[u8], file: &FileHeader, headers: &[Header]) -> u128
    requires file { file.now ≡ ElfHeaders.file_header input.now }
    requires headers { headers.now ≡ ElfHeaders.headers_in input.now }
    ensures { result ≡ Dropped.table_place input.now }
{
    (input.len() as u128).max(keep_end(file, headers))
}

// The same of a file that holds all of its headers, where their new place is below 2^64.
fn moved_behind(alloc: Global, input: &[u8]) -> Result<Moved, NoMemory>
    requires whole { IsWhole input.now }
    requires short { Dropped.table_place input.now < 2 ^ 64 }
    ensures { IfOk result (IsMoved input.now) }
{
    let file = file_header(input);
    let headers = headers_from(
        alloc,
        input,
        file.headers_at as usize,
        file.headers as usize,
    )?;
    let place = table_place(input, &file, &headers) as usize;
    let mut bytes = front(alloc, place, place as u64, file.headers as u64, input)?;
    put_headers(&mut bytes, input, name_table(input, &file), &headers)?;
    Ok(Moved {
        bytes,
        headers_at: place as u64,
        began: file.headers_at,
    })
}

/// Moves the section headers of a file behind it, where that of `.debug_sup` is zero bytes.
pub(crate) fn without_sup(alloc: Global, input: &[u8]) -> Result<Moved, NoMemory>
    requires reads { elf_fault_for read_back input.now ≡ None }
    requires bytes { AreBytes input.now }
    requires few { length input.now < 2 ^ 64 }
    ensures { IfOk result (IsMoved input.now) }
{
    moved_behind(alloc, input)
}
