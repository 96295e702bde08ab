//! The bytes of a file that is made from another.

ghost use Rattle.std.specs.Prelude.{◌≡◌, ℕ, ◌+◌, ◌-◌, ◌*◌, ◌<◌, ◌≤◌, ◌++◌, OnOk, IfOk, Some, length, replicate, drop, take, slice_get};
ghost use Rattle.dwz_bytes.specs.Spelling.{le_bytes};
ghost use Rattle.dwz_def_reading.specs.ElfLayout;
ghost use Rattle.dwz_elf.specs.Places.{AreByIndex};
ghost use Rattle.dwz_elf.specs.Rebuilds.{changes_of};

use crate::edits::{Edits, sup_bytes};
use crate::elf::Elf;
use crate::layout::{Places, before, behind, content_at};
use dwz_def_reading::{Moved, Section};
use dwz_model::NoMemory;
use std::alloc::Global;

// Where the fields of the file header are that change.
const E_SHOFF: usize = 40;

const E_SHNUM: usize = 60;

// How many bytes a section header has, and where its fields are that change.
const HEADER: u64 = 64;

const SH_OFFSET: u64 = 24;

const SH_ADDRALIGN: u64 = 40;

const SHT_PROGBITS: u64 = 1;

// Appends a number in so many bytes.
fn put_number(out: &mut Vec<u8>, width: usize, value: u64) -> Result<(), NoMemory>
    ensures bytes { OnOk result (out.new.items ≡ out.old.items ++ le_bytes width value) }
    ensures len { OnOk result (length out.new.items ≡ length out.old.items + width) }
{
    let mut rest = value;
    for i in 0..width {
        out.push((rest % 256) as u8)?;
        rest /= 256;
    }
    Ok(())
}

// Appends zero bytes.
fn put_zeros(out: &mut Vec<u8>, count: usize) -> Result<(), NoMemory>
    ensures { OnOk result (out.new.items ≡ out.old.items ++ replicate count 0) }
{
    for i in 0..count {
        out.push(0)?;
    }
    Ok(())
}

// Writes bytes over those at a place.
fn write_over(out: &mut [u8], at: usize, bytes: &[u8])
    requires { at + length bytes.now ≤ length out.old }
    ensures { out.new ≡ ElfLayout.over at bytes.now out.old }
{
    out[at..at + bytes.len()].copy_from_slice(bytes);
}

// Writes a number of so many bytes over those at a place.
fn over_number(
    alloc: Global,
    out: &mut [u8],
    at: usize,
    width: usize,
    value: u64,
) -> Result<(), NoMemory>
    requires { at + width ≤ length out.old }
    ensures { OnOk result (out.new ≡ ElfLayout.over at (le_bytes width value) out.old) }
{
    let mut bytes = Vec::new(alloc);
    put_number(&mut bytes, width, value)?;
    write_over(out, at, &bytes);
    Ok(())
}

// Appends the bytes below a place, and zero bytes where the file has ended.
fn put_kept(out: &mut Vec<u8>, keep: usize, input: &[u8]) -> Result<(), NoMemory>
    ensures bytes { OnOk result (out.new.items ≡ out.old.items ++ ElfLayout.kept_bytes keep input.now) }
    ensures len { OnOk result (length out.new.items ≡ length out.old.items + keep) }
{
    let whole = keep.min(input.len());
    out.extend_from_slice(&input[..whole])?;
    put_zeros(out, keep - whole)
}

// Appends the sections behind a place.
fn put_sections(
    out: &mut Vec<u8>,
    elf: &Elf,
    edits: &Edits,
    input: &[u8],
    keep: u64,
    moved: &[Moved],
) -> Result<(), NoMemory>
    ensures { OnOk result (out.new.items ≡ out.old.items ++ ElfLayout.spread (ElfLayout.content_at elf.now (changes_of edits.now) input.now)
        keep moved.now) }
{
    let mut end = keep as u128;
    for section in moved {
        let gap = (section.at as u128).saturating_sub(end);
        put_zeros(out, gap as usize)?;
        let (bytes, more) = content_at(elf, edits, input, section.index);
        out.extend_from_slice(bytes)?;
        out.extend_from_slice(more)?;
        end = section.at as u128 + section.size as u128;
    }
    Ok(())
}

// Where the section of each index is written again.
fn by_index(alloc: Global, count: usize, moved: &[Moved]) -> Result<Vec<Option<Moved>>, NoMemory>
    ensures { IfOk result (λ places. AreByIndex count moved.now places.items) }
{
    let mut places = vec![in alloc; None; count]?;
    let mut left = moved.len();
    while left > 0 {
        left -= 1;
        let section = moved[left];
        if section.index < places.len() {
            places[section.index] = Some(section);
        }
    }
    Ok(places)
}

// A section header as it is stored.
fn stored_header<'b>(input: &'b [u8], section: &Section) -> &'b [u8]
    ensures { result.now ≡ take 64 (drop section.now.header.at input.now) }
{
    before(behind(input, section.header.at), HEADER)
}

// Appends a section header, with the new place where the section is written again.
fn put_header(out: &mut Vec<u8>, old: &[u8], place: Option<Moved>) -> Result<(), NoMemory>
    ensures { OnOk result (out.new.items ≡ out.old.items ++ ElfLayout.moved_header old.now place) }
{
    let Some(place) = place else {
        return out.extend_from_slice(old);
    };
    out.extend_from_slice(before(old, SH_OFFSET))?;
    put_number(out, 8, place.at)?;
    put_number(out, 8, place.size)?;
    out.extend_from_slice(behind(old, SH_ADDRALIGN))?;
    Ok(())
}

// Appends the section headers.
fn put_headers(
    out: &mut Vec<u8>,
    input: &[u8],
    sections: &[Section],
    places: &[Option<Moved>],
    moved: &[Moved],
) -> Result<(), NoMemory>
    requires { AreByIndex (length sections.now) moved.now places.now }
    ensures { OnOk result (out.new.items ≡ out.old.items ++ ElfLayout.new_headers input.now moved.now 0 sections.now) }
{
    for (index, section) in sections.iter().enumerate() {
        put_header(out, stored_header(input, section), places[index])?;
    }
    Ok(())
}

// Appends numbers, each with its width.
fn put_numbers(out: &mut Vec<u8>, fields: &[(usize, u64)]) -> Result<(), NoMemory>
    ensures { OnOk result (out.new.items ≡ out.old.items ++ ElfLayout.numbers fields.now) }
{
    for field in fields {
        put_number(out, field.0, field.1)?;
    }
    Ok(())
}

// Where the name table ends in the old file, from its first byte.
fn names_size(elf: &Elf) -> u64
    ensures { result ≡ ElfLayout.names_size (slice_get elf.now.sections elf.now.file.names) }
{
    match elf.sections().get(elf.file().names as usize) {
        Some(section) => section.header.size,
        None => 0,
    }
}

// Appends the header of the section that is added at a place, if there is one.
#[tactic(auto, unfolding(dwz_def_reading::specs::ElfLayout::sup_header))]
fn put_sup_header(out: &mut Vec<u8>, elf: &Elf, edits: &Edits, at: u64) -> Result<(), NoMemory>
    ensures { OnOk result (out.new.items ≡ out.old.items ++ ElfLayout.sup_header elf.now at edits.now.sup) }
{
    let Some(sup) = &edits.sup else {
        return Ok(());
    };
    let size = sup.len() as u64;
    let fields = [
        (4, names_size(elf)),
        (4, SHT_PROGBITS),
        (8, 0),
        (8, 0),
        (8, at),
        (8, size),
        (4, 0),
        (4, 0),
        (8, 1),
        (8, 0),
    ];
    put_numbers(out, &fields)?;
    Ok(())
}

// The kept bytes with the place of the section header table and how many headers it has.
fn front(
    alloc: Global,
    keep: usize,
    headers_at: u64,
    count: u64,
    input: &[u8],
) -> Result<Vec<u8>, NoMemory>
    requires { 64 ≤ keep }
    ensures { IfOk result (λ out. out.items ≡ ElfLayout.new_front keep headers_at count input.now) }
{
    let mut out = Vec::new(alloc);
    put_kept(&mut out, keep, input)?;
    over_number(alloc, &mut out, E_SHOFF, 8, headers_at)?;
    over_number(alloc, &mut out, E_SHNUM, 2, count)?;
    Ok(out)
}

/// The file, with its sections in their places and the section header table at `headers_at`.
pub(crate) fn file_of(
    alloc: Global,
    elf: &Elf,
    edits: &Edits,
    input: &[u8],
    keep: u64,
    places: &Places,
    headers_at: u64,
) -> Result<Vec<u8>, NoMemory>
    requires keep { keep ≡ ElfLayout.keep_end elf.now }
    requires end { places.now.end ≡ ElfLayout.placed_end keep places.now.moved.items }
    requires headers { headers_at ≡ ElfLayout.new_headers_at (changes_of edits.now) places.now.end }
    ensures { IfOk result (λ out. out.items ≡ ElfLayout.laid_file elf.now (changes_of edits.now) input.now places.now.moved.items) }
{
    let sections = elf.sections();
    let sup = sup_bytes(edits);
    let count = new_count(elf, edits);
    let moved = by_index(alloc, sections.len(), &places.moved)?;
    let mut out = front(alloc, keep as usize, headers_at, count, input)?;
    put_sections(&mut out, elf, edits, input, keep, &places.moved)?;
    out.extend_from_slice(sup)?;
    let sup_end = places.end as u128 + sup.len() as u128;
    put_zeros(
        &mut out,
        (headers_at as u128).saturating_sub(sup_end) as usize,
    )?;
    put_headers(&mut out, input, sections, &moved, &places.moved)?;
    put_sup_header(&mut out, elf, edits, places.end)?;
    Ok(out)
}

/// How many section headers the file has.
pub(crate) fn new_count(elf: &Elf, edits: &Edits) -> u64
    ensures { result ≡ ElfLayout.new_count elf.now (changes_of edits.now) }
{
    let added = if edits.sup.is_some() { 1 } else { 0 };
    elf.file().headers as u64 + added
}
