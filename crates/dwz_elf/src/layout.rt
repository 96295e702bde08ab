//! Where the sections of a file that is made from another stand.

ghost use Rattle.std.specs.Prelude.{◌≡◌, ℕ, ◌+◌, ◌-◌, ◌*◌, ◌^◌, ◌<◌, ◌≤◌, ◌++◌, IfOk, length, drop, take};
ghost use Rattle.std.specs.Int.{next_multiple_of};
ghost use Rattle.dwz_def_reading.specs.ElfHeaders;
ghost use Rattle.dwz_def_reading.specs.ElfLayout;
ghost use Rattle.dwz_elf.specs.Places.{ArePlaced};
ghost use Rattle.dwz_elf.specs.Rebuilds.{changes_of};

use crate::edits::{Edits, replacement};
use crate::elf::Elf;
use crate::fault::program_headers_end;
use crate::header::{end_of, is_loaded, is_there};
use dwz_def_reading::{Header, Moved, Section};
use dwz_model::{Fault, NoMemory, Reason, WHOLE_FILE};
use std::alloc::Global;

const FILE_HEADER: u128 = 64;

/// A file of so many bytes is too large.
pub(crate) const TOO_LARGE: u64 = 0xffff_fff0;

// Where the last section that is loaded from the file ends.
fn loaded_end(sections: &[Section]) -> u128
    ensures { result ≡ ElfLayout.loaded_end sections.now }
{
    let mut last = 0;
    for section in sections {
        if is_there(&section.header) && is_loaded(&section.header) {
            last = last.max(end_of(&section.header));
        }
    }
    last
}

/// Where the kept bytes end.
#[tactic(auto, unfolding(dwz_def_reading::specs::ElfLayout::keep_end))]
pub(crate) fn keep_end(elf: &Elf) -> u128
    ensures { result ≡ ElfLayout.keep_end elf.now }
{
    let file = elf.file();
    let programs = if file.program_headers == 0 {
        0
    } else {
        program_headers_end(&file)
    };
    FILE_HEADER.max(programs).max(loaded_end(elf.sections()))
}

// Whether a section with that index gets another content.
fn is_changed(elf: &Elf, edits: &Edits, index: usize, section: &Section) -> bool
    ensures { result ≡ ElfLayout.is_changed elf.now (changes_of edits.now) index section.now }
{
    replacement(edits, section).is_some()
        || (edits.sup.is_some() && index == elf.file().names as usize)
}

// Whether a section with that index begins among the kept bytes, and gets another content or ends behind them.
fn is_inside(elf: &Elf, edits: &Edits, keep: u128, index: usize, section: &Section) -> bool
    requires { keep ≡ ElfLayout.keep_end elf.now }
    ensures { result ≡ ElfLayout.is_inside elf.now (changes_of edits.now) index section.now }
{
    let header = &section.header;
    is_there(header)
        && (header.offset as u128) < keep
        && (is_changed(elf, edits, index, section) || end_of(header) > keep)
}

/// The fault of the first section that can't be laid out around the kept bytes.
#[tactic(auto, unfolding(dwz_def_reading::specs::ElfLayout::layout_fault))]
pub(crate) fn layout_fault(elf: &Elf, edits: &Edits, keep: u128) -> Option<Fault>
    requires { keep ≡ ElfLayout.keep_end elf.now }
    ensures { result ≡ ElfLayout.layout_fault elf.now (changes_of edits.now) }
{
    let sections = elf.sections();
    for (index, section) in sections.iter().enumerate() {
        if is_inside(elf, edits, keep, index, section) {
            return Some(Fault {
                section: WHOLE_FILE,
                at: section.header.at,
                reason: Reason::Layout,
            });
        }
    }
    None
}

// Whether a section is written again behind the kept bytes.
fn is_moving(keep: u128, header: &Header) -> bool
    ensures { result ≡ ElfLayout.is_moving keep header.now }
{
    is_there(header) && !is_loaded(header) && header.offset as u128 >= keep
}

// The old offset and the index of each section that is written again.
fn moving_sections(
    alloc: Global,
    keep: u128,
    sections: &[Section],
) -> Result<Vec<(u64, usize)>, NoMemory>
    ensures { IfOk result (λ keys. keys.items ≡ ElfLayout.moving keep 0 sections.now) }
{
    let mut keys = Vec::new(alloc);
    for (index, section) in sections.iter().enumerate() {
        if is_moving(keep, &section.header) {
            keys.push((section.header.offset, index))?;
        }
    }
    Ok(keys)
}

/// The old offset and the index of each section that is written again, in order.
pub(crate) fn order_of(alloc: Global, elf: &Elf, keep: u128) -> Result<Vec<(u64, usize)>, NoMemory>
    requires { keep ≡ ElfLayout.keep_end elf.now }
    ensures { IfOk result (λ order. ElfLayout.IsOrder elf.now order.items) }
{
    let mut keys = moving_sections(alloc, keep, elf.sections())?;
    keys.sort_unstable();
    Ok(keys)
}

/// The bytes before a place, or all where there are fewer.
pub(crate) fn before(bytes: &[u8], place: u64) -> &[u8]
    ensures { result.now ≡ take place bytes.now }
{
    &bytes[..place.min(bytes.len() as u64) as usize]
}

/// The bytes from a place on, or none where there are fewer.
pub(crate) fn behind(bytes: &[u8], place: u64) -> &[u8]
    ensures { result.now ≡ drop place bytes.now }
{
    &bytes[place.min(bytes.len() as u64) as usize..]
}

// A section's content.
fn content<'b>(input: &'b [u8], header: &Header) -> &'b [u8]
    ensures { result.now ≡ ElfHeaders.content input.now header.now }
{
    before(behind(input, header.offset), header.size)
}

/// The content in the new file of the section with an index, in two parts.
#[tactic(auto, unfolding(dwz_def_reading::specs::ElfLayout::content_at))]
pub(crate) fn content_at<'b>(
    elf: &Elf,
    edits: &'b Edits,
    input: &'b [u8],
    index: usize,
) -> (&'b [u8], &'b [u8])
    ensures { result.0.now ++ result.1.now ≡ ElfLayout.content_at elf.now (changes_of edits.now) input.now index }
{
    let Some(section) = elf.sections().get(index) else {
        return (&[], &[]);
    };
    if let Some(bytes) = replacement(edits, section) {
        return (bytes, &[]);
    }
    let old = content(input, &section.header);
    if index == elf.file().names as usize && edits.sup.is_some() {
        return (old, b".debug_sup\0");
    }
    (old, &[])
}

// The alignment of the section with an index.
#[tactic(auto, unfolding(dwz_def_reading::specs::ElfLayout::align_at))]
fn align_at(elf: &Elf, index: usize) -> u64
    ensures align { result ≡ ElfLayout.align_at elf.now index }
    ensures some { 0 < result }
{
    match elf.sections().get(index) {
        Some(section) => section.header.align.max(1),
        None => 1,
    }
}

/// The next multiple of an alignment.
pub(crate) fn up(place: u64, align: u64) -> u128
    requires { 0 < align }
    ensures { result ≡ next_multiple_of place align }
{
    let align = align as u128;
    let place = place as u128;
    place + (align - place % align) % align
}

/// Where the sections are written again, and where the last ends.
#[derive(Drop)]
pub(crate) struct Places {
    pub(crate) moved: Vec<Moved>,
    pub(crate) end: u64,
}

/// The sections in order behind the kept bytes, each at the next multiple of its alignment. None where they go too far.
pub(crate) fn place(
    alloc: Global,
    elf: &Elf,
    edits: &Edits,
    input: &[u8],
    keep: u64,
    order: &[(u64, usize)],
) -> Result<Option<Places>, NoMemory>
    requires { keep < ElfLayout.too_large }
    ensures { IfOk result (ArePlaced elf.now (ElfLayout.content_at elf.now (changes_of edits.now) input.now) keep order.now) }
{
    let mut moved = Vec::new(alloc);
    let mut end = keep;
    for key in order {
        let index = key.1;
        let at = up(end, align_at(elf, index));
        let (bytes, more) = content_at(elf, edits, input, index);
        let size = bytes.len() as u128 + more.len() as u128;
        if at + size >= TOO_LARGE as u128 {
            return Ok(None);
        }
        let at = at as u64;
        let size = size as u64;
        moved.push(Moved { index, at, size })?;
        end = at + size;
    }
    Ok(Some(Places { moved, end }))
}
