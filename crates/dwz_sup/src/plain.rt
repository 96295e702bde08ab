//! ELF files of the plain layout (ELF-64 Object File Format): file header, contents, names, section headers.

ghost use Rattle.std.specs.Prelude.{◌≡◌, ◌+◌, ◌-◌, ◌<◌, ◌≤◌, ◌^◌, ◌++◌, IfOk, IsTrue, OnOk, length, nat_le, replicate};
ghost use Rattle.std.specs.List.{list_all};
ghost use Rattle.dwz_def_reading.specs.ElfLayout.{numbers, too_large};
ghost use Rattle.dwz_def_reading.specs.PlainFile;
ghost use Rattle.dwz_sup.specs.Seen.{sections_seen};

use dwz_bytes::put_fixed;
use dwz_model::NoMemory;
use std::alloc::Global;

// How many bytes the file header has, and each section header.
const HEADER: usize = 64;

// The name of the section that holds the names.
const NAMES: &[u8] = b".shstrtab";

const SHT_PROGBITS: u64 = 1;

const SHT_STRTAB: u64 = 3;

/// A section of a file of the plain layout.
#[derive(Clone, Copy)]
pub struct PlainSection<'a> {
    /// The section's name, without a zero byte.
    pub name: &'a [u8],
    /// `sh_flags`
    pub flags: u64,
    /// `sh_entsize`: how many bytes an entry has, or 0 where there are none of one size.
    pub entry_size: u64,
    /// The section's content.
    pub bytes: &'a [u8],
}

// Appends numbers, each with its width.
fn put_numbers(out: &mut Vec<u8>, fields: &[(usize, u64)]) -> Result<(), NoMemory>
    requires { IsTrue (list_all (λ field. nat_le field.0 8) fields.now) }
    ensures { OnOk result (out.new.items ≡ out.old.items ++ numbers fields.now) }
{
    for field in fields {
        put_fixed(out, field.0, field.1)?;
    }
    Ok(())
}

// Appends zero bytes.
fn put_zeros(out: &mut Vec<u8>, count: usize) -> Result<(), NoMemory>
    ensures { OnOk result (out.new.items ≡ out.old.items ++ replicate count 0) }
{
    for i in 0..count {
        out.push(0)?;
    }
    Ok(())
}

// The name table.
fn names_of(alloc: Global, sections: &[PlainSection]) -> Result<Vec<u8>, NoMemory>
    ensures { IfOk result (λ names. names.items ≡ PlainFile.plain_names (sections_seen sections.now)) }
{
    let mut names = Vec::new(alloc);
    names.push(0)?;
    for section in sections {
        names.extend_from_slice(section.name)?;
        names.push(0)?;
    }
    names.extend_from_slice(NAMES)?;
    names.push(0)?;
    Ok(names)
}

// How many bytes the contents have together.
fn contents_len(sections: &[PlainSection]) -> usize
    requires { length (PlainFile.plain_contents (sections_seen sections.now)) < 2 ^ 64 }
    ensures { result ≡ length (PlainFile.plain_contents (sections_seen sections.now)) }
{
    let mut len = 0;
    for section in sections {
        len += section.bytes.len();
    }
    len
}

// Appends the contents.
fn put_contents(out: &mut Vec<u8>, sections: &[PlainSection]) -> Result<(), NoMemory>
    ensures { OnOk result (out.new.items ≡ out.old.items ++ PlainFile.plain_contents (sections_seen sections.now)) }
{
    for section in sections {
        out.extend_from_slice(section.bytes)?;
    }
    Ok(())
}

// Appends the file header.
fn put_front(
    out: &mut Vec<u8>,
    machine: u16,
    flags: u32,
    headers_at: u64,
    count: u64,
) -> Result<(), NoMemory>
    requires { 0 < count }
    ensures { OnOk result (out.new.items ≡ out.old.items ++ PlainFile.plain_front machine flags headers_at count) }
{
    out.extend_from_slice(b"\x7fELF\x02\x01\x01")?;
    put_zeros(out, 9)?;
    let fields = [
        (2, 3),
        (2, machine as u64),
        (4, 1),
        (8, 0),
        (8, 0),
        (8, headers_at),
        (4, flags as u64),
        (2, 64),
        (2, 0),
        (2, 0),
        (2, 64),
        (2, count),
        (2, count - 1),
    ];
    put_numbers(out, &fields)
}

// Appends a section header.
fn put_header(
    out: &mut Vec<u8>,
    name: u64,
    kind: u64,
    flags: u64,
    at: u64,
    size: u64,
    entry_size: u64,
) -> Result<(), NoMemory>
    ensures { OnOk result (out.new.items ≡ out.old.items ++ numbers (PlainFile.section_fields name kind flags at size entry_size)) }
{
    let fields = [
        (4, name),
        (4, kind),
        (8, flags),
        (8, 0),
        (8, at),
        (8, size),
        (4, 0),
        (4, 0),
        (8, 1),
        (8, entry_size),
    ];
    put_numbers(out, &fields)
}

// Appends the headers of the sections.
fn put_headers(out: &mut Vec<u8>, sections: &[PlainSection]) -> Result<(), NoMemory>
    requires names { length (PlainFile.section_names (sections_seen sections.now)) < 2 ^ 32 }
    requires contents { length (PlainFile.plain_contents (sections_seen sections.now)) < 2 ^ 32 }
    ensures { OnOk result (out.new.items ≡ out.old.items ++ PlainFile.plain_headers 1 64 (sections_seen sections.now)) }
{
    let mut name = 1;
    let mut at = HEADER as u64;
    for section in sections {
        let size = section.bytes.len() as u64;
        put_header(
            out,
            name,
            SHT_PROGBITS,
            section.flags,
            at,
            size,
            section.entry_size,
        )?;
        name += section.name.len() as u64 + 1;
        at += size;
    }
    Ok(())
}

/// An ELF file of the plain layout, for a machine (`e_machine`) and with these flags (`e_flags`): the file header, the contents of
/// the sections in this order without gaps, the table of their names, and the section headers at the next multiple of 8, a
/// null header first. All is little-endian, and no section is aligned or loaded.
pub fn plain_file(
    alloc: Global,
    machine: u16,
    flags: u32,
    sections: &[PlainSection],
) -> Result<Vec<u8>, NoMemory>
    requires { length (PlainFile.plain_file machine flags (sections_seen sections.now)) < too_large }
    ensures { IfOk result (λ file. file.items ≡ PlainFile.plain_file machine flags (sections_seen sections.now)) }
{
    let names = names_of(alloc, sections)?;
    let names_at = HEADER + contents_len(sections);
    let end = names_at + names.len();
    let headers_at = end.next_multiple_of(8);
    let count = sections.len() + 2;
    let mut out = Vec::with_capacity(alloc, headers_at + HEADER * count)?;
    put_front(&mut out, machine, flags, headers_at as u64, count as u64)?;
    put_contents(&mut out, sections)?;
    out.extend_from_slice(&names)?;
    put_zeros(&mut out, headers_at + HEADER - end)?;
    put_headers(&mut out, sections)?;
    let name = names.len() - NAMES.len() - 1;
    put_header(
        &mut out,
        name as u64,
        SHT_STRTAB,
        0,
        names_at as u64,
        names.len() as u64,
        0,
    )?;
    Ok(out)
}
