//! Small ELF64 files, whose sections stand behind each other without gaps.

use crate::spelling::{key_and_value, number_of, put_bytes};
use crate::wrong::Wrong;
use std::alloc::{AllocError, Global};

/// A section, with its bytes.
#[derive(Drop)]
struct Section<'a> {
    /// What a table calls it.
    key: &'a str,
    bytes: Vec<u8>,
}

// Types of sections.
const BYTES: u64 = 1;

const NAMES: u64 = 3;

// SHF_ALLOC
const LOADED: u64 = 2;

// SHF_MERGE and SHF_STRINGS: texts that a linker may merge.
const MERGED_TEXTS: u64 = 0x30;

const NAMES_OF_SECTIONS: &str = ".shstrtab";

const SECTIONS: [&str; 12] = [
    ".text",
    ".debug_info",
    ".debug_abbrev",
    ".debug_str",
    "merged .debug_str",
    ".debug_line_str",
    ".debug_str_offsets",
    ".debug_line",
    ".debug_loclists",
    ".debug_aranges",
    ".debug_macro",
    ".debug_sup",
];

impl<'a> Section<'a> {
    fn name(&self) -> &'a str {
        self.key.strip_prefix("merged ").unwrap_or(self.key)
    }

    // The eight words of its header, if its name stands there among the names, and its bytes there in the file.
    fn header(&self, name: u64, at: u64) -> [u64; 8] {
        let (code, flags, element) = match self.key {
            NAMES_OF_SECTIONS => (NAMES, 0, 0),
            ".text" => (BYTES, LOADED, 0),
            "merged .debug_str" => (BYTES, MERGED_TEXTS, 1),
            _ => (BYTES, 0, 0),
        };
        let len = self.bytes.len() as u64;
        [name | code << 32, flags, 0, at, len, 0, 1, element]
    }
}

// The eight words of the header of a file, if so many section headers stand there, and the names are the section of this number.
fn file_header(headers: u64, count: u64, names: u64) -> [u64; 8] {
    [
        0x0001_0102_464c_457f,
        0,
        0x0001_003e_0003,
        0,
        0,
        headers,
        0x0040_0000_0000,
        0x0040_0000 | count << 32 | names << 48,
    ]
}

fn put_header(out: &mut Vec<u8>, header: [u64; 8]) -> Result<(), AllocError> {
    for word in header {
        out.extend_from_slice(&word.to_le_bytes())?;
    }
    Ok(())
}

/// Adds the file of the sections that lines spell, of one with the names of all, and of these behind it. Of its units the first so many bytes
/// are there, if that is told.
pub(crate) fn put_file(
    alloc: Global,
    out: &mut Vec<u8>,
    lines: &str,
    units: Option<&str>,
    behind: &str,
) -> Result<(), Wrong> {
    let mut sections = Vec::new(alloc);
    put_sections(alloc, &mut sections, lines)?;
    if let Some(len) = units {
        cut_units(&mut sections, number_of(len)?)?;
    }
    let names = sections.len();
    let bytes = Vec::new(alloc);
    sections.push(Section {
        key: NAMES_OF_SECTIONS,
        bytes,
    })?;
    put_sections(alloc, &mut sections, behind)?;
    put_names(alloc, &mut sections, names)?;
    put_all(out, &sections, names)?;
    Ok(())
}

// Adds the sections that lines spell. Lines of one key that follow each other spell one section.
fn put_sections<'a>(
    alloc: Global,
    sections: &mut Vec<Section<'a>>,
    lines: &'a str,
) -> Result<(), Wrong> {
    for line in lines.lines() {
        let (key, value) = key_and_value(line)?;
        match sections.last_mut() {
            Some(section) if section.key == key => put_bytes(alloc, &mut section.bytes, value)?,
            _ => sections.push(section_of(alloc, key, value)?)?,
        }
    }
    Ok(())
}

fn section_of<'a>(alloc: Global, key: &'a str, spelled: &str) -> Result<Section<'a>, Wrong> {
    if !SECTIONS.contains(&key) {
        return Err(Wrong("no section is called so"));
    }
    let mut bytes = Vec::new(alloc);
    put_bytes(alloc, &mut bytes, spelled)?;
    Ok(Section { key, bytes })
}

// Leaves the first so many bytes of the units.
fn cut_units(sections: &mut [Section<'_>], len: usize) -> Result<(), Wrong> {
    for section in sections {
        if section.key == ".debug_info" {
            cut_to(&mut section.bytes, len)?;
        }
    }
    Ok(())
}

/// Leaves the first so many bytes.
pub(crate) fn cut_to(bytes: &mut Vec<u8>, len: usize) -> Result<(), Wrong> {
    if bytes.len() < len {
        return Err(Wrong("there are not so many bytes"));
    }
    bytes.truncate(len);
    Ok(())
}

// Fills the section with the names of all, which is the one of this number.
fn put_names(alloc: Global, sections: &mut [Section<'_>], number: usize) -> Result<(), AllocError> {
    let mut names = Vec::from_slice(alloc, b"\0")?;
    for section in sections.iter() {
        names.extend_from_slice(section.name().as_bytes())?;
        names.extend_from_slice(b"\0")?;
    }
    if let Some(section) = sections.get_mut(number) {
        section.bytes = names;
    }
    Ok(())
}

// Adds the file of sections, where the one of this number, from 0, has their names.
fn put_all(out: &mut Vec<u8>, sections: &[Section<'_>], names: usize) -> Result<(), AllocError> {
    let mut end = 64usize;
    for section in sections {
        end = end.wrapping_add(section.bytes.len());
    }
    let missing = (8 - end % 8) % 8;
    let headers = end.wrapping_add(missing) as u64;
    // The first section header is empty.
    let count = (sections.len() as u64).wrapping_add(1);
    let names = (names as u64).wrapping_add(1);
    put_header(out, file_header(headers, count, names))?;
    for section in sections {
        out.extend_from_slice(&section.bytes)?;
    }
    for _ in 0..missing {
        out.extend_from_slice(b"\0")?;
    }
    put_header(out, [0; 8])?;
    put_section_headers(out, sections)
}

fn put_section_headers(out: &mut Vec<u8>, sections: &[Section<'_>]) -> Result<(), AllocError> {
    let mut name = 1u64;
    let mut at = 64u64;
    for section in sections {
        put_header(out, section.header(name, at))?;
        name = name
            .wrapping_add(section.name().len() as u64)
            .wrapping_add(1);
        at = at.wrapping_add(section.bytes.len() as u64);
    }
    Ok(())
}
