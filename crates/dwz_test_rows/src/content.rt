//! Contents of files, as tables spell them.
//!
//! A content is a small ELF64 file: each of its lines has the name of a section (`.debug_info`, and `merged .debug_str` for texts that a
//! linker may merge) and bytes of it. Lines of one name that follow each other spell one section. Or it has lines `file` alone, which
//! spell the whole file.

use crate::elf::{cut_to, put_file};
use crate::spelling::{number_of, put_bytes};
use crate::wrong::Wrong;
use std::alloc::Global;

/// A content, under its name.
#[derive(Clone, Copy)]
pub(crate) struct Content<'a> {
    pub(crate) name: &'a str,
    /// The lines that spell it.
    pub(crate) lines: &'a str,
}

/// The lines of the last content of this name.
pub(crate) fn named<'a>(contents: &[Content<'a>], name: &str) -> Option<&'a str> {
    let mut found = None;
    for content in contents {
        if content.name == name {
            found = Some(content.lines);
        }
    }
    found
}

fn lines_of<'a>(contents: &[Content<'a>], name: &str) -> Result<&'a str, Wrong> {
    match named(contents, name) {
        Some(lines) => Ok(lines),
        None => Err(Wrong("no content of this name stands above")),
    }
}

// The text before a word with spaces round it, and what stands behind it, if it is there.
fn split_at<'a>(text: &'a str, word: &str) -> (&'a str, Option<&'a str>) {
    match text.split_once(word) {
        Some((before, after)) => (before, Some(after)),
        None => (text, None),
    }
}

/// Puts the bytes that are told by the name of a content and what is done with it, in this order: `with NAME`, whose sections stand behind
/// the names; `units 0x15`, the first so many bytes of its units; `but 0x12 28`, with these bytes at that place; `cut 0x40`, the first so many
/// bytes.
pub(crate) fn put_content(
    alloc: Global,
    out: &mut Vec<u8>,
    contents: &[Content<'_>],
    told: &str,
) -> Result<(), Wrong> {
    let (told, cut) = split_at(told, " cut ");
    let (told, changed) = split_at(told, " but ");
    let (told, units) = split_at(told, " units ");
    let (name, behind) = split_at(told, " with ");
    let behind = match behind {
        Some(name) => lines_of(contents, name)?,
        None => "",
    };
    let lines = lines_of(contents, name)?;
    if lines.starts_with("file: ") {
        put_whole(alloc, out, lines)?;
    } else {
        put_file(alloc, out, lines, units, behind)?;
    }
    if let Some(told) = changed {
        change(alloc, out, told)?;
    }
    if let Some(len) = cut {
        cut_to(out, number_of(len)?)?;
    }
    Ok(())
}

fn put_whole(alloc: Global, out: &mut Vec<u8>, lines: &str) -> Result<(), Wrong> {
    for line in lines.lines() {
        match line.strip_prefix("file: ") {
            Some(spelled) => put_bytes(alloc, out, spelled)?,
            None => return Err(Wrong("not of the whole file")),
        }
    }
    Ok(())
}

// Puts bytes in the place of others, as told by `0x12 28`.
fn change(alloc: Global, file: &mut [u8], told: &str) -> Result<(), Wrong> {
    let Some((at, spelled)) = told.split_once(' ') else {
        return Err(Wrong("bytes are missing"));
    };
    let mut new = Vec::new(alloc);
    put_bytes(alloc, &mut new, spelled)?;
    put_at(file, number_of(at)?, &new)
}

fn put_at(file: &mut [u8], at: usize, new: &[u8]) -> Result<(), Wrong> {
    let left = file.len().saturating_sub(at);
    if left < new.len() {
        return Err(Wrong("bytes behind the end"));
    }
    for (old, byte) in file.iter_mut().skip(at).zip(new) {
        *old = *byte;
    }
    Ok(())
}
