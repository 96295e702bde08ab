//! Lines, bytes and numbers as they are spelled in tables.

use crate::wrong::Wrong;
use std::alloc::Global;

/// The key and the value of a line `KEY: VALUE`, where the value may be empty.
pub(crate) fn key_and_value(line: &str) -> Result<(&str, &str), Wrong> {
    match line.split_once(": ") {
        Some(pair) => Ok(pair),
        None => match line.strip_suffix(":") {
            Some(key) => Ok((key, "")),
            None => Err(Wrong("a line is no key and its value")),
        },
    }
}

/// Adds bytes that are spelled in hexadecimal with texts between quotes, as `02 'int' 00 04 05`. A byte that stands `n` times in a row is
/// written `02*n`.
pub(crate) fn put_bytes(alloc: Global, out: &mut Vec<u8>, spelled: &str) -> Result<(), Wrong> {
    let mut is_text = true;
    for piece in spelled.split('\'') {
        is_text = !is_text;
        if is_text {
            out.extend_from_slice(piece.as_bytes())?;
        } else {
            put_words(alloc, out, piece)?;
        }
    }
    if is_text {
        return Err(Wrong("a text without its last quote"));
    }
    Ok(())
}

// Adds the bytes of words in hexadecimal.
fn put_words(alloc: Global, out: &mut Vec<u8>, words: &str) -> Result<(), Wrong> {
    for word in words.split(' ') {
        let (digits, count) = word.split_once('*').unwrap_or((word, "1"));
        let count = count.parse::<usize>()?;
        let once = hex::decode(alloc, digits)?;
        for _ in 0..count {
            out.extend_from_slice(&once)?;
        }
    }
    Ok(())
}

/// A number in hexadecimal, as `0x1f`.
pub(crate) fn number_of(spelled: &str) -> Result<usize, Wrong> {
    match spelled.strip_prefix("0x") {
        Some(digits) => Ok(usize::from_str_radix(digits, 16)?),
        None => Err(Wrong("not a number as 0x1f")),
    }
}
