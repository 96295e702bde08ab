//! What options ask for: which files are got, and of which two places something is said.

ghost use Rattle.std.specs.Prelude.{◌≡◌, IfOk, map};
ghost use Rattle.dwz_words.specs.Asked.{common_read, first_given, names_got, names_numbered, offset_value, places_asked};

use crate::conditions::is_offset;
use crate::options::Options;
use dwz_model::{Blob, NoMemory, Place};
use std::alloc::Global;
use std::str;

/// These names, in this order.
fn all_names<'a>(alloc: Global, files: &'a [Blob]) -> Result<Vec<&'a [u8]>, NoMemory>
    ensures { IfOk result (λ v. map (λ n. n.now) v.items ≡ files.now) }
{
    let mut names = Vec::with_capacity(alloc, files.len())?;
    for file in files {
        names.push(file.as_slice())?;
    }
    Ok(names)
}

/// The names of the files that have numbers, from 0 on: the FILEs; with `--explain`, where they are FILE OFFSET FILE OFFSET, the first and
/// the third, or just one where these are equal. A common file is none of them: its number is that behind theirs.
pub fn names_numbered<'a>(alloc: Global, options: &'a Options) -> Result<Vec<&'a [u8]>, NoMemory>
    ensures { IfOk result (λ v. map (λ n. n.now) v.items ≡ names_numbered options.now) }
{
    match options.files.as_slice() {
        [first, _, second, _] if options.explain => {
            let mut names = Vec::with_capacity(alloc, 2)?;
            names.push(first.as_slice())?;
            if first.as_slice() != second.as_slice() {
                names.push(second.as_slice())?;
            }
            Ok(names)
        }
        files => all_names(alloc, files),
    }
}

/// The first of two that is given.
fn first_given<'a>(one: &'a Option<Blob>, other: &'a Option<Blob>) -> &'a Option<Blob>
    ensures { result.now ≡ first_given one.now other.now }
{
    match one {
        Some(_) => one,
        None => other,
    }
}

/// The common file that is read, with `--sup`, `--reuse` or `--batch`.
pub fn common_read(options: &Options) -> &Option<Blob>
    ensures { result.now ≡ common_read options.now }
{
    first_given(&options.sup, first_given(&options.reuse, &options.batch))
}

/// The names of the files that are got, in order: with `--sup`, `--reuse` or `--batch` first the common file, and then those that have
/// numbers.
pub fn names_got<'a>(alloc: Global, options: &'a Options) -> Result<Vec<&'a [u8]>, NoMemory>
    ensures { IfOk result (λ v. map (λ n. n.now) v.items ≡ names_got options.now) }
{
    let files = names_numbered(alloc, options)?;
    match common_read(options) {
        None => Ok(files),
        Some(common) => {
            let mut names = Vec::new(alloc);
            names.push(common.as_slice())?;
            names.extend_from_slice(&files)?;
            Ok(names)
        }
    }
}

/// The number that an OFFSET spells, and 0 for any other word.
fn offset_value(word: &[u8]) -> u32
    ensures { result ≡ offset_value word.now }
{
    if !is_offset(word) {
        return 0;
    }
    let digits = str::from_utf8(&word[2..]).unwrap();
    u32::from_str_radix(digits, 16).unwrap()
}

/// The two places of which `--explain` asks, of FILE OFFSET FILE OFFSET: in file 0 at the first OFFSET, and at the second in file 0 where
/// the FILEs are equal, and else in file 1, as `names_numbered` has them. A word that is no OFFSET counts as 0. Where there aren't four
/// words, both places are the first byte of file 0.
pub fn places_asked(options: &Options) -> (Place, Place)
    ensures { ((result.0.file, result.0.offset), (result.1.file, result.1.offset)) ≡ places_asked options.now }
{
    match options.files.as_slice() {
        [first, first_offset, second, second_offset] => {
            let file = if first.as_slice() == second.as_slice() {
                0
            } else {
                1
            };
            (
                Place {
                    file: 0,
                    offset: offset_value(first_offset.as_slice()),
                },
                Place {
                    file,
                    offset: offset_value(second_offset.as_slice()),
                },
            )
        }
        _ => (Place { file: 0, offset: 0 }, Place { file: 0, offset: 0 }),
    }
}
