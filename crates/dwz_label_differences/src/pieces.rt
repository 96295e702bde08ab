//! Pieces of labels: what stands behind each.
//!
//! Where bytes don't begin with such a piece, nothing is said of the answer.

ghost use Rattle.std.specs.Prelude.{◌≡◌, ℕ, ◌≤◌, ◌++◌, List, Option, length, drop};
ghost use Rattle.dwz_def_reading.specs.Documents.{Part};
ghost use Rattle.dwz_def_tops.specs.Spots.{EntryName};
ghost use Rattle.dwz_label.specs.Labels.{counted, each_counted, file_label, number, part_label, parts_label, target_label};

use dwz_bytes::Cursor;

// The bytes behind the first ones.
#[inline(always)]
fn behind(bytes: &[u8], count: usize) -> &[u8]
    ensures { result.now ≡ drop count bytes.now }
{
    if count < bytes.len() {
        &bytes[count..]
    } else {
        &[]
    }
}

/// What stands behind a number.
pub(crate) fn after_number(label: &[u8]) -> &[u8]
    ensures { (n : ℕ) (rest : List ℕ) → label.now ≡ number n ++ rest → result.now ≡ rest }
{
    let mut left = label;
    'groups: while let Some((group, others)) = left.split_first() {
        if *group < 128 {
            return others;
        }
        left = others;
    }
    left
}

/// The number at the front, which is no more than there are bytes.
pub(crate) fn count_of(label: &[u8]) -> usize
    ensures is { (n : ℕ) (rest : List ℕ) → label.now ≡ number n ++ rest → n ≤ length label.now → result ≡ n }
    ensures within { result ≤ length label.now }
{
    match Cursor::new(label, 0).uleb() {
        Ok(number) => (number as usize).min(label.len()),
        Err(_) => 0,
    }
}

/// What stands behind bytes that their length stands before.
pub(crate) fn after_counted(label: &[u8]) -> &[u8]
    ensures { (bytes rest : List ℕ) → label.now ≡ counted bytes ++ rest → result.now ≡ rest }
{
    behind(after_number(label), count_of(label))
}

// What stands behind numbers that their count stands before.
fn after_numbers(label: &[u8]) -> &[u8]
    ensures { (ns rest : List ℕ) → label.now ≡ each_counted number ns ++ rest → result.now ≡ rest }
{
    let count = count_of(label);
    let mut left = after_number(label);
    for _ in 0..count {
        left = after_number(left);
    }
    left
}

// What stands behind an entry that is named.
fn after_target(label: &[u8]) -> &[u8]
    ensures { (target : EntryName) (rest : List ℕ) → label.now ≡ target_label target ++ rest → result.now ≡ rest }
{
    let Some((kind, others)) = label.split_first() else {
        return label;
    };
    if *kind == 1 {
        after_numbers(others)
    } else {
        others
    }
}

/// What stands behind entries that are named, and their count before them.
pub(crate) fn after_targets(label: &[u8]) -> &[u8]
    ensures { (targets : List EntryName) (rest : List ℕ) → label.now ≡ each_counted target_label targets ++ rest → result.now ≡ rest }
{
    let count = count_of(label);
    let mut left = after_number(label);
    for _ in 0..count {
        left = after_target(left);
    }
    left
}

// What stands behind a part of an expression.
fn after_part(label: &[u8]) -> &[u8]
    ensures { (part : Part) (rest : List ℕ) → label.now ≡ part_label part ++ rest → result.now ≡ rest }
{
    let Some((kind, others)) = label.split_first() else {
        return label;
    };
    if *kind == 0 {
        after_counted(others)
    } else {
        behind(after_number(others), 2)
    }
}

/// What stands behind an expression.
pub(crate) fn after_parts(label: &[u8]) -> &[u8]
    ensures { (parts : List Part) (rest : List ℕ) → label.now ≡ parts_label parts ++ rest → result.now ≡ rest }
{
    let count = count_of(label);
    let mut left = after_number(label);
    for _ in 0..count {
        left = after_part(left);
    }
    left
}

/// What stands behind the expressions of a location list.
pub(crate) fn after_expressions(label: &[u8]) -> &[u8]
    ensures { (exprs : List (List Part)) (rest : List ℕ) → label.now ≡ each_counted parts_label exprs ++ rest → result.now ≡ rest }
{
    let count = count_of(label);
    let mut left = after_number(label);
    for _ in 0..count {
        left = after_parts(left);
    }
    left
}

/// What stands behind the path of a file, or behind what says that there is none.
pub(crate) fn after_file(label: &[u8]) -> &[u8]
    ensures { (path : Option (List ℕ)) (rest : List ℕ) → label.now ≡ file_label path ++ rest → result.now ≡ rest }
{
    let Some((kind, others)) = label.split_first() else {
        return label;
    };
    if *kind == 1 {
        after_counted(others)
    } else {
        others
    }
}
