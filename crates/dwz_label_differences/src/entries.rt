//! The entries of a top in its label: how many children each has, and the way to each.

ghost use Rattle.std.specs.Prelude.{◌≡◌, ℕ, ◌<◌, ◌^◌, IfOk, Some, drop, length, slice_get, take};
ghost use Rattle.dwz_def_reading.specs.Documents.{Entries};
ghost use Rattle.dwz_def_reading.specs.Trees.{size};
ghost use Rattle.dwz_def_tops.specs.Seen.{heads};
ghost use Rattle.dwz_def_tops.specs.Spots.{EntryName};
ghost use Rattle.dwz_def_explain.specs.What.{Subtree};
ghost use Rattle.dwz_label_differences.specs.Labels.{AreEntryLabels, FlatEntry, flat, way, whole, whole_label};

use crate::attributes::after_attributes;
use crate::pieces::{after_number, count_of};
use dwz_model::NoMemory;
use std::alloc::Global;

/// An entry in a label.
#[derive(Clone, Copy)]
pub(crate) struct EntryLabel<'a> {
    /// How many entries are below it.
    pub(crate) below: usize,
    /// The label from the entry's tag on.
    pub(crate) label: &'a [u8],
}

/// The entry of a top and all below it, in preorder. What is passed is the label of the top from its entry on.
pub(crate) fn entry_labels<'a>(
    alloc: Global,
    label: &'a [u8],
) -> Result<Vec<EntryLabel<'a>>, NoMemory>
    ensures { (x : Subtree) → label.now ≡ whole_label x → IfOk result (λ rows. AreEntryLabels (whole x) rows.items) }
{
    let mut rows = Vec::new(alloc);
    let mut left = label;
    let count = count_of(label);
    for _ in 0..count + 1 {
        let below = count_of(left);
        let label = after_number(left);
        rows.push(EntryLabel { below, label })?;
        left = after_attributes(after_number(label));
    }
    Ok(rows)
}

// The entries behind the first ones.
#[inline(always)]
fn behind<'r, 'a>(rows: &'r [EntryLabel<'a>], count: usize) -> &'r [EntryLabel<'a>]
    ensures { result.now ≡ drop count rows.now }
{
    if count < rows.len() {
        &rows[count..]
    } else {
        &[]
    }
}

// The first entries.
#[inline(always)]
fn front<'r, 'a>(rows: &'r [EntryLabel<'a>], count: usize) -> &'r [EntryLabel<'a>]
    ensures { result.now ≡ take count rows.now }
{
    if count < rows.len() {
        &rows[..count]
    } else {
        rows
    }
}

// How many entries stand beside each other, where all below them are there too.
fn count_beside(rows: &[EntryLabel]) -> usize
    ensures { (f : Entries EntryName) → AreEntryLabels (flat f) rows.now → result ≡ length (heads f) }
{
    let mut count = 0;
    let mut left = rows;
    'beside: while let Some((first, others)) = left.split_first() {
        count += 1;
        left = behind(others, first.below);
    }
    count
}

/// The entry with a number.
#[inline(always)]
pub(crate) fn entry_at<'r, 'a>(rows: &'r [EntryLabel<'a>], k: usize) -> &'r EntryLabel<'a>
    requires { k < length rows.now }
    ensures { slice_get rows.now k ≡ Some result.now }
{
    &rows[k]
}

/// How many children an entry has, by its number.
pub(crate) fn children_of(rows: &[EntryLabel], k: usize) -> usize
    ensures { (x : Subtree) (e : FlatEntry) → AreEntryLabels (whole x) rows.now → slice_get (whole x) k ≡ Some e → result ≡ e.children }
{
    match behind(rows, k).split_first() {
        None => 0,
        Some((entry, others)) => count_beside(front(others, entry.below)),
    }
}

/// The indexes of children that lead to an entry: from the siblings that stand first, with all below them, to the one with a number.
pub(crate) fn path_below(alloc: Global, rows: &[EntryLabel], k: usize) -> Result<Vec<u32>, NoMemory>
    ensures { (f : Entries EntryName) → AreEntryLabels (flat f) rows.now → k < size f → size f < 2 ^ 32
        → IfOk result (λ path. path.items ≡ way 0 f k) }
{
    let mut path = Vec::new(alloc);
    let mut left = rows;
    let mut number = k;
    let mut index: u32 = 0;
    'way: while let Some((entry, others)) = left.split_first() {
        if number == 0 {
            path.push(index)?;
            return Ok(path);
        }
        number -= 1;
        if number < entry.below {
            path.push(index)?;
            index = 0;
            left = front(others, entry.below);
        } else {
            index = index.saturating_add(1);
            number -= entry.below;
            left = behind(others, entry.below);
        }
    }
    Ok(path)
}
