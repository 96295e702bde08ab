//! What differs between two tops by themselves, read from their labels.

ghost use Rattle.std.specs.Prelude.{◌≡◌, ℕ, ◌<◌, ◌^◌, [], ◌++◌, ℤ, List, Option, IfOk, length};
ghost use Rattle.dwz_def_reading.specs.Trees.{size};
ghost use Rattle.dwz_def_tops.specs.Spots.{Top};
ghost use Rattle.dwz_def_explain.specs.What.{SameSurroundings, Subtree, whole_top};
ghost use Rattle.dwz_label_differences.specs.Labels.{AreEntryLabels, path_of, what_of, whole, whole_label};
ghost use Rattle.dwz_label_differences.specs.Told.{IsShort, TellsWhat};
ghost use Rattle.dwz_label.specs.Labels.{counted, each_counted, label_of, language_label};

use crate::attributes::are_same;
use crate::differences::{Difference, first_difference};
use crate::entries::{EntryLabel, entry_labels, path_below};
use crate::pieces::{after_counted, after_number, count_of};
use dwz_def_explain::What;
use dwz_model::{NoMemory, Numbers};
use std::alloc::Global;

// What stands behind the language of a unit.
fn after_language(label: &[u8]) -> &[u8]
    ensures { (language : Option ℤ) (rest : List ℕ) → label.now ≡ language_label language ++ rest → result.now ≡ rest }
{
    let Some((kind, others)) = label.split_first() else {
        return label;
    };
    if *kind == 0 {
        others
    } else {
        after_number(others)
    }
}

// What stands behind the names of the spaces that a top stands in.
fn after_names(label: &[u8]) -> &[u8]
    ensures { (names : List (List ℕ)) (rest : List ℕ) → label.now ≡ each_counted counted names ++ rest → result.now ≡ rest }
{
    let count = count_of(label);
    let mut left = after_number(label);
    for _ in 0..count {
        left = after_counted(left);
    }
    left
}

// The path from a top to itself.
fn no_path(alloc: Global) -> Numbers
    ensures { result ≡ [] }
{
    Numbers::new(Vec::new(alloc))
}

// The path from a top to its entry with a number, in preorder.
fn path_to(alloc: Global, rows: &[EntryLabel], k: usize) -> Result<Numbers, NoMemory>
    ensures { (x : Subtree) → AreEntryLabels (whole x) rows.now → k < length (whole x) → size x.below < 2 ^ 32
        → IfOk result (λ path. path ≡ path_of x k) }
{
    let Some((_top, others)) = rows.split_first() else {
        return Ok(no_path(alloc));
    };
    if k == 0 {
        let itself = no_path(alloc);
        return Ok(itself);
    }
    let path = path_below(alloc, others, k - 1)?;
    let numbers = Numbers::new(path);
    Ok(numbers)
}

// Entries at that path differ so.
fn what_at(path: Numbers, difference: Difference) -> What
    ensures { result ≡ what_of path difference }
{
    match difference {
        Difference::Tag => What::Tag { path },
        Difference::Attribute(index) => What::Attribute { path, index },
        Difference::Children => What::Children { path },
    }
}

// What differs between the entries of two tops. What is passed are the labels of these from their entries on.
fn entries_differ(alloc: Global, a: &[u8], b: &[u8]) -> Result<Option<What>, NoMemory>
    ensures { (x y : Top) → a.now ≡ whole_label (whole_top x) → b.now ≡ whole_label (whole_top y) → IsShort x → SameSurroundings x y
        → IfOk result (TellsWhat x y) }
{
    let a_rows = entry_labels(alloc, a)?;
    let b_rows = entry_labels(alloc, b)?;
    match first_difference(a_rows.as_slice(), b_rows.as_slice()) {
        None => Ok(None),
        Some((k, difference)) => {
            let path = path_to(alloc, a_rows.as_slice(), k)?;
            Ok(Some(what_at(path, difference)))
        }
    }
}

/// What differs between two tops by themselves, whose labels these are: the languages of their units, or the names of the spaces that they
/// stand in, or the first entries in preorder that differ by tag, attribute or number of children. None where the tops are the same by
/// themselves.
pub fn what_differs(alloc: Global, a: &[u8], b: &[u8]) -> Result<Option<What>, NoMemory>
    ensures { (x y : Top) → a.now ≡ label_of x → b.now ≡ label_of y → IsShort x → IfOk result (TellsWhat x y) }
{
    let a_place = after_language(a);
    let b_place = after_language(b);
    if !are_same(a, a_place, b, b_place) {
        return Ok(Some(What::Language));
    }
    let a_entries = after_names(a_place);
    let b_entries = after_names(b_place);
    if !are_same(a_place, a_entries, b_place, b_entries) {
        return Ok(Some(What::Space));
    }
    entries_differ(alloc, a_entries, b_entries)
}
