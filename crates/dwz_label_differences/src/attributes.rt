//! Attributes in labels: where they end, and the first that isn't the same in two entries.

ghost use Rattle.std.specs.Prelude.{◌≡◌, ◌↔◌, ℕ, ◌++◌, List, IsTrue};
ghost use Rattle.dwz_def_reading.specs.Documents.{Attr, Plain};
ghost use Rattle.dwz_def_tops.specs.Spots.{EntryName};
ghost use Rattle.dwz_label_differences.specs.Labels.{TellsUnequal};
ghost use Rattle.dwz_label.specs.Labels.{attr_label, each_counted, plain_label};

use crate::pieces::{
    after_counted, after_expressions, after_file, after_number, after_parts, after_targets,
    count_of,
};

// What stands behind what a value says without the entries that it names. The first byte is its kind.
fn after_plain(label: &[u8]) -> &[u8]
    ensures { (plain : Plain) (rest : List ℕ) → label.now ≡ plain_label plain ++ rest → result.now ≡ rest }
{
    let Some((kind, others)) = label.split_first() else {
        return label;
    };
    match *kind {
        0 | 1 => after_number(after_number(others)),
        2 => match others.split_first() {
            None => others,
            Some((_, left)) => left,
        },
        3 | 4 => after_counted(others),
        5 => after_file(others),
        6 => others,
        7..=10 => after_number(others),
        11 => after_parts(others),
        _ => after_expressions(others),
    }
}

// What stands behind an attribute.
fn after_attribute(label: &[u8]) -> &[u8]
    ensures { (a : Attr EntryName) (rest : List ℕ) → label.now ≡ attr_label a ++ rest → result.now ≡ rest }
{
    after_targets(after_plain(after_number(label)))
}

/// What stands behind the attributes of an entry, and their count before them.
pub(crate) fn after_attributes(label: &[u8]) -> &[u8]
    ensures { (attrs : List (Attr EntryName)) (rest : List ℕ) → label.now ≡ each_counted attr_label attrs ++ rest → result.now ≡ rest }
{
    let count = count_of(label);
    let mut left = after_number(label);
    for _ in 0..count {
        left = after_attribute(left);
    }
    left
}

// The bytes before what is left of them.
#[inline(always)]
fn front<'a>(label: &'a [u8], left: &[u8]) -> &'a [u8]
    ensures { (piece : List ℕ) → label.now ≡ piece ++ left.now → result.now ≡ piece }
{
    let count = label.len().saturating_sub(left.len());
    &label[..count]
}

/// Whether the same bytes stand in two labels before what is left of each.
pub(crate) fn are_same(a: &[u8], a_left: &[u8], b: &[u8], b_left: &[u8]) -> bool
    ensures { (x y : List ℕ) → a.now ≡ x ++ a_left.now → b.now ≡ y ++ b_left.now → IsTrue result ↔ (x ≡ y) }
{
    front(a, a_left) == front(b, b_left)
}

/// The number of the first attributes of two entries that aren't the same, or of the first that one of them alone has. What is passed
/// begins with the attributes of the one and of the other, and their count before them.
pub(crate) fn unequal_attribute(a: &[u8], b: &[u8]) -> Option<usize>
    ensures { (xs ys : List (Attr EntryName)) (r s : List ℕ) → a.now ≡ each_counted attr_label xs ++ r
        → b.now ≡ each_counted attr_label ys ++ s → TellsUnequal xs ys result }
{
    let a_count = count_of(a);
    let b_count = count_of(b);
    let count = a_count.min(b_count);
    let mut a_left = after_number(a);
    let mut b_left = after_number(b);
    for i in 0..count {
        let a_next = after_attribute(a_left);
        let b_next = after_attribute(b_left);
        if !are_same(a_left, a_next, b_left, b_next) {
            return Some(i);
        }
        a_left = a_next;
        b_left = b_next;
    }
    if a_count == b_count {
        None
    } else {
        Some(count)
    }
}
