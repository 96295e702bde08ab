//! The first entries of two tops that differ by themselves.

ghost use Rattle.std.specs.Prelude.{◌≡◌, ◌<◌, ◌^◌, IfSome, None, length};
ghost use Rattle.dwz_def_reading.specs.Lists.{Each};
ghost use Rattle.dwz_def_explain.specs.What.{Subtree};
ghost use Rattle.dwz_label_differences.specs.Labels.{Agree, AreEntryLabels, FirstAt, FlatEntry, IsEntryLabel, TellsEntries, whole};

use crate::attributes::{are_same, unequal_attribute};
use crate::entries::{EntryLabel, children_of, entry_at};
use crate::pieces::after_number;

/// In what two entries differ by themselves.
#[derive(Clone, Copy)]
pub(crate) enum Difference {
    /// Their tags.
    Tag,
    /// The attributes with this number: their names or values, or one of them isn't there.
    Attribute(u32),
    /// How many children they have.
    Children,
}

// In what two entries differ by themselves, of which it is known how many children they have.
fn difference_of(
    a: &EntryLabel,
    a_children: usize,
    b: &EntryLabel,
    b_children: usize,
) -> Option<Difference>
    ensures { (d e : FlatEntry) → IsEntryLabel d a.now → IsEntryLabel e b.now → a_children ≡ d.children → b_children ≡ e.children
        → length d.node.attrs < 2 ^ 32 → TellsEntries d e result }
{
    let a_attributes = after_number(a.label);
    let b_attributes = after_number(b.label);
    if !are_same(a.label, a_attributes, b.label, b_attributes) {
        return Some(Difference::Tag);
    }
    if let Some(index) = unequal_attribute(a_attributes, b_attributes) {
        return Some(Difference::Attribute(index.min(u32::MAX as usize) as u32));
    }
    if a_children == b_children {
        None
    } else {
        Some(Difference::Children)
    }
}

/// The number of the first entries of two tops that differ by themselves, in preorder, and in what.
pub(crate) fn first_difference(a: &[EntryLabel], b: &[EntryLabel]) -> Option<(usize, Difference)>
    ensures none { (x y : Subtree) → AreEntryLabels (whole x) a.now → AreEntryLabels (whole y) b.now
        → Each (λ d. length d.node.attrs < 2 ^ 32) (whole x) → result ≡ None → Agree (whole x) (whole y) }
    ensures some { (x y : Subtree) → AreEntryLabels (whole x) a.now → AreEntryLabels (whole y) b.now
        → Each (λ d. length d.node.attrs < 2 ^ 32) (whole x)
        → IfSome result (λ found. FirstAt found.1 found.0 (whole x) (whole y)) }
    ensures within { IfSome result (λ found. found.0 < length a.now) }
{
    for k in 0..a.len().min(b.len()) {
        let a_entry = entry_at(a, k);
        let b_entry = entry_at(b, k);
        let a_children = children_of(a, k);
        let b_children = children_of(b, k);
        if let Some(difference) = difference_of(a_entry, a_children, b_entry, b_children) {
            return Some((k, difference));
        }
    }
    None
}
