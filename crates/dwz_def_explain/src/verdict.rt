//! What is said of two tops that may move.

use dwz_model::Numbers;

/// Whether two tops are alike, and if not, what tells them apart.
#[derive(Debug, Drop)]
pub enum Verdict {
    /// No look of any depth tells them apart.
    Alike,
    /// From both tops the references with these numbers, one after the other, lead to two tops that differ in that.
    Differ { chain: Numbers, what: What },
}

/// What differs between two tops by themselves. A path has the indexes of children from the top down to an entry.
#[derive(Debug, Drop)]
pub enum What {
    /// The languages of their units (DWARF 5, 3.1.1).
    Language,
    /// The tags of the entries at that path.
    Tag { path: Numbers },
    /// Of the entries at that path the attributes with this number: one of them isn't there, or their names or values differ.
    Attribute { path: Numbers, index: u32 },
    /// How many children the entries at that path have.
    Children { path: Numbers },
    /// The names of the spaces that they stand in (3.2.2).
    Space,
}
