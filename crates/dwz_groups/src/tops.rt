//! The tops of the files of one run, and what decides whether they move.
//!
//! A top is an entry in the root of a compile unit, or in a named namespace there, with all entries below it.

use crate::groups::Groups;
use dwz_model::{DwzList, Numbers, Place};

/// A top. Tops are numbered from 0 in order of place.
#[derive(Clone, Copy, Debug, PartialEq, Eq)]
pub struct TopRow {
    pub place: Place,
    /// The number of its unit, counted over all files.
    pub unit: u32,
    /// About how many bytes it takes, with all entries below it. Where that is 64 or more, any number does that is 64 or more: so
    /// whoever counts may stop there.
    pub weight: u32,
    /// Whether it may be moved into a partial unit.
    pub movable: bool,
    /// Whether an operand of an expression that is a ULEB128 number names an entry in it.
    pub pinned: bool,
}

/// The tops of all files, in order of place.
pub type TopRows = DwzList<TopRow>;

/// The tops of all files, what they refer to, and which unit belongs to which file.
#[derive(Drop)]
pub struct Tops {
    pub rows: TopRows,
    /// For each top the numbers of the tops that its references name, in any order, and as often as they like.
    pub targets: Groups,
    /// For each unit in order the number of its file.
    pub files_of_units: Numbers,
    /// How many files there are.
    pub files: u32,
}
