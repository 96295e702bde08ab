//! The new units, and the ranges of their sources, as flat rows.

ghost use Rattle.std.specs.Prelude.{◌≡◌, ◌≤◌, ◌<◌, length, slice_index_or, slice_range, slice_get, Some};

use std::marker::Model;

/// Entries that stand one behind the other, with all that is below them.
#[derive(Clone, Copy, Debug, PartialEq, Eq)]
pub struct SourceRange {
    /// The number of the first. Those of the common file have the numbers behind the file's own.
    pub first: u32,
    /// The number behind that of the last.
    pub end: u32,
}

/// A unit of the new file.
#[derive(Clone, Copy, Debug, PartialEq, Eq)]
pub struct NewUnit {
    /// The number of the unit of which it comes.
    pub unit: u32,
    /// The number of that one's root.
    pub root: u32,
    /// The number of its first range.
    pub first: usize,
    /// The number behind that of its last range.
    pub end: usize,
}

/// The units of the new file in order, and the ranges of entries that are their sources. Clauses see both lists.
#[derive(Drop)]
pub struct Sources {
    pub(crate) units: Vec<NewUnit>,
    pub(crate) ranges: Vec<SourceRange>,
}

impl Model for Sources {
    ghost use Rattle.dwz_expand_sources.specs.Sources.{Sources};

    ghost Value = { Sources };

    ghost view = { λ s. record { units = s.units.items; ranges = s.ranges.items } };
}

impl Sources {
    /// The new units, in order.
    pub fn units(&self) -> &[NewUnit]
        ensures { result.now ≡ self.now.units }
    {
        self.units.as_slice()
    }

    /// The ranges of all new units, in order: those of a unit stand one behind the other.
    pub fn ranges(&self) -> &[SourceRange]
        ensures { result.now ≡ self.now.ranges }
    {
        self.ranges.as_slice()
    }
}
