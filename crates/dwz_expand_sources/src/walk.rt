//! A walk over the sources of a new unit.

ghost use Rattle.std.specs.Prelude.{◌≡◌, ◌∷◌, ◌+◌, ◌<◌, ◌^◌, [], MatchOption, Some, length, slice_get};
ghost use Rattle.dwz_model.specs.Lists.{Each};
ghost use Rattle.dwz_expand_sources.specs.Numbers.{HasRanges};
ghost use Rattle.dwz_expand_sources.specs.declared.sources.NewUnit.{NewUnit};
ghost use Rattle.dwz_expand_sources.specs.Walk.{HasEntries, sources_of};

use crate::sources::{SourceRange, Sources};
use std::marker::Model;

/// The sources of a new unit that come next. Clauses see the list of their numbers.
#[derive(Drop)]
pub struct SourceWalk<'s> {
    // The next of those that stand one behind the other, and the one behind the last of them.
    next: u32,
    end: u32,
    // Those that come then.
    ranges: &'s [SourceRange],
}

impl<'s> Model for SourceWalk<'s> {
    ghost use Rattle.std.specs.Prelude.{List, ℕ};
    ghost use Rattle.dwz_model.specs.Lists.{Each};
    ghost use Rattle.dwz_expand_sources.specs.Walk.{HasEntries, left};

    ghost Value = { List ℕ };

    ghost view = { λ w. left w.next w.end w.ranges.now };

    ghost invariant = { λ w. Each HasEntries w.ranges.now };
}

impl<'s> SourceWalk<'s> {
    /// The sources of the unit with a number.
    pub fn new(sources: &'s Sources, unit: usize) -> SourceWalk<'s>
        requires unit { unit < length sources.now.units }
        requires ranges { Each (HasRanges sources.now.ranges) sources.now.units }
        requires entries { Each HasEntries sources.now.ranges }
        requires few { Each (λ x. x.root + 1 < 2 ^ 32) sources.now.units }
        ensures { (x : NewUnit) → slice_get sources.now.units unit ≡ Some x → result ≡ sources_of sources.now.ranges x }
    {
        let new = sources.units()[unit];
        SourceWalk {
            next: new.root,
            end: new.root + 1,
            ranges: &sources.ranges()[new.first..new.end],
        }
    }

    /// The number of the next one, or none behind the last.
    #[inline(always)]
    pub fn next(&mut self) -> Option<u32>
        ensures { MatchOption result (self.old ≡ []) (λ entry. self.old ≡ entry ∷ self.new) }
    {
        if self.next >= self.end {
            let (range, ranges) = self.ranges.split_first()?;
            self.next = range.first;
            self.end = range.end;
            self.ranges = ranges;
        }
        let entry = self.next;
        self.next += 1;
        Some(entry)
    }
}
