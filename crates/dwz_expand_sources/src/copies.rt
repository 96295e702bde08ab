//! The copies of entries, and the unit at hand.

ghost use Rattle.std.specs.Prelude.{◌≡◌, ℕ, ◌<◌, ◌^◌, List, Some, length, slice_get, IfOk};
ghost use Rattle.dwz_model.specs.Lists.{NoneTwice};
ghost use Rattle.dwz_def_tops.specs.Shown.{units_keys};
ghost use Rattle.dwz_def_cross.specs.Tops.{WithCommon, units_with_common};
ghost use Rattle.dwz_check_index.specs.Index.{ListedEntry};
ghost use Rattle.dwz_expand_sources.specs.Numbers.{copy_count, root_numbers};
ghost use Rattle.dwz_expand_sources.specs.Sources.{AreSources, Sources, all_entries};
ghost use Rattle.dwz_expand_sources.specs.Copies.{IsCopyFor};
ghost use Rattle.dwz_expand_sources.specs.Rows.{AreCopies};

use crate::numbers::CopyNumbers;
use crate::rows::{note_first, note_unit};
use crate::sources::Sources as SourcesOfCode;
use dwz_model::NoMemory;
use std::alloc::Global;
use std::marker::Model;

/// Where a copy of an entry stands.
#[derive(Clone, Copy, Debug, PartialEq, Eq)]
pub struct CopyAt {
    /// The number of its unit among the new units.
    pub unit: usize,
    /// Its number among the entries of all new units.
    pub number: u64,
}

/// Of each entry of a file and of its common file the first copy, and the copy in the new unit that is at hand.
#[derive(Drop)]
pub struct Copies {
    // How many new units there are. A copy in the one with that number is none.
    units: usize,
    first: Vec<CopyAt>,
    here: Vec<CopyAt>,
    unit: usize,
}

impl Model for Copies {
    ghost use Rattle.dwz_expand_sources.specs.Rows.{Copies};

    ghost Value = { Copies };

    ghost view = { λ c. record { units = c.units; first = c.first.items; here = c.here.items; unit = c.unit } };
}

impl Copies {
    /// The copies of so many entries, of the file's own and behind them those of its common file; no unit is at hand.
    pub fn of(
        alloc: Global,
        sources: &SourcesOfCode,
        numbers: &CopyNumbers,
        entries: usize,
    ) -> Result<Copies, NoMemory>
        requires sources { (w : WithCommon ℕ) × AreSources w sources.now × (length (all_entries w) ≡ entries) }
        requires numbers { numbers.now.roots ≡ root_numbers sources.now.ranges 0 sources.now.units }
        requires few { copy_count sources.now.ranges sources.now.units < 2 ^ 64 }
        ensures copies { IfOk result (λ c. AreCopies sources.now numbers.now.roots c) }
        ensures entries { IfOk result (λ c. length c.first ≡ entries) }
    {
        let units = sources.units().len();
        let none = CopyAt {
            unit: units,
            number: 0,
        };
        let mut first = vec![in alloc; none; entries]?;
        note_first(&mut first, sources, numbers);
        let here = vec![in alloc; none; entries]?;
        Ok(Copies {
            units,
            first,
            here,
            unit: units,
        })
    }

    /// Goes to a new unit.
    pub fn enter(&mut self, sources: &SourcesOfCode, numbers: &CopyNumbers, unit: usize)
        requires unit { unit < length sources.now.units }
        requires copies { AreCopies sources.now numbers.now.roots self.old }
        ensures copies { AreCopies sources.now numbers.now.roots self.new }
        ensures unit { self.new.unit ≡ unit }
        ensures entries { length self.new.first ≡ length self.old.first }
    {
        note_unit(&mut self.here, sources, numbers, unit);
        self.unit = unit;
    }

    /// The copy that an entry stands for in the unit at hand: the one in that unit, or else the first; or none, where no new unit has one.
    pub fn copy_of(&self, entry: u32) -> Option<CopyAt>
        requires entry { entry < length self.now.first }
        requires copies { (s : Sources) × (roots : List ℕ) × AreCopies s roots self.now × (self.now.unit < length s.units) }
        ensures { (w : WithCommon ℕ) (s : Sources) (roots : List ℕ) → AreSources w s → NoneTwice (units_keys (units_with_common w))
            → AreCopies s roots self.now → length (all_entries w) ≡ length self.now.first → self.now.unit < length s.units
            → (d : ListedEntry ℕ) → slice_get (all_entries w) entry ≡ Some d → IsCopyFor w self.now.unit d.0.at result }
    {
        let here = self.here[entry as usize];
        if here.unit == self.unit {
            return Some(here);
        }
        let first = self.first[entry as usize];
        if first.unit < self.units {
            Some(first)
        } else {
            None
        }
    }
}
