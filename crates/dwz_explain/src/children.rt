//! Entries below an entry, by the indexes of children.

ghost use Rattle.std.specs.Prelude.{◌<◌, ℕ};
ghost use Rattle.dwz_def_explain.specs.Texts.{child_at, entry_along};
ghost use Rattle.dwz_def_explain.specs.What.{Subtree};
ghost use Rattle.dwz_def_reading.specs.Meanings.{MeaningContext};
ghost use Rattle.dwz_def_reading.specs.Units.{entries_in};
ghost use Rattle.dwz_def_tops.specs.Spots.{EntryName};
ghost use Rattle.dwz_explain.specs.Shown.{HasSubtree, MeansSubtree};
ghost use Rattle.dwz_unit.specs.Rows.{units_of};

use dwz_unit::Units;

// The number of the child with an index of an entry; where there is none, that of the entry itself.
fn child_of(units: &Units, entry: u32, index: u32) -> u32
    requires { HasSubtree (units_of units.now) entry }
    ensures has { HasSubtree (units_of units.now) result }
    ensures child { (s : MeaningContext ℕ) (name : ℕ → EntryName) (x : Subtree) → MeansSubtree s name (units_of units.now) entry x
        → MeansSubtree s name (units_of units.now) result (child_at x index x.below) }
{
    let end = units.entry(entry).end;
    let mut at = entry + 1;
    for _ in 0..index {
        if at >= end {
            return entry;
        }
        at = units.entry(at).end;
    }
    if at < end { at } else { entry }
}

/// The number of the entry at a path below an entry, from index to index; where a child isn't there, that of what was reached last.
pub(crate) fn find_entry(units: &Units, entry: u32, path: &[u32]) -> u32
    requires { HasSubtree (units_of units.now) entry }
    ensures has { HasSubtree (units_of units.now) result }
    ensures along { (s : MeaningContext ℕ) (name : ℕ → EntryName) (x : Subtree) → MeansSubtree s name (units_of units.now) entry x
        → MeansSubtree s name (units_of units.now) result (entry_along path.now x) }
{
    let mut at = entry;
    for index in path {
        at = child_of(units, at, *index);
    }
    at
}
