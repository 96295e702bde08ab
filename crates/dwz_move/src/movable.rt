//! Which tops may move, from what each refers to.

ghost use Rattle.std.specs.Prelude.{◌≡◌, ℕ, ◌<◌, ◌^◌, List, ◌++◌, length, map, not, IfOk, OnOk};
ghost use Rattle.dwz_def_tops.specs.Deciding.{AreMovable};
ghost use Rattle.dwz_def_tops.specs.Spots.{EntryName, FileUnit};
ghost use Rattle.dwz_move.specs.BoundTops.{AreSeeds, ShowTargets};
ghost use Rattle.dwz_move.specs.Sources.{source, sources_from};
ghost use Rattle.dwz_groups.specs.Spreading.{AreInside};

use dwz_groups::{Edge, Groups, group, spread};
use dwz_model::{Flags, NoMemory};
use std::alloc::Global;

// Adds a top as a source of each of its targets.
fn add_sources(pairs: &mut Vec<Edge>, top: u32, targets: &[u32]) -> Result<(), NoMemory>
    ensures { OnOk result (pairs.new.items ≡ pairs.old.items ++ map (source top) targets.now) }
{
    for target in targets {
        pairs.push(Edge {
            key: *target,
            value: top,
        })?;
    }
    Ok(())
}

// Under each target the tops that refer into it.
fn sources_of(alloc: Global, targets: &Groups) -> Result<Vec<Edge>, NoMemory>
    requires { length targets.now < 2 ^ 32 }
    ensures { IfOk result (λ pairs. pairs.items ≡ sources_from 0 targets.now) }
{
    let mut pairs = Vec::with_capacity(alloc, targets.items().len())?;
    for top in 0..targets.len() {
        add_sources(&mut pairs, top as u32, targets.get(top))?;
    }
    Ok(pairs)
}

// The other way round.
fn negate(alloc: Global, marks: &[bool]) -> Result<Flags, NoMemory>
    ensures { IfOk result (λ flags. flags ≡ map not marks.now) }
{
    let mut flags = Vec::with_capacity(alloc, marks.len())?;
    for mark in marks {
        flags.push(!*mark)?;
    }
    Ok(Flags::new(flags))
}

/// Whether each top may move. Of each is given into which tops its references go, in any order, and whether it binds itself; then it
/// doesn't matter where they go.
pub fn movable_by(alloc: Global, targets: &Groups, seeds: &[bool]) -> Result<Flags, NoMemory>
    requires few { length targets.now < 2 ^ 32 }
    requires len { length seeds.now ≡ length targets.now }
    requires inside { AreInside targets.now }
    ensures { IfOk result (λ flags. (units : List (FileUnit EntryName)) → ShowTargets units targets.now → AreSeeds units seeds.now
        → AreMovable units flags) }
{
    let pairs = sources_of(alloc, targets)?;
    let sources = group(alloc, targets.len(), pairs.as_slice())?;
    let marks = spread(alloc, &sources, seeds)?;
    let flags = negate(alloc, marks.as_slice())?;
    Ok(flags)
}
