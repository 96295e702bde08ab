//! Which tops of a common file may move, from what each refers to.

ghost use Rattle.std.specs.Prelude.{◌≡◌, ◌↔◌, ℕ, ◌+◌, ◌<◌, ◌^◌, List, IfOk, OnOk, length, map, not, slice_index_or};
ghost use Rattle.dwz_def_reading.specs.Documents.{Doc};
ghost use Rattle.dwz_def_taken.specs.Beside.{own_tops, reused_of};
ghost use Rattle.dwz_def_taken.specs.Laws.{ArePlacedOver};
ghost use Rattle.dwz_groups.specs.Spreading.{AreInside};
ghost use Rattle.dwz_match.specs.ClassLaws.{AreCommonFlags};
ghost use Rattle.dwz_match.specs.Partial.{ArePartial};
ghost use Rattle.dwz_reuse.specs.Spread.{AreCommonSeeds, AreSources, PutsSources, ShowCommonTargets};

use dwz_groups::{Edge, Groups, group, spread};
use dwz_model::NoMemory;
use std::alloc::Global;

// Adds a top as a source of each of its targets, counted from the first top of the common file.
fn put_sources(edges: &mut Vec<Edge>, first: u32, top: u32, targets: &[u32]) -> Result<(), NoMemory>
    ensures { OnOk result (PutsSources first top targets.now edges.old.items edges.new.items) }
{
    for target in targets {
        if *target >= first {
            edges.push(Edge {
                key: *target - first,
                value: top,
            })?;
        }
    }
    Ok(())
}

// Under each target the tops of the common file that refer into it, of which there are so many.
fn sources_of(
    alloc: Global,
    targets: &Groups,
    first: u32,
    count: usize,
) -> Result<Vec<Edge>, NoMemory>
    requires few { length targets.now < 2 ^ 32 }
    requires count { first + count ≡ length targets.now }
    ensures { IfOk result (λ edges. AreSources first targets.now edges.items) }
{
    let mut edges = Vec::new(alloc);
    for top in 0..count {
        put_sources(
            &mut edges,
            first,
            top as u32,
            targets.get(first as usize + top),
        )?;
    }
    Ok(edges)
}

// The other way round.
fn negated(alloc: Global, marks: &[bool]) -> Result<Vec<bool>, NoMemory>
    ensures { IfOk result (λ flags. flags.items ≡ map not marks.now) }
{
    let mut flags = Vec::new(alloc);
    for mark in marks {
        flags.push(!*mark)?;
    }
    Ok(flags)
}

/// Of each top of a common file whether it may move. Of each is given whether it is bound without a reference, and of each of all tops into
/// which ones its references go: those of the common file come behind the others, and the first has that number.
pub(crate) fn unbound(
    alloc: Global,
    targets: &Groups,
    seeds: &[bool],
    first: u32,
) -> Result<Vec<bool>, NoMemory>
    requires few { length targets.now < 2 ^ 32 }
    requires len { first + length seeds.now ≡ length targets.now }
    requires inside { AreInside targets.now }
    ensures len { IfOk result (λ flags. length flags.items ≡ length seeds.now) }
    ensures flags { (docs : List (Doc ℕ)) (doc : Doc ℕ) → ArePlacedOver docs doc → ArePartial doc.units → own_tops (reused_of docs doc) ≡ first
        → AreCommonSeeds (reused_of docs doc) seeds.now → ShowCommonTargets (reused_of docs doc) targets.now
        → IfOk result (λ flags. AreCommonFlags (reused_of docs doc) flags.items) }
{
    let edges = sources_of(alloc, targets, first, seeds.len())?;
    let sources = group(alloc, seeds.len(), edges.as_slice())?;
    let marks = spread(alloc, &sources, seeds)?;
    let flags = negated(alloc, marks.as_slice())?;
    Ok(flags)
}
