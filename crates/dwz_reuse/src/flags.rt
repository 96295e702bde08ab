//! Which tops of a common file may move.

ghost use Rattle.std.specs.Prelude.{◌≡◌, ℕ, ◌+◌, ◌<◌, ◌≤◌, ◌^◌, ◌||◌, All, false, List, IfOk, length, slice_index_or};
ghost use Rattle.dwz_check_index.specs.Both.{from_top};
ghost use Rattle.dwz_check_index.specs.Index.{IsCrossIndex};
ghost use Rattle.dwz_def_check.specs.CrossNames.{CrossName, cross_tops};
ghost use Rattle.dwz_def_reading.specs.Documents.{Doc};
ghost use Rattle.dwz_def_reading.specs.Units.{entries_in};
ghost use Rattle.dwz_def_taken.specs.Beside.{reused_of};
ghost use Rattle.dwz_match.specs.Bare.{AreCommonNames, ShowBare};
ghost use Rattle.dwz_match.specs.ClassLaws.{AreCommonFlags};
ghost use Rattle.dwz_reuse.specs.Behind.{StandsBehind};
ghost use Rattle.dwz_reuse.specs.Operands.{HasOperandRows};
ghost use Rattle.dwz_reuse.specs.Spread.{AreCommonSeeds};
ghost use Rattle.dwz_unit.specs.Rows.{units_of};

use crate::into::tops_into;
use crate::named::named_tops;
use crate::spread::unbound;
use crate::top_binds::tops_bind;
use dwz_check_index::{CrossIndex, CrossStarts};
use dwz_graph::File;
use dwz_groups::Groups;
use dwz_model::NoMemory;
use dwz_move::TopRange;
use std::alloc::Global;

// One or the other.
fn is_either(a: bool, b: bool) -> bool
    ensures { result ≡ (a || b) }
{
    a || b
}

// For each top whether its entries bind it, or an operand names it, where the first one has that number among those that are named.
fn bound_or_named(
    alloc: Global,
    binding: &[bool],
    named: &[bool],
    first: u32,
) -> Result<Vec<bool>, NoMemory>
    requires len { first + length binding.now ≡ length named.now }
    ensures len { IfOk result (λ seeds. length seeds.items ≡ length binding.now) }
    ensures each { IfOk result (λ seeds. (k : ℕ) → k < length binding.now
        → slice_index_or seeds.items k false ≡ (slice_index_or binding.now k false || slice_index_or named.now (first + k) false)) }
{
    let mut seeds = Vec::new(alloc);
    for (top, binds) in binding.iter().enumerate() {
        seeds.push(is_either(*binds, named[first as usize + top]))?;
    }
    Ok(seeds)
}

// For each top of a common file whether it is bound without a reference, by the file's index, which has the numbers of its tops: the first
// has that one.
fn common_seeds(
    alloc: Global,
    common: &File,
    index: &CrossIndex,
    first: u32,
) -> Result<Vec<bool>, NoMemory>
    requires said { (docs : List (Doc ℕ)) × (doc : Doc ℕ) × StandsBehind common.now first docs doc
        × IsCrossIndex (from_top first) doc.units index.now }
    requires operands { HasOperandRows common.now }
    requires steps { length index.now.steps ≡ entries_in (units_of common.now.units) }
    requires room { first + length index.now.tops < 2 ^ 32 }
    ensures len { IfOk result (λ seeds. length seeds.items ≡ length index.now.tops) }
    ensures each { (docs : List (Doc ℕ)) (doc : Doc ℕ) → StandsBehind common.now first docs doc
        → IsCrossIndex (from_top first) doc.units index.now → IfOk result (λ seeds. AreCommonSeeds (reused_of docs doc) seeds.items) }
{
    let into = tops_into(alloc, common, index, common.resolved.refs.as_slice())?;
    let own = TopRange {
        first,
        end: first + index.tops().len() as u32,
    };
    let binding = tops_bind(alloc, common, index, &own, into.as_slice())?;
    let named = named_tops(alloc, common, index, into.as_slice(), own.end as usize)?;
    let seeds = bound_or_named(alloc, binding.as_slice(), named.as_slice(), first)?;
    Ok(seeds)
}

/// Of each top of a common file whether it may move, as looks across files go over it: none of its entries binds it, no operand names it, and
/// nor is it so with a top that a chain of references leads into. The targets are those of all tops that looks go over; the common file's
/// come behind those of the files, of which there are so many.
pub(crate) fn common_flags(
    alloc: Global,
    common: &File,
    targets: &Groups,
    first: u32,
) -> Result<Vec<bool>, NoMemory>
    requires said { (docs : List (Doc ℕ)) × (doc : Doc ℕ) × StandsBehind common.now first docs doc
        × (length targets.now ≡ first + length (cross_tops doc.units)) }
    requires operands { HasOperandRows common.now }
    requires few { first ≤ 2 ^ 31 }
    requires inside { All (λ ts. All (λ t. t < length targets.now) ts) targets.now }
    ensures len { IfOk result (λ flags. first + length flags.items ≡ length targets.now) }
    ensures flags { (docs : List (Doc ℕ)) (doc : Doc ℕ) (name : ℕ → CrossName) (labels : List (List ℕ))
        → StandsBehind common.now first docs doc → AreCommonNames docs doc name → ShowBare docs doc name labels targets.now
        → IfOk result (λ flags. AreCommonFlags (reused_of docs doc) flags.items) }
{
    let index = CrossIndex::read(
        alloc,
        &common.units,
        &CrossStarts {
            top: first,
            lone: 0,
        },
    )?;
    let seeds = common_seeds(alloc, common, &index, first)?;
    let flags = unbound(alloc, targets, seeds.as_slice(), first)?;
    Ok(flags)
}
