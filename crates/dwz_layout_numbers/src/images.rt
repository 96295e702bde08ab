//! The entries that stand for others after.

ghost use Rattle.std.specs.Prelude.{◌≡◌, ℕ, ◌+◌, ◌-◌, ◌<◌, ◌≤◌, ◌^◌, All, List, Some, length, slice_get, slice_index, IfOk};
ghost use Rattle.dwz_def_tops.specs.Spots.{EntryName};
ghost use Rattle.dwz_def_reading.specs.Documents.{Doc};
ghost use Rattle.dwz_def_images.specs.Moves.{Move};
ghost use Rattle.dwz_layout_numbers.specs.Images.{AreImages, IsFile, IsImage, IsPlanned};

use dwz_graph::Index;
use dwz_model::NoMemory;
use dwz_plan::Plan;
use std::alloc::Global;

// The number that is as far behind `to` as `number` behind `from`.
#[inline(always)]
fn moved_number(number: u32, from: u32, to: u32) -> u32
    ensures { from ≤ number → to + (number - from) < 2 ^ 32 → result ≡ to + (number - from) }
{
    to.wrapping_add(number.wrapping_sub(from))
}

// The same for an entry of a top, from that to the one that stands for it. `tops` has the numbers of their entries.
#[inline(always)]
fn in_top(plan: &Plan, tops: &[u32], top: u32, number: u32) -> u32
    requires { length plan.now.stand_ins ≡ length tops.now }
    ensures { (from to : ℕ) → slice_get tops.now top ≡ Some from → slice_get tops.now (slice_index plan.now.stand_ins top) ≡ Some to
        → from ≤ number → to + (number - from) < 2 ^ 32 → result ≡ to + (number - from) }
{
    if top as usize >= tops.len() {
        return number;
    }
    let stand = plan.stand_in(top) as usize;
    if stand >= tops.len() {
        return number;
    }
    moved_number(number, tops[top as usize], tops[stand])
}

/// The number among all entries of the one that stands for an entry after: of a top the one at the same path under the top that stands
/// for it, which may be one of a finished common file, else its own. The file's entries begin with the number `start`; `tops` has for each
/// top the number of its entry.
#[inline(always)]
pub fn image(index: &Index, plan: &Plan, tops: &[u32], start: u32, entry: u32) -> u32
    requires there { entry < length index.now.steps }
    requires few { start + length index.now.steps < 2 ^ 32 }
    requires plan { length plan.now.stand_ins ≡ length tops.now }
    ensures { (docs : List (Doc ℕ)) (m : Move) (names : List EntryName) → IsPlanned docs m plan.now tops.now
        → IsFile docs names index.now start → IsImage docs m names entry result }
{
    let number = start + entry;
    match index.top_of(entry) {
        Some(top) => in_top(plan, tops, top, number),
        None => number,
    }
}

/// The same for each reference of a file, by the entry that it names there.
pub fn references(
    alloc: Global,
    index: &Index,
    plan: &Plan,
    tops: &[u32],
    start: u32,
    refs: &[u32],
) -> Result<Vec<u32>, NoMemory>
    requires there { All (λ entry. entry < length index.now.steps) refs.now }
    requires few { start + length index.now.steps < 2 ^ 32 }
    requires plan { length plan.now.stand_ins ≡ length tops.now }
    ensures { (docs : List (Doc ℕ)) (m : Move) (names : List EntryName) → IsPlanned docs m plan.now tops.now
        → IsFile docs names index.now start → IfOk result (λ v. AreImages docs m names refs.now v.items) }
{
    let mut images = Vec::with_capacity(alloc, refs.len())?;
    for entry in refs {
        images.push(image(index, plan, tops, start, *entry))?;
    }
    Ok(images)
}
