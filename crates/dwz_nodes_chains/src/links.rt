//! Groups of nodes: each node is linked to one above it in its group, and the topmost, a peak, to itself.
//!
//! Of two groups the lower one comes below the other, so nothing is higher than the binary logarithm of the number of nodes.
ghost use Rattle.std.specs.Prelude.{◌≡◌, ◌≢◌, ◌⊎◌, ℕ, ◌+◌, ◌<◌, ◌≤◌, ◌^◌, IfOk, length, slice_index, slice_set};
ghost use Rattle.dwz_nodes_chains.specs.Links.{AreLinks, IsPeak, IsRaised, climb, peaks};

use dwz_model::NoMemory;
use std::alloc::Global;

/// For each node the one above it, and how high it stands: higher than all below it.
#[derive(Drop)]
pub(crate) struct Links {
    pub(crate) above: Vec<u32>,
    pub(crate) heights: Vec<u32>,
}

// The numbers below `count`, in order.
fn numbers_below(alloc: Global, count: u32) -> Result<Vec<u32>, NoMemory>
    ensures len { IfOk result (λ numbers. length numbers.items ≡ count) }
    ensures each { IfOk result (λ numbers. (x : ℕ) → x < count → slice_index numbers.items x ≡ x) }
{
    let mut numbers = Vec::new(alloc);
    for number in 0..count {
        numbers.push(number)?;
    }
    Ok(numbers)
}

/// So many nodes, each in a group of its own.
pub(crate) fn lone_nodes(alloc: Global, count: u32) -> Result<Links, NoMemory>
    ensures links { IfOk result (λ links. AreLinks links.above.items links.heights.items) }
    ensures len { IfOk result (λ links. length links.above.items ≡ count) }
    ensures each { IfOk result (λ links. (x : ℕ) → x < count → IsPeak links.above.items x) }
    ensures peaks { IfOk result (λ links. peaks links.above.items ≡ count) }
{
    let above = numbers_below(alloc, count)?;
    let heights = vec![in alloc; 0u32; count as usize]?;
    Ok(Links { above, heights })
}

/// The peak of the group of a node.
pub(crate) fn peak_of(links: &Links, a: u32) -> u32
    requires links { AreLinks links.now.above.items links.now.heights.items }
    requires inside { a < length links.now.above.items }
    ensures inside { result < length links.now.above.items }
    ensures peak { IsPeak links.now.above.items result }
    ensures up { (n : ℕ) × (climb links.now.above.items n a ≡ result) }
{
    let mut at = a;
    'up: while links.above[at as usize] != at {
        at = links.above[at as usize];
    }
    at
}

// Makes the higher of two nodes higher than the other, by at most one.
fn raise(heights: &mut Vec<u32>, low: u32, high: u32)
    requires low { low < length heights.old.items }
    requires high { high < length heights.old.items }
    requires heights { slice_index heights.old.items low ≤ slice_index heights.old.items high }
    requires room { slice_index heights.old.items low + 1 < 2 ^ 32 }
    ensures { IsRaised heights.old.items heights.new.items low high }
{
    let height = heights[low as usize];
    if height == heights[high as usize] {
        heights[high as usize] = height + 1;
    }
}

// Links a peak to another one that stands no lower.
fn put_below(links: &mut Links, low: u32, high: u32)
    requires links { AreLinks links.old.above.items links.old.heights.items }
    requires low { (low < length links.old.above.items) × IsPeak links.old.above.items low }
    requires high { (high < length links.old.above.items) × IsPeak links.old.above.items high }
    requires other { low ≢ high }
    requires heights { slice_index links.old.heights.items low ≤ slice_index links.old.heights.items high }
    ensures above { links.new.above.items ≡ slice_set links.old.above.items low high }
    ensures links { AreLinks links.new.above.items links.new.heights.items }
    ensures fewer { peaks links.new.above.items + 1 ≡ peaks links.old.above.items }
{
    raise(&mut links.heights, low, high);
    links.above[low as usize] = high;
}

/// Joins the groups of two peaks.
pub(crate) fn join_peaks(links: &mut Links, a: u32, b: u32)
    requires links { AreLinks links.old.above.items links.old.heights.items }
    requires first { (a < length links.old.above.items) × IsPeak links.old.above.items a }
    requires second { (b < length links.old.above.items) × IsPeak links.old.above.items b }
    requires other { a ≢ b }
    ensures above { (links.new.above.items ≡ slice_set links.old.above.items a b)
        ⊎ (links.new.above.items ≡ slice_set links.old.above.items b a) }
    ensures links { AreLinks links.new.above.items links.new.heights.items }
    ensures fewer { peaks links.new.above.items + 1 ≡ peaks links.old.above.items }
{
    if links.heights[a as usize] < links.heights[b as usize] {
        put_below(links, a, b);
    } else {
        put_below(links, b, a);
    }
}
