//! The pairs of nodes that were looked at, and the look at the next ones.
ghost use Rattle.std.specs.Prelude.{◌≡◌, ◌↔◌, ℕ, ◌+◌, ◌<◌, ◌≤◌, false, IfOk, IfSome, IsTrue, None, OnOk, length};
ghost use Rattle.dwz_nodes.specs.Graph.{IsClosed, targets_at};
ghost use Rattle.dwz_nodes.specs.Looks.{LookEqual};
ghost use Rattle.dwz_nodes_chains.specs.Course.{Extends, IsSearch, TargetsDiffer, pair_at};

use crate::links::{Links, join_peaks, lone_nodes, peak_of};
use dwz_model::NoMemory;
use dwz_nodes::Nodes;
use std::alloc::Global;

/// Two nodes that don't differ by themselves, and how they were come by: they are targets of an earlier pair.
#[derive(Clone, Copy)]
pub(crate) struct NodePair {
    pub(crate) first: u32,
    pub(crate) second: u32,
    /// The number of that pair. The pair at the beginning has 0.
    pub(crate) from: usize,
    /// Which of its targets they are, counted from 0.
    pub(crate) by: usize,
}

/// The pairs so far, in the order of their chains, and the groups into which they join nodes.
#[derive(Drop)]
pub(crate) struct Search {
    pub(crate) pairs: Vec<NodePair>,
    pub(crate) links: Links,
}

/// Whether two nodes don't differ by themselves.
pub(crate) fn is_same_here(nodes: &Nodes, a: u32, b: u32) -> bool
    requires first { a < length nodes.now }
    requires second { b < length nodes.now }
    ensures { IsTrue result ↔ LookEqual nodes.now 1 a b }
{
    nodes.label(a) == nodes.label(b) && nodes.targets(a).len() == nodes.targets(b).len()
}

/// A search that begins with two nodes.
pub(crate) fn begin(alloc: Global, nodes: &Nodes, a: u32, b: u32) -> Result<Search, NoMemory>
    requires first { a < length nodes.now }
    requires second { b < length nodes.now }
    requires other { a ≡ b → ⊥ }
    requires same { LookEqual nodes.now 1 a b }
    ensures search { IfOk result (λ search. IsSearch nodes.now search.pairs.items search.links.above.items search.links.heights.items 0 0) }
    ensures first { IfOk result (λ search. (pair_at search.pairs.items 0).first ≡ a) }
    ensures second { IfOk result (λ search. (pair_at search.pairs.items 0).second ≡ b) }
{
    let mut links = lone_nodes(alloc, nodes.len())?;
    join_peaks(&mut links, a, b);
    let mut pairs = Vec::new(alloc);
    pairs.push(NodePair {
        first: a,
        second: b,
        from: 0,
        by: 0,
    })?;
    Ok(Search { pairs, links })
}

// Looks at two targets of a pair, and answers whether they differ by themselves. Else they are a pair too, unless they are of one group.
fn meet(nodes: &Nodes, search: &mut Search, at: usize, number: usize) -> Result<bool, NoMemory>
    requires closed { IsClosed nodes.now }
    requires at { at < length search.old.pairs.items }
    requires number { number < length (targets_at nodes.now (pair_at search.old.pairs.items at).first) }
    requires search { IsSearch nodes.now search.old.pairs.items search.old.links.above.items search.old.links.heights.items at number }
    ensures extends { OnOk result (Extends search.old.pairs.items search.new.pairs.items) }
    ensures differ { IfOk result (λ differ. IsTrue differ → TargetsDiffer nodes.now search.new.pairs.items at number) }
    ensures here { IfOk result (λ differ. IsTrue differ
        → IsSearch nodes.now search.new.pairs.items search.new.links.above.items search.new.links.heights.items at number) }
    ensures more { IfOk result (λ differ. differ ≡ false
        → IsSearch nodes.now search.new.pairs.items search.new.links.above.items search.new.links.heights.items at (number + 1)) }
{
    let pair = search.pairs[at];
    let first = nodes.targets(pair.first)[number];
    let second = nodes.targets(pair.second)[number];
    let a = peak_of(&search.links, first);
    let b = peak_of(&search.links, second);
    if a == b {
        return Ok(false);
    }
    if !is_same_here(nodes, first, second) {
        return Ok(true);
    }
    search.pairs.push(NodePair {
        first,
        second,
        from: at,
        by: number,
    })?;
    join_peaks(&mut search.links, a, b);
    Ok(false)
}

// Looks at the targets of a pair, and answers the number of the first two that differ by themselves.
fn look_on(nodes: &Nodes, search: &mut Search, at: usize) -> Result<Option<usize>, NoMemory>
    requires closed { IsClosed nodes.now }
    requires at { at < length search.old.pairs.items }
    requires search { IsSearch nodes.now search.old.pairs.items search.old.links.above.items search.old.links.heights.items at 0 }
    ensures extends { OnOk result (Extends search.old.pairs.items search.new.pairs.items) }
    ensures none { IfOk result (λ found. found ≡ None
        → IsSearch nodes.now search.new.pairs.items search.new.links.above.items search.new.links.heights.items (at + 1) 0) }
    ensures some { IfOk result (λ found. IfSome found (λ number.
        IsSearch nodes.now search.new.pairs.items search.new.links.above.items search.new.links.heights.items at number)) }
    ensures differ { IfOk result (λ found. IfSome found (λ number. TargetsDiffer nodes.now search.new.pairs.items at number)) }
{
    let first = search.pairs[at].first;
    for number in 0..nodes.targets(first).len() {
        if meet(nodes, search, at, number)? {
            return Ok(Some(number));
        }
    }
    Ok(None)
}

/// The first targets that differ by themselves: of which pair, and which of its targets.
#[derive(Clone, Copy)]
pub(crate) struct TargetsAt {
    pub(crate) at: usize,
    pub(crate) number: usize,
}

/// Looks at the targets of one pair after the other, and answers the first that differ by themselves.
pub(crate) fn look_all(nodes: &Nodes, search: &mut Search) -> Result<Option<TargetsAt>, NoMemory>
    requires closed { IsClosed nodes.now }
    requires search { IsSearch nodes.now search.old.pairs.items search.old.links.above.items search.old.links.heights.items 0 0 }
    ensures extends { OnOk result (Extends search.old.pairs.items search.new.pairs.items) }
    ensures none { IfOk result (λ found. found ≡ None → (p : ℕ) × (length search.new.pairs.items ≤ p)
        × IsSearch nodes.now search.new.pairs.items search.new.links.above.items search.new.links.heights.items p 0) }
    ensures some { IfOk result (λ found. IfSome found (λ spot.
        IsSearch nodes.now search.new.pairs.items search.new.links.above.items search.new.links.heights.items spot.at spot.number)) }
    ensures differ { IfOk result (λ found. IfSome found (λ spot. TargetsDiffer nodes.now search.new.pairs.items spot.at spot.number)) }
{
    let mut at = 0;
    'pairs: while at < search.pairs.len() {
        if let Some(number) = look_on(nodes, search, at)? {
            return Ok(Some(TargetsAt { at, number }));
        }
        at += 1;
    }
    Ok(None)
}
