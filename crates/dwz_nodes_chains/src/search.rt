//! The search, and the chain that it finds.
ghost use Rattle.std.specs.Prelude.{◌≡◌, ◌<◌, IfOk, IfSome, None, length};
ghost use Rattle.dwz_nodes.specs.Graph.{IsClosed};
ghost use Rattle.dwz_nodes.specs.Looks.{Alike};
ghost use Rattle.dwz_nodes_chains.specs.LeastWays.{IsApart};
ghost use Rattle.dwz_nodes_chains.specs.Course.{AreReached, IsFollowed, TargetsDiffer, pair_at};

use crate::pairs::{NodePair, begin, is_same_here, look_all};
use dwz_model::NoMemory;
use dwz_nodes::Nodes;
use std::alloc::Global;

/// What tells two nodes apart.
#[derive(Debug, Drop)]
pub struct Difference {
    /// The numbers of the targets that are followed from both nodes, one after the other, counted from 0.
    pub chain: Vec<usize>,
    /// Where they lead to from the first node.
    pub first: u32,
    /// Where they lead to from the second node. The two differ in their labels, or in how many targets they have.
    pub second: u32,
}

// The chain that leads to two targets of a pair.
fn apart_at(
    alloc: Global,
    nodes: &Nodes,
    pairs: &[NodePair],
    at: usize,
    number: usize,
) -> Result<Difference, NoMemory>
    requires closed { IsClosed nodes.now }
    requires reached { AreReached nodes.now pairs.now }
    requires followed { IsFollowed nodes.now pairs.now (length pairs.now) at number }
    requires differ { TargetsDiffer nodes.now pairs.now at number }
    ensures { IfOk result (λ apart. IsApart nodes.now (pair_at pairs.now 0).first (pair_at pairs.now 0).second
        apart.chain.items apart.first apart.second) }
{
    let last = pairs[at];
    let first = nodes.targets(last.first)[number];
    let second = nodes.targets(last.second)[number];
    let mut chain = Vec::new(alloc);
    chain.push(number)?;
    let mut row = at;
    'back: while row > 0 {
        let pair = pairs[row];
        chain.push(pair.by)?;
        row = pair.from;
    }
    chain.reverse();
    Ok(Difference {
        chain,
        first,
        second,
    })
}

/// Of all chains of targets that lead from two nodes to two that differ by themselves the least: the shortest, and of those as long the
/// one with the lowest numbers, compared from the first on. None where the two nodes are alike.
pub fn find_chain(
    alloc: Global,
    nodes: &Nodes,
    a: u32,
    b: u32,
) -> Result<Option<Difference>, NoMemory>
    requires closed { IsClosed nodes.now }
    requires first { a < length nodes.now }
    requires second { b < length nodes.now }
    ensures alike { IfOk result (λ found. found ≡ None → Alike nodes.now a b) }
    ensures apart { IfOk result (λ found. IfSome found (λ apart. IsApart nodes.now a b apart.chain.items apart.first apart.second)) }
{
    if a == b {
        return Ok(None);
    }
    if !is_same_here(nodes, a, b) {
        return Ok(Some(Difference {
            chain: Vec::new(alloc),
            first: a,
            second: b,
        }));
    }
    let mut search = begin(alloc, nodes, a, b)?;
    match look_all(nodes, &mut search)? {
        None => Ok(None),
        Some(spot) => {
            let apart = apart_at(alloc, nodes, search.pairs.as_slice(), spot.at, spot.number)?;
            Ok(Some(apart))
        }
    }
}
