//! Why two nodes aren't alike: small graphs that were worked out by hand, and large ones on which a search that doesn't join what it has
//! seen wouldn't end.

use crate::expect::holds;
use crate::nodes::graph;
use crate::rounds::is_closed;
use dwz_nodes::Nodes;
use dwz_nodes_chains::{Difference, find_chain};
use std::alloc::Global;
use std::process::Abort;

// Nodes, two of them as digits, and what tells these apart: nothing, or the chain and the nodes that it leads to, as digits.
const CASES: &str = "\
b1,b0, 11 is alike: a node and itself
a1,b0, 01 is 01: two labels
a1,a11, 10 is 10: equal labels with other numbers of targets
a1,b23,c,d,a5,b67,c,e, 04 is 0137: the targets of a target
a11,b45,a31,b44,c,d, 02 is 0154: two chains of one length, where the lower first number counts
a14,b4,a35,b5,c,d, 02 is 145: a shorter chain with a higher number
a121,b6,b7,a455,b6,b7,c,d, 03 is 2067: a pair whose nodes were both seen, but not with each other
f1,f0,f2, 02 is alike: two that point at each other, and one at itself
";

// What tells two nodes of a graph apart. The test ends where they aren't there, or a target is no node.
fn told(rt: &impl Abort, alloc: Global, nodes: &Nodes, a: u32, b: u32) -> Option<Difference> {
    let closed = is_closed(nodes);
    assert!(rt; closed);
    let are_there = a < nodes.len() && b < nodes.len();
    assert!(rt; are_there);
    find_chain(alloc, nodes, a, b).expect(rt, "memory")
}

// Whether that is what is told: the chain, and the two nodes behind it.
fn is_told(found: &Option<Difference>, expected: &[u8]) -> bool {
    let Some(apart) = found else {
        return expected == b"alike".as_slice();
    };
    let count = apart.chain.len();
    if expected.len() < 2 || expected.len() - 2 != count {
        return false;
    }
    for at in 0..count {
        if apart.chain[at] != number(expected[at]) as usize {
            return false;
        }
    }
    apart.first == number(expected[count]) && apart.second == number(expected[count + 1])
}

// The number that a digit stands for.
fn number(digit: u8) -> u32 {
    u32::from(digit.wrapping_sub(b'0'))
}

#[test]
fn finds_the_least_chain(rt: HostRuntime) {
    for line in CASES.lines() {
        let (words, _shows) = line.split_once(": ").expect(&rt, "what it shows");
        let (before, expected) = words.split_once(" is ").expect(&rt, "what is told");
        let (text, pair) = before.split_once(' ').expect(&rt, "two nodes");
        let pair = pair.as_bytes();
        assert!(rt; pair.len() == 2);
        let nodes = graph(&rt, rt.alloc(), text);
        let found = told(&rt, rt.alloc(), &nodes, number(pair[0]), number(pair[1]));
        holds(&rt, line, is_told(&found, expected.as_bytes()));
    }
}

// Two cycles of so many nodes, each of which points twice at the next one. All have the label 1, but the last ones have these.
fn cycles(rt: &impl Abort, alloc: Global, sizes: [u32; 2], ends: [u32; 2]) -> Nodes {
    let mut nodes = Nodes::new(alloc);
    for part in 0..2 {
        let first = nodes.len();
        for left in (0..sizes[part]).rev() {
            let here = nodes.len();
            if here < 1_000_000 {
                let label = if left == 0 { ends[part] } else { 1 };
                let next = if left == 0 { first } else { here + 1 };
                nodes.push(label, &[next, next]).expect(rt, "memory");
            }
        }
    }
    nodes
}

// How long the chain is that tells their first nodes apart.
fn length(found: &Option<Difference>) -> Option<usize> {
    match found {
        None => None,
        Some(apart) => Some(apart.chain.len()),
    }
}

#[test]
fn looks_at_fewer_pairs_than_nodes(rt: HostRuntime) {
    for (sizes, ends, chain) in [
        ([10_000, 10_000], [4, 8], Some(9_999)),
        ([10_000, 10_000], [4, 4], None),
        ([256, 4096], [1, 1], None),
        ([4001, 4003], [1, 1], None),
    ] {
        let nodes = cycles(&rt, rt.alloc(), sizes, ends);
        let found = told(&rt, rt.alloc(), &nodes, 0, sizes[0]);
        holds(&rt, "cycles", length(&found) == chain);
    }
}
