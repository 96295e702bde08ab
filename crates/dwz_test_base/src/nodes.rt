//! Graphs that are written down. What names a node, and where, clauses fix, and each round asks for it: so tests of rounds show it.

use dwz_nodes::Nodes;
use std::alloc::Global;
use std::process::Abort;

/// The nodes of a text: for each its label, from `a` for 0, its targets as digits, and a comma.
pub(crate) fn graph(rt: &impl Abort, alloc: Global, text: &str) -> Nodes {
    let mut nodes = Nodes::new(alloc);
    let mut targets = Vec::new(alloc);
    let mut label = 0;
    for &byte in text.as_bytes() {
        match byte {
            b',' => {
                if nodes.len() < 1000 {
                    nodes.push(label, targets.as_slice()).expect(rt, "memory");
                }
                targets.clear();
            }
            b'0'..=b'9' => targets.push(u32::from(byte - b'0')).expect(rt, "memory"),
            _ => label = u32::from(byte.wrapping_sub(b'a')),
        }
    }
    nodes
}
