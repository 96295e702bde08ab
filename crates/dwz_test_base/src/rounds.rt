//! For each node the least one that is alike to it: by the plain way, by workers, and turn by turn.

ghost use Rattle.std.specs.Prelude.{◌≡◌, ℕ, ◌<◌, ◌≤◌, IsTrue, length};
ghost use Rattle.dwz_nodes.specs.Graph.{IsClosed};

use crate::expect::holds;
use crate::nodes::graph;
use crate::shapes::{Shape, shaped};
use crate::watch::new_watch;
use dwz_gate::OpenGate;
use dwz_model::Numbers;
use dwz_nodes::Nodes;
use dwz_rounds::{refine, refine_plain};
use std::alloc::Global;
use std::process::Abort;
use std::thread::Threads;

/// Whether each target is a node.
pub(crate) fn is_closed(nodes: &Nodes) -> bool
    ensures { IsTrue result → IsClosed nodes.now }
{
    let count = nodes.len();
    for a in 0..count {
        if !nodes.targets(a).iter().all(|target| *target < count) {
            return false;
        }
    }
    true
}

// What the plain way answers. The test ends where workers, of any of these numbers, answer something else, or a target is no node.
fn agreed(rt: &(impl Threads + Sync + Abort), alloc: Global, nodes: &Nodes) -> Numbers {
    let closed = is_closed(nodes);
    assert!(rt; closed);
    let plain = refine_plain(alloc, nodes).expect(rt, "memory");
    for workers in [1, 2, 3, 7, 64] {
        let found = refine(rt, alloc, nodes, workers, &OpenGate);
        let found = found.expect(rt, "memory");
        holds(rt, "workers", found.as_slice() == plain.as_slice());
    }
    plain
}

// Whether classes are these digits.
fn are(classes: &[u32], digits: &[u8]) -> bool {
    if classes.len() != digits.len() {
        return false;
    }
    for a in 0..classes.len() {
        if classes[a] != u32::from(digits[a].wrapping_sub(b'0')) {
            return false;
        }
    }
    true
}

// Nodes, and for each the least node that is alike to it.
const CASES: &str = "\
a1,b0,a3,b2,a5,b4, gives 010101: pairs
h0,h1,h1,h, gives 0003: two that point at themselves, one at one of these, and one at nothing
d1,d0,d3,d4,d2, gives 00000: a cycle of two and a cycle of three
b,c,j01,j10,j011, gives 01234: equal labels, and the same targets in another order or number
 gives : no nodes
";

#[test]
fn finds_the_least_alike_node(rt: HostRuntime) {
    for line in CASES.lines() {
        let (text, rest) = line.split_once(" gives ").expect(&rt, "nodes");
        let (leaders, _shows) = rest.split_once(": ").expect(&rt, "what it shows");
        let found = agreed(&rt, rt.alloc(), &graph(&rt, rt.alloc(), text));
        holds(&rt, line, are(found.as_slice(), leaders.as_bytes()));
    }
}

// How many classes there are.
fn class_count(classes: &[u32]) -> u32 {
    let mut count = 0u32;
    for a in 0..classes.len() {
        if classes[a] as usize == a {
            count = count.wrapping_add(1);
        }
    }
    count
}

// Graphs, and how many classes they have: of the first two by a model that was written independently.
const LARGE: [(Shape, u32); 7] = [
    (Shape::Ring, 300),
    (Shape::Spread, 305),
    (Shape::Colliding, 288),
    (Shape::Equal, 1),
    (Shape::Chains(8), 82),
    (Shape::Chains(4), 41),
    (Shape::Hubs, 304),
];

#[test]
fn workers_agree_with_the_plain_way(rt: HostRuntime) {
    for (shape, count) in LARGE {
        let classes = agreed(&rt, rt.alloc(), &shaped(&rt, rt.alloc(), shape));
        holds(&rt, "classes", class_count(classes.as_slice()) == count);
    }
}

// Graphs, the turn in which workers meet, and the proposals of each turn, which come from that model. Labels are the first round, where
// they are numbers of nodes. Of the last turn of `Colliding`, which settles one of 32 nodes, the rest is settled by order.
const TURNS: &[(Shape, u32, &[u64])] = &[
    (Shape::Ring, 3, &[598, 128, 24, 4]),
    (
        Shape::Spread,
        5,
        &[600, 600, 100, 28, 4, 388, 82, 21, 1, 46, 8, 2],
    ),
    (Shape::Colliding, 5, &[288, 129, 62, 4, 1, 32]),
    (Shape::Equal, 0, &[1024]),
];

#[test]
fn each_worker_comes_and_goes_once_a_turn(rt: HostRuntime) {
    for &(shape, meet_from, proposals) in TURNS {
        let nodes = shaped(&rt, rt.alloc(), shape);
        let closed = is_closed(&nodes);
        assert!(rt; closed);
        let watch = new_watch(&rt, rt.alloc(), meet_from);
        let found = refine(&rt, rt.alloc(), &nodes, 3, &watch).expect(&rt, "memory");
        holds(&rt, "length", found.len() == nodes.len() as usize);
        holds(&rt, "workers 0 and 1 meet", watch.met());
        holds(&rt, "turns", watch.has_turns(proposals));
    }
}
