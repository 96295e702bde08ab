//! Graphs that are too large to be written down.

ghost use Rattle.std.specs.Prelude.{◌<◌};

use dwz_nodes::Nodes;
use std::alloc::Global;
use std::process::Abort;

/// What a graph looks like.
#[derive(Clone, Copy)]
pub(crate) enum Shape {
    /// 600 nodes with two of each label, each with one target.
    Ring,
    /// 600 nodes of seven labels, each with one target. Each round tells some of them apart, and the later ones go over few.
    Spread,
    /// 1,024 nodes that are alike, whose label is no number of a node: so the first round goes over them.
    Equal,
    /// 256 nodes, each alone, and 32 whose keys have one hash. Their labels are no numbers of nodes either.
    Colliding,
    /// Two chains of 40 nodes with one label, the first over a last node with the label 4, the second over one with this label.
    Chains(u32),
    /// A chain of 300 nodes, and three hubs that point at all of these and at one more node, which is another one for the second.
    Hubs,
}

// Targets for which nodes of the label 9 have one hash, if the class of each target is its number: 16 for each of 32 nodes.
const COLLIDING: &[u8; 512] = b"\
    \x00\x00\x6b\x0e\x78\x02\x21\x00\x1c\x08\xb4\x01\x36\x10\x1f\x36\
    \x00\x18\xea\x13\x3d\x0f\x63\x73\xef\x14\x77\x19\x37\x6e\x0d\x2e\
    \x01\x01\xe3\x6c\x3e\x0d\x2b\x08\x73\x16\x42\x04\x28\x76\x07\x2d\
    \x01\x07\x27\xe6\xe5\x1c\x26\x36\x2b\x37\xc4\x1a\xd4\x3c\x00\x20\
    \x01\x17\x6b\x68\x0f\x0e\x7b\x17\x3b\x0b\xd8\x0c\x70\x26\x07\x31\
    \x02\x01\x37\x17\x2a\x06\x20\x19\x69\x08\x4e\x00\x2a\x0d\x0c\x2e\
    \x02\x0b\x2b\x79\x11\x13\x61\x35\x25\x0f\x50\x0e\x36\x27\x01\x21\
    \x02\x0e\x36\x18\xe2\x04\xd5\x0d\x22\x0b\xd6\x0e\xf3\x29\x06\x35\
    \x04\x00\x24\x19\x2a\x34\x2c\x13\x29\x38\x5e\x17\x3b\x16\x02\x3b\
    \x04\x00\x36\x1e\xf0\x07\x63\x1c\x16\x01\x40\x07\xdd\x26\x01\x2e\
    \x04\x02\x2d\x32\x38\x00\x33\x3c\x29\x3e\x4a\x0f\x5d\x22\x17\x24\
    \x04\x03\x3b\x3a\x21\x1a\xd1\x29\x62\x02\x32\x78\x4d\x16\x08\x38\
    \x04\x04\x68\x31\x2a\x34\x60\x17\x2b\x01\xd3\x1b\x51\xf0\xee\x25\
    \x04\x04\x6b\x36\x26\x3e\xdf\x02\x10\x03\x5d\x0d\x2b\x3c\x09\x35\
    \x04\x04\x79\x03\x19\x75\x2a\x66\x13\x01\x47\x07\x3f\x2b\x02\x26\
    \x04\x06\x21\x1b\x6f\x13\x31\x18\x60\x02\xc4\x07\x3d\x1a\x07\x34\
    \x04\x07\xe0\x10\x13\x34\x49\xf2\x23\x0b\xb6\x0c\x35\x22\x18\x36\
    \x04\x0c\x2b\x2f\x24\x0c\xec\x14\x12\x06\xc7\x0e\x5f\x7d\x09\x2e\
    \x04\x0f\x15\x13\x1c\x07\x26\x1c\x27\x0b\x4f\x75\x47\x3d\xfc\x30\
    \x04\x12\x65\x0e\x72\x0c\x28\x1f\x14\x01\x49\x09\x4c\x21\x78\x28\
    \x04\xeb\x14\x77\x1b\x08\x5d\x34\x26\x03\x7e\x39\x3c\x6a\x09\x3b\
    \x04\xf0\x15\x14\x72\x12\x62\x1f\x23\x3d\xf7\x0f\x26\x3e\x12\x3c\
    \x04\xf2\x2f\x11\x09\x1f\x3b\x16\x1c\x3a\xca\x0f\x3f\x12\x01\x3c\
    \x04\xf4\xec\x0b\x0c\x36\x33\x14\x23\x01\xeb\x01\xcd\x7e\x37\x36\
    \x04\xf8\x1a\x15\x21\x18\x3d\x1f\x1e\x06\x45\x0c\x38\xfd\x09\xc9\
    \x04\xf9\x28\x1e\x17\x04\x25\x1a\x2f\x0b\x4a\x0c\x73\x38\x00\xca\
    \x04\xf9\x3a\x39\x2a\x02\x5e\x2c\x24\x00\xd5\x00\x30\x14\x09\x3c\
    \x04\xfa\x62\x1e\x68\x0a\x58\x78\x6e\x00\x73\x00\xd1\x27\x0d\x36\
    \x04\xfa\x6d\x0e\x1b\x05\x65\x0f\x2b\x1c\x55\x05\x22\x00\x19\x29\
    \x04\xfb\x5d\x00\x22\x05\x61\x19\xe9\x33\xc7\x7c\x4b\x29\x09\x2b\
    \x04\xfb\x63\x19\x06\x03\x50\x22\x27\x0b\x4d\x1d\xd5\x21\x0e\x38\
    \x04\xfc\x26\x31\x1e\x1f\x31\x07\x5e\x07\x7d\x0c\xdd\x74\x10\x31";

fn count_of(shape: Shape) -> u32
    ensures { result < 2000 }
{
    match shape {
        Shape::Ring | Shape::Spread => 600,
        Shape::Equal => 1024,
        Shape::Colliding => 288,
        Shape::Chains(_) => 82,
        Shape::Hubs => 305,
    }
}

// The label of a node.
fn label_of(shape: Shape, a: u32) -> u32
    requires { a < 2000 }
{
    match shape {
        Shape::Ring => a % 300,
        Shape::Spread => a % 7,
        Shape::Equal => 5000,
        Shape::Colliding if a < 256 => 1000 + a,
        Shape::Colliding => 9,
        Shape::Chains(_) if a == 40 => 4,
        Shape::Chains(second) if a == 81 => second,
        Shape::Hubs if a == 300 => 4,
        Shape::Hubs if a == 301 => 8,
        Shape::Hubs if a > 301 => 2,
        _ => 1,
    }
}

// Where the only target of a node is, if it has just one.
fn target_of(shape: Shape, a: u32) -> Option<u32>
    requires { a < 2000 }
{
    match shape {
        Shape::Ring => Some((a * 7 + 1) % 600),
        Shape::Spread => Some((a * (a + 3) + 1) % 600),
        Shape::Chains(_) if a != 40 && a != 81 => Some(a + 1),
        Shape::Hubs if a < 300 => Some(a + 1),
        _ => None,
    }
}

// Puts all targets of a node into a list.
fn put_targets(rt: &impl Abort, shape: Shape, a: u32, targets: &mut Vec<u32>)
    requires { a < 2000 }
{
    if let Some(target) = target_of(shape, a) {
        targets.push(target).expect(rt, "memory");
    }
    match shape {
        Shape::Colliding if 256 <= a && a < 288 => {
            let all = COLLIDING.as_slice();
            let start = (a as usize - 256) * 16;
            for &target in &all[start..start + 16] {
                targets.push(u32::from(target)).expect(rt, "memory");
            }
        }
        Shape::Hubs if a > 301 => {
            for target in 0..300 {
                targets.push(target).expect(rt, "memory");
            }
            targets
                .push(if a == 303 { 301 } else { 300 })
                .expect(rt, "memory");
        }
        _ => {}
    }
}

/// The nodes of a graph of this shape.
pub(crate) fn shaped(rt: &impl Abort, alloc: Global, shape: Shape) -> Nodes {
    let mut nodes = Nodes::new(alloc);
    let mut targets = Vec::new(alloc);
    for a in 0..count_of(shape) {
        targets.clear();
        put_targets(rt, shape, a, &mut targets);
        if nodes.len() < 2000 {
            nodes
                .push(label_of(shape, a), targets.as_slice())
                .expect(rt, "memory");
        }
    }
    nodes
}
