//! The tops of a small file that is given twice, worked out by hand.

use crate::labels::FILE;
use dwz_graph::Graph;
use dwz_groups::TopRow;
use dwz_label_files::nodes;
use dwz_model::Place;
use dwz_move_files::{movable, tops};
use std::test::Fail;

// The row of a top that isn't said to move.
fn row(file: u32, offset: u32, unit: u32, weight: u32, pinned: bool) -> TopRow {
    TopRow {
        place: Place { file, offset },
        unit,
        weight,
        movable: false,
        pinned,
    }
}

// Each file has three units, with five tops: a variable and `int`, which an operand that is a ULEB128 number names; in the namespace `n` a
// typedef and `int`, which is its type; and the type `x`.
#[test]
fn tops_are_those_of_all_files(rt: HostRuntime) -> Result<(), Fail> {
    let alloc = rt.alloc();
    let files = [hex::decode(alloc, FILE)?, hex::decode(alloc, FILE)?];
    let graph = Graph::read(alloc, &files)?;
    let found = tops(alloc, &graph)?;
    let rows = [
        row(0, 0x11, 0, 43, false),
        row(0, 0x3c, 0, 7, true),
        row(0, 0x55, 1, 5, false),
        row(0, 0x5a, 1, 7, false),
        row(0, 0x71, 2, 4, false),
        row(1, 0x11, 3, 43, false),
        row(1, 0x3c, 3, 7, true),
        row(1, 0x55, 4, 5, false),
        row(1, 0x5a, 4, 7, false),
        row(1, 0x71, 5, 4, false),
    ];
    assert!(rt; found.rows.as_slice() == rows.as_slice());
    assert!(rt; found.files == 2);
    assert!(rt; found.files_of_units.as_slice() == [0, 0, 0, 1, 1, 1].as_slice());
    assert!(rt; found.targets.len() == 10);
    for n in 0..10 {
        // The type of the typedef.
        let want: &[u32] = match n {
            2 => &[3],
            7 => &[8],
            _ => &[],
        };
        assert!(rt; found.targets.get(n) == want, "of top {n}");
    }
    Ok(())
}

// The variable has an address, and operands name the `int` beside it.
const MOVABLE: [bool; 10] = [
    false, false, true, true, true, false, false, true, true, true,
];

// The labels of nodes, with their targets.
const NODES: [(u32, &[u32]); 10] = [
    (0, &[]),
    (1, &[]),
    (2, &[3]),
    (3, &[]),
    (4, &[]),
    (5, &[]),
    (6, &[]),
    (2, &[8]),
    (3, &[]),
    (4, &[]),
];

#[test]
fn nodes_are_those_of_tops(rt: HostRuntime) -> Result<(), Fail> {
    let alloc = rt.alloc();
    let files = [hex::decode(alloc, FILE)?, hex::decode(alloc, FILE)?];
    let graph = Graph::read(alloc, &files)?;
    let flags = movable(alloc, &graph)?;
    assert!(rt; flags.as_slice() == MOVABLE.as_slice());
    for workers in [1, 3] {
        let found = nodes(&rt, alloc, &graph, flags.as_slice(), workers)?;
        assert!(rt; found.len() == 10);
        for (n, (label, targets)) in NODES.iter().enumerate() {
            assert!(rt; found.label(n as u32) == *label, "of top {n}");
            assert!(rt; found.targets(n as u32) == *targets, "of top {n}");
        }
    }
    Ok(())
}
