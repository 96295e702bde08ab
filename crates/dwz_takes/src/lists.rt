//! Lists turned round: under each number the lists in which it is.

ghost use Rattle.std.specs.Prelude.{◌≡◌, ◌+◌, ◌<◌, ◌^◌, ◌++◌, length, map, IfOk, OnOk};
ghost use Rattle.dwz_takes.specs.Steps.{AreTurned, edges_from, turned};
ghost use Rattle.dwz_takes.specs.Takes.{AreBelow};

use dwz_groups::{Edge, Groups, group};
use dwz_model::NoMemory;
use std::alloc::Global;

// Adds each number of a list, with the number of the list.
fn add_turned(edges: &mut Vec<Edge>, list: &[u32], number: u32) -> Result<(), NoMemory>
    ensures { OnOk result (edges.new.items ≡ edges.old.items ++ map (turned number) list.now) }
{
    for item in list {
        edges.push(Edge {
            key: *item,
            value: number,
        })?;
    }
    Ok(())
}

fn turned_edges(alloc: Global, lists: &Groups) -> Result<Vec<Edge>, NoMemory>
    requires { length lists.now < 2 ^ 32 }
    ensures { IfOk result (λ edges. edges.items ≡ edges_from turned 0 lists.now) }
{
    let mut edges = Vec::new(alloc);
    for number in 0..lists.len() {
        add_turned(&mut edges, lists.get(number), number as u32)?;
    }
    Ok(edges)
}

/// Under each number below the count the lists in which it is, in order.
pub(crate) fn turn(alloc: Global, count: usize, lists: &Groups) -> Result<Groups, NoMemory>
    requires few { length lists.now < 2 ^ 32 }
    requires below { AreBelow count lists.now }
    ensures { IfOk result (λ groups. AreTurned count lists.now groups) }
{
    let edges = turned_edges(alloc, lists)?;
    let groups = group(alloc, count, edges.as_slice())?;
    Ok(groups)
}
