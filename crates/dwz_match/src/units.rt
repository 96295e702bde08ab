//! The tops of units that may move.

ghost use Rattle.std.specs.Prelude.{◌≡◌, ◌↔◌, ℕ, ◌<◌, ◌^◌, [], IfOk, length, slice_index_or};
ghost use Rattle.dwz_groups.specs.declared.groups.Edge.{Edge as EdgeOfSpecs};
ghost use Rattle.dwz_match.specs.Units.{MovesIn};
ghost use Rattle.dwz_model.specs.Lists.{In};

use dwz_groups::{Edge, Groups, group};
use dwz_model::NoMemory;
use std::alloc::Global;

fn unit_edges(alloc: Global, units: &[u32], movable: &[bool]) -> Result<Vec<Edge>, NoMemory>
    requires movable { length movable.now ≡ length units.now }
    requires few { length units.now < 2 ^ 32 }
    ensures { IfOk result (λ edges. (e : EdgeOfSpecs) → In e edges.items ↔ MovesIn units.now movable.now e.key e.value) }
{
    let mut edges = Vec::new(alloc);
    for (top, unit) in units.iter().enumerate() {
        if movable[top] {
            edges.push(Edge {
                key: *unit,
                value: top as u32,
            })?;
        }
    }
    Ok(edges)
}

/// For each of so many units its tops that may move, where `units` has the unit of each top.
pub fn unit_tops(
    alloc: Global,
    units: &[u32],
    movable: &[bool],
    count: usize,
) -> Result<Groups, NoMemory>
    requires movable { length movable.now ≡ length units.now }
    requires few { length units.now < 2 ^ 32 }
    requires units { (u : ℕ) → In u units.now → u < count }
    ensures len { IfOk result (λ tops. length tops ≡ count) }
    ensures each { IfOk result (λ tops. (u t : ℕ) → In t (slice_index_or tops u []) ↔ MovesIn units.now movable.now u t) }
{
    let edges = unit_edges(alloc, units, movable)?;
    let tops = group(alloc, count, edges.as_slice())?;
    Ok(tops)
}
