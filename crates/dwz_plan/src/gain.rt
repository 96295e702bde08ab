//! Which groups gain: those that save more than they take, and those that tops of groups that gain refer into.
//!
//! It is decided over groups and not over tops. All that has a home is put into groups first, as if it moved; then marks spread over the
//! references from group to group. A group moves whole or not at all, so the partial units are the groups that are marked, and no list of
//! users is compared twice.

ghost use Rattle.std.specs.Prelude.{◌≡◌, ℕ, ◌+◌, ◌-◌, ◌*◌, ◌<◌, ◌≤◌, ◌^◌, ◌++◌, All, None, length, map, nat_lt, slice_index_or, IfOk, OnOk};
ghost use Rattle.std.specs.List.{range_with_len};
ghost use Rattle.dwz_groups.specs.Groups.{grouped};
ghost use Rattle.dwz_plan.specs.Gaining.{AreNumbers, edge_to, edges_from, edges_to, gains_alone, group_at, weight_at, weight_of, weights_of};
ghost use Rattle.dwz_groups.specs.Spreading.{IsSpread};

use dwz_groups::{Edge, Groups, TopRow, group, spread};
use dwz_model::NoMemory;
use std::alloc::Global;

fn weight_at(rows: &[TopRow], top: usize) -> u32
    requires { top < length rows.now }
    ensures { result ≡ weight_at (weights_of rows.now) top }
{
    rows[top].weight
}

// The weights of these tops together.
fn weight_of(tops: &[u32], rows: &[TopRow]) -> u64
    requires few { length tops.now < 2 ^ 32 }
    requires inside { All (λ t. t < length rows.now) tops.now }
    ensures { result ≡ weight_of (weights_of rows.now) tops.now }
{
    let mut sum = 0;
    for top in tops {
        sum += u64::from(weight_at(rows, *top as usize));
    }
    sum
}

// Whether a group with so many users and that weight saves more than it takes. One that has a weight of 64 does, whatever its users are.
fn gains_alone(users: u32, weight: u64) -> bool
    ensures { result ≡ gains_alone users weight }
{
    let users = u64::from(users);
    if users < 2 {
        return false;
    }
    if weight >= 64 {
        return true;
    }
    16 + 6 * users < (users - 1) * weight
}

/// Whether a group with so many users, of which these tops are the representatives, saves more than it takes.
pub fn gains_by_itself(users: u32, tops: &[u32], rows: &[TopRow]) -> bool
    requires few { length tops.now < 2 ^ 32 }
    requires inside { All (λ t. t < length rows.now) tops.now }
    ensures { result ≡ gains_alone users (weight_of (weights_of rows.now) tops.now) }
{
    gains_alone(users, weight_of(tops, rows))
}

// Adds an edge into the other group, if there is one.
fn push_edge(edges: &mut Vec<Edge>, from: u32, into: Option<u32>) -> Result<(), NoMemory>
    ensures { OnOk result (edges.new.items ≡ edges.old.items ++ edge_to from into) }
{
    if let Some(into) = into {
        edges.push(Edge {
            key: from,
            value: into,
        })?;
    }
    Ok(())
}

// The group of a top, if it has one.
fn group_at(groups: &[Option<u32>], top: u32) -> Option<u32>
    ensures { result ≡ group_at groups.now top }
{
    let top = top as usize;
    if top < groups.len() {
        groups[top]
    } else {
        None
    }
}

// Adds the edges of a top, if it is of a group, to those of its targets.
fn push_edges(
    edges: &mut Vec<Edge>,
    groups: &[Option<u32>],
    from: Option<u32>,
    targets: &[u32],
) -> Result<(), NoMemory>
    ensures { OnOk result (edges.new.items ≡ edges.old.items ++ edges_to groups.now from targets.now) }
{
    if let Some(from) = from {
        for target in targets {
            push_edge(edges, from, group_at(groups, *target))?;
        }
    }
    Ok(())
}

// Under the group of each top the groups of its targets.
fn edges_of(alloc: Global, groups: &[Option<u32>], targets: &Groups) -> Result<Vec<Edge>, NoMemory>
    requires { length groups.now ≤ length targets.now }
    ensures { IfOk result (λ edges. edges.items ≡ edges_from groups.now groups.now targets.now) }
{
    let mut edges = Vec::new(alloc);
    for (top, from) in groups.iter().enumerate() {
        push_edges(&mut edges, groups, *from, targets.get(top))?;
    }
    Ok(edges)
}

/// For each group whether it gains. Of a group is given whether it does by itself; of a top its group, if it has one, and the tops that
/// it refers into: of more tops than these nothing is asked, and they are of no group.
pub fn gaining_groups(
    alloc: Global,
    seeds: &[bool],
    groups: &[Option<u32>],
    targets: &Groups,
) -> Result<Vec<bool>, NoMemory>
    requires few { length seeds.now < 2 ^ 32 }
    requires groups { All (AreNumbers (length seeds.now)) groups.now }
    requires len { length groups.now ≤ length targets.now }
    ensures { IfOk result (λ marks. IsSpread (grouped (length seeds.now) (edges_from groups.now groups.now targets.now)) seeds.now
        marks.items) }
{
    let edges = edges_of(alloc, groups, targets)?;
    let into = group(alloc, seeds.len(), edges.as_slice())?;
    let marks = spread(alloc, &into, seeds)?;
    Ok(marks)
}
