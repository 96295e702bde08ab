//! The numbers of tops among those of files, by their numbers in looks across files.

ghost use Rattle.std.specs.Prelude.{◌≡◌, ℕ, ◌+◌, ◌<◌, ◌^◌, ◌++◌, Some, IfOk, OnOk, map};
ghost use Rattle.std.specs.List.{range_with_len};
ghost use Rattle.dwz_reuse.specs.Refers.{PutsList, PutsLists, is_type_node, own_by, own_count};
ghost use Rattle.std.specs.Prelude.{length};

use dwz_check_rows::{RowKind, UnitNodes};
use dwz_groups::{Edge, Groups};
use dwz_model::{NoMemory, at_or};
use std::alloc::Global;

// Whether it is a type unit.
fn is_type(node: &UnitNodes) -> bool
    ensures { result ≡ is_type_node node.now }
{
    match node.kind {
        RowKind::OfType { .. } => true,
        _ => false,
    }
}

// Adds so many numbers, from one on.
fn put_numbers(own: &mut Vec<Option<u32>>, from: u32, count: u32) -> Result<(), NoMemory>
    requires { from + count < 2 ^ 32 }
    ensures { OnOk result (own.new.items ≡ own.old.items ++ map Some (range_with_len from count)) }
{
    for k in 0..count {
        own.push(Some(from + k))?;
    }
    Ok(())
}

/// Of each top of units, by the number that it has in looks across files, its number among those of files, where the first has that one: the
/// root of a type unit has none.
pub(crate) fn own_numbers(
    alloc: Global,
    nodes: &[UnitNodes],
    first: u32,
) -> Result<Vec<Option<u32>>, NoMemory>
    requires { first + own_count nodes.now < 2 ^ 32 }
    ensures { IfOk result (λ own. own.items ≡ own_by first nodes.now) }
{
    let mut own = Vec::new(alloc);
    let mut next = first;
    for node in nodes {
        if is_type(node) {
            own.push(None)?;
        } else {
            let count = node.tops_end.saturating_sub(node.top);
            put_numbers(&mut own, next, count)?;
            next += count;
        }
    }
    Ok(own)
}

// Adds an edge from a top to each of these that has a number of its own.
fn put_list(
    edges: &mut Vec<Edge>,
    own: &[Option<u32>],
    from: u32,
    targets: &[u32],
) -> Result<(), NoMemory>
    ensures { OnOk result (PutsList own.now targets.now from edges.old.items edges.new.items) }
{
    for target in targets {
        if let Some(to) = at_or(own, *target as usize, None) {
            edges.push(Edge {
                key: from,
                value: to,
            })?;
        }
    }
    Ok(())
}

/// Adds an edge from each top that has a number of its own to each of those that it leads into and that have one.
pub(crate) fn put_edges(
    edges: &mut Vec<Edge>,
    own: &[Option<u32>],
    targets: &Groups,
) -> Result<(), NoMemory>
    ensures { OnOk result (PutsLists own.now targets.now (length targets.now) edges.old.items edges.new.items) }
{
    for number in 0..targets.len() {
        if let Some(from) = at_or(own, number, None) {
            put_list(edges, own, from, targets.get(number))?;
        }
    }
    Ok(())
}
