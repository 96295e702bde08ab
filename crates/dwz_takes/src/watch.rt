//! Which units have a class, and under which class each partial unit is looked at: the one that the fewest units have.

ghost use Rattle.std.specs.Prelude.{◌≡◌, ◌⊎◌, ℕ, ◌+◌, ◌<◌, ◌≤◌, ◌^◌, ◌++◌, [], length, map, IfNone, IfOk, IfSome, OnOk, slice_index, MatchOption};
ghost use Rattle.dwz_model.specs.Lists.{In};
ghost use Rattle.dwz_takes.specs.Steps.{AreHolders, AreWatched, AreWatchers, IsRarest, edges_from, held};
ghost use Rattle.dwz_takes.specs.Takes.{AreBelow, AreRows, list_at};

use crate::rows::Rows;
use dwz_groups::{Edge, Groups, group};
use dwz_model::NoMemory;
use std::alloc::Global;

// Adds the classes of the tops of a unit, with its number.
fn add_held(edges: &mut Vec<Edge>, classes: &[u32], tops: &[u32], unit: u32) -> Result<(), NoMemory>
    requires { (t : ℕ) → In t tops.now → t < length classes.now }
    ensures { OnOk result (edges.new.items ≡ edges.old.items ++ map (held classes.now unit) tops.now) }
{
    for top in tops {
        edges.push(Edge {
            key: classes[*top as usize],
            value: unit,
        })?;
    }
    Ok(())
}

fn held_edges(alloc: Global, classes: &[u32], unit_tops: &Groups) -> Result<Vec<Edge>, NoMemory>
    requires few { length unit_tops.now < 2 ^ 32 }
    requires below { AreBelow (length classes.now) unit_tops.now }
    ensures { IfOk result (λ edges. edges.items ≡ edges_from (held classes.now) 0 unit_tops.now) }
{
    let mut edges = Vec::new(alloc);
    for unit in 0..unit_tops.len() {
        add_held(&mut edges, classes, unit_tops.get(unit), unit as u32)?;
    }
    Ok(edges)
}

/// For each class the units that have a top of it that may move, in order, each once.
pub(crate) fn holders(alloc: Global, rows: &Rows) -> Result<Groups, NoMemory>
    requires { AreRows rows.now }
    ensures { IfOk result (λ holders. AreHolders rows.now holders) }
{
    let classes = rows.classes.as_slice();
    let edges = held_edges(alloc, classes, &rows.unit_tops)?;
    let groups = group(alloc, classes.len(), edges.as_slice())?;
    let distinct = groups.without_repeats(alloc)?;
    Ok(distinct)
}

// Of two classes the one that fewer units have, or the first.
fn rarer(holders: &Groups, first: u32, second: u32) -> u32
    requires first { first < length holders.now }
    requires second { second < length holders.now }
    ensures one { (result ≡ first) ⊎ (result ≡ second) }
    ensures first { length (list_at holders.now result) ≤ length (list_at holders.now first) }
    ensures second { length (list_at holders.now result) ≤ length (list_at holders.now second) }
{
    if holders.get(second as usize).len() < holders.get(first as usize).len() {
        second
    } else {
        first
    }
}

// The class that the fewest units have, of those of these tops.
fn rarest(holders: &Groups, classes: &[u32], tops: &[u32]) -> Option<u32>
    requires tops { (t : ℕ) → In t tops.now → t < length classes.now }
    requires classes { (t : ℕ) → In t tops.now → slice_index classes.now t < length holders.now }
    ensures { MatchOption result (tops.now ≡ []) (IsRarest holders.now classes.now tops.now) }
{
    if tops.is_empty() {
        return None;
    }
    let mut class = classes[tops[0] as usize];
    for top in tops {
        class = rarer(holders, class, classes[*top as usize]);
    }
    Some(class)
}

// Each partial unit that has a top under its rarest class.
fn watched_edges(alloc: Global, rows: &Rows, holders: &Groups) -> Result<Vec<Edge>, NoMemory>
    requires rows { AreRows rows.now }
    requires len { length holders.now ≡ length rows.now.classes }
    ensures { IfOk result (λ edges. AreWatched rows.now holders.now edges.items (length rows.now.part_tops)) }
{
    let mut edges = Vec::new(alloc);
    for part in 0..rows.part_tops.len() {
        if let Some(class) = rarest(holders, rows.classes.as_slice(), rows.part_tops.get(part)) {
            edges.push(Edge {
                key: class,
                value: part as u32,
            })?;
        }
    }
    Ok(edges)
}

/// For each class the partial units of which it is the rarest, in order.
pub(crate) fn watchers(alloc: Global, rows: &Rows, holders: &Groups) -> Result<Groups, NoMemory>
    requires rows { AreRows rows.now }
    requires len { length holders.now ≡ length rows.now.classes }
    ensures { IfOk result (λ watchers. AreWatchers rows.now holders.now watchers) }
{
    let edges = watched_edges(alloc, rows, holders)?;
    let groups = group(alloc, rows.classes.len(), edges.as_slice())?;
    Ok(groups)
}
