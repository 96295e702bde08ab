//! Where a node is among the targets of nodes.
ghost use Rattle.std.specs.Prelude.{◌≡◌, ◌+◌, ◌<◌, ◌≤◌, ◌^◌, [], IfNone, IfOk, IfSome, length, slice_set};
ghost use Rattle.dwz_nodes.specs.Rooms.{all_targets};
ghost use Rattle.dwz_nodes.specs.Uses.{target_count, uses_at, AreUses};
ghost use Rattle.dwz_nodes.specs.UseRooms.{AreNoted, grown};

use crate::Nodes;
use crate::back::{Span, rooms_of};
use dwz_model::NoMemory;
use std::alloc::Global;
use std::marker::Model;

/// A place among the targets of a node: the node, and the place.
#[derive(Clone, Copy)]
pub struct Use {
    pub source: u32,
    pub position: u32,
}

/// For each node of a graph the places where it is a target. Contracts see it as a list for each node.
#[derive(Drop)]
pub struct Uses {
    // Where the places of each node stand in the row.
    spans: Vec<Span>,
    // The places of all nodes, one node after the other.
    row: Vec<Use>,
}

impl Model for Uses {
    ghost use Rattle.std.specs.Prelude.{List, length};
    ghost use Rattle.dwz_nodes.specs.Spans.{AreWithin, lists_of};
    ghost use Rattle.dwz_nodes.specs.declared.uses.Use.{Use};

    ghost Value = { List (List Use) };

    ghost view = { λ u. lists_of u.spans.items u.row.items };

    ghost invariant = { λ u. AreWithin u.spans.items (length u.row.items) };
}

impl Uses {
    /// The places where `a` is a target, in ascending order, each once.
    pub fn of(&self, a: u32) -> &[Use]
        requires { a < length self.now }
        ensures { result.now ≡ uses_at self.now a }
    {
        let span = self.spans[a as usize];
        &self.row[span.start..span.end]
    }
}

impl Nodes {
    /// For each node the places where it is a target. Targets that are no nodes are left out. None where there are 2^32
    /// targets or more.
    ///
    /// It goes over all targets twice. It fails only where memory runs out.
    pub fn uses(&self, alloc: Global) -> Result<Option<Uses>, NoMemory>
        ensures uses { IfOk result (λ found. IfSome found (λ uses. AreUses self.now uses)) }
        ensures many { IfOk result (λ found. IfNone found (2 ^ 32 ≤ target_count self.now)) }
    {
        let targets = self.all_targets();
        if targets.len() > u32::MAX as usize {
            return Ok(None);
        }
        let mut spans = rooms_of(alloc, self.rows.len(), targets)?;
        let unused = Use {
            source: 0,
            position: 0,
        };
        let mut row = vec![in alloc; unused; targets.len()]?;
        fill(spans.as_mut_slice(), row.as_mut_slice(), self);
        Ok(Some(Uses { spans, row }))
    }
}

// Puts a place behind the part of the row that a span has.
fn note(span: &mut Span, row: &mut [Use], place: Use)
    requires { span.old.end < length row.old }
    ensures span { span.new ≡ grown span.old }
    ensures row { row.new ≡ slice_set row.old span.old.end place }
{
    row[span.end] = place;
    span.end += 1;
}

// Notes the places of a node at the targets there.
fn note_all(spans: &mut [Span], row: &mut [Use], nodes: &Nodes, source: u32)
    requires few { length (all_targets nodes.now) < 2 ^ 32 }
    requires source { source < length nodes.now }
    requires before { AreNoted nodes.now source 0 spans.old row.old }
    ensures { AreNoted nodes.now (source + 1) 0 spans.new row.new }
{
    let targets = nodes.targets(source);
    for position in 0..targets.len() {
        let target = targets[position] as usize;
        if target < spans.len() {
            let place = Use {
                source,
                position: position as u32,
            };
            note(&mut spans[target], row, place);
        }
    }
}

// Notes all places of all nodes.
fn fill(spans: &mut [Span], row: &mut [Use], nodes: &Nodes)
    requires few { length (all_targets nodes.now) < 2 ^ 32 }
    requires before { AreNoted nodes.now 0 0 spans.old row.old }
    ensures { AreNoted nodes.now (length nodes.now) 0 spans.new row.new }
{
    for source in 0..nodes.len() {
        note_all(spans, row, nodes, source);
    }
}
