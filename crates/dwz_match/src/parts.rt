//! The tops of the partial units of a common file.

ghost use Rattle.std.specs.Prelude.{◌≡◌, ℕ, ◌-◌, ◌<◌, ◌^◌, ◌++◌, List, IfOk, OnOk, drop, length, map};
ghost use Rattle.std.specs.List.{range_with_len};
ghost use Rattle.dwz_def_reading.specs.Documents.{Doc};
ghost use Rattle.dwz_def_taken.specs.Beside.{reused_of};
ghost use Rattle.dwz_match.specs.Parts.{AreStarts, HavePartTops, edge_to, spans, start_in};
ghost use Rattle.dwz_takes.specs.Steps.{edges_from};

use dwz_groups::{Edge, Groups, group};
use dwz_model::NoMemory;
use std::alloc::Global;

// Adds the tops from one number to before another, under a partial unit.
fn put_tops(edges: &mut Vec<Edge>, part: u32, from: u32, to: u32) -> Result<(), NoMemory>
    ensures { OnOk result (edges.new.items ≡ edges.old.items ++ map (edge_to part) (range_with_len from (to - from))) }
{
    for top in from..to {
        edges.push(Edge {
            key: part,
            value: top,
        })?;
    }
    Ok(())
}

// Where the tops of the unit with a number begin, or `end` behind all units.
fn start_of(starts: &[u32], end: u32, number: usize) -> u32
    ensures { result ≡ start_in end (drop number starts.now) }
{
    match starts.get(number) {
        Some(start) => *start,
        None => end,
    }
}

fn part_edges(alloc: Global, starts: &[u32], end: u32) -> Result<Vec<Edge>, NoMemory>
    requires { length starts.now < 2 ^ 32 }
    ensures { IfOk result (λ edges. edges.items ≡ edges_from edge_to 0 (spans end starts.now)) }
{
    let mut edges = Vec::new(alloc);
    for part in 0..starts.len() {
        let from = start_of(starts, end, part);
        let to = start_of(starts, end, part + 1);
        put_tops(&mut edges, part as u32, from, to)?;
    }
    Ok(edges)
}

/// For each partial unit of a common file its tops, by their numbers behind those of the files: where `starts` has of each unit
/// the number of its first top, or where it would stand, and all tops end before `end`.
pub fn part_tops(alloc: Global, starts: &[u32], end: u32) -> Result<Groups, NoMemory>
    requires { length starts.now < 2 ^ 32 }
    ensures { (docs : List (Doc ℕ)) (common : Doc ℕ) → AreStarts docs common starts.now end
        → IfOk result (HavePartTops (reused_of docs common)) }
{
    let edges = part_edges(alloc, starts, end)?;
    let tops = group(alloc, starts.len(), edges.as_slice())?;
    Ok(tops)
}
