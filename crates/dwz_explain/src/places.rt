//! Two places, and what is printed of the tops that begin there.

ghost use Rattle.std.specs.Prelude.{◌<◌, ◌≤◌, ◌^◌, IfOk, length};
ghost use Rattle.dwz_def_explain.specs.Places.{Explains, IsMovableAt, IsTextOf};
ghost use Rattle.dwz_def_reading.specs.Places.{Place as FilePlace, at_file};
ghost use Rattle.dwz_def_tops.specs.Alike.{Movable};
ghost use Rattle.dwz_def_tops.specs.Spots.{units_of};
ghost use Rattle.dwz_explain.specs.Answers.{Answers, AnswersTop};
ghost use Rattle.dwz_graph.specs.Files.{docs_of};
ghost use Rattle.dwz_move_files.specs.Outlines.{IsOutline};

use crate::movable::movable_at;
use crate::texts::explain_text;
use crate::verdicts::explain;
use dwz_graph::Graph;
use dwz_groups::Tops;
use dwz_model::{Blob, DEBUG_INFO, GraphErr, NoMemory, Place, Reason, Refusal};
use dwz_move_files::outline_files;
use std::alloc::Global;
use std::thread::Threads;

// The top that begins at a place and may move, or the refusal of the place.
fn top_at(graph: &Graph, tops: &Tops, place: Place) -> Result<u32, GraphErr>
    requires { IsOutline (docs_of graph.now.given) tops.now }
    ensures { AnswersTop (docs_of graph.now.given) (at_file place.file place.offset) result }
{
    match movable_at(graph, tops, place) {
        Some(top) => Ok(top),
        None => Err(GraphErr::Refused(Refusal {
            file: place.file,
            section: DEBUG_INFO,
            at: u64::from(place.offset),
            reason: Reason::NotMovable,
        })),
    }
}

// What is printed of two tops.
fn text_of<R: Threads + Sync>(
    rt: &R,
    alloc: Global,
    graph: &Graph,
    tops: &Tops,
    workers: u32,
    a: u32,
    b: u32,
) -> Result<Blob, NoMemory>
    requires tops { IsOutline (docs_of graph.now.given) tops.now }
    requires workers { (0 < workers) × (workers ≤ 64) }
    requires first { Movable (units_of (docs_of graph.now.given)) a }
    requires second { Movable (units_of (docs_of graph.now.given)) b }
    ensures { (p q : FilePlace) → IsMovableAt (docs_of graph.now.given) p a → IsMovableAt (docs_of graph.now.given) q b
        → IfOk result (IsTextOf (docs_of graph.now.given) p q) }
{
    let verdict = explain(rt, alloc, graph, tops, workers, a, b)?;
    explain_text(alloc, graph, tops, a, b, &verdict)
}

/// Why two tops aren't shared, as it is printed: the tops are those that begin at the two places, in bytes from the first of `.debug_info`
/// of a file each. The first place at which no top begins that may move is refused: `NotMovable`, in `.debug_info`, at the place. It is
/// the same for every number of workers.
pub fn explain_places<R: Threads + Sync>(
    rt: &R,
    alloc: Global,
    graph: &Graph,
    first: Place,
    second: Place,
    workers: u32,
) -> Result<Blob, GraphErr>
    requires few { length graph.now.given < 2 ^ 32 }
    requires workers { (0 < workers) × (workers ≤ 64) }
    ensures { Answers (Explains (docs_of graph.now.given) (at_file first.file first.offset) (at_file second.file second.offset)) result }
{
    let outline = outline_files(rt, alloc, graph, workers)?;
    let a = top_at(graph, &outline.tops, first)?;
    let b = top_at(graph, &outline.tops, second)?;
    let text = text_of(rt, alloc, graph, &outline.tops, workers, a, b)?;
    Ok(text)
}
