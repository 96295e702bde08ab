//! What is gathered of the tops of each file by itself, by several workers, and put together in the order of the files.

ghost use Rattle.std.specs.Prelude.{◌≡◌, ℕ, ◌+◌, ◌<◌, ◌^◌, List, length, slice_index_or, vec_len, IfOk, IfSome, OnOk};
ghost use Rattle.dwz_def_tops.specs.Spots.{tops_of, units_of};
ghost use Rattle.dwz_graph.specs.Files.{docs_of};
ghost use Rattle.dwz_graph.specs.Index.{Index};
ghost use Rattle.dwz_graph.specs.Indexed.{AreIndexes};
ghost use Rattle.dwz_move_files.specs.Named.{AreNamed};
ghost use Rattle.dwz_def_reading.specs.Documents.{Doc};
ghost use Rattle.dwz_move_files.specs.Drafts.{AreParts, IsDraft, IsFileDraft};

use crate::draft::{Draft, gather, nothing, put_file, with_room};
use crate::stretches::gather_stretches;
use dwz_graph::Graph;
use dwz_model::NoMemory;
use dwz_move::Named;
use std::alloc::{AllocError, Global};
use std::thread;
use std::thread::Threads;

// What is gathered of the tops of the file with a number.
fn part_at(alloc: Global, graph: &Graph, named: &Named, k: usize) -> Result<Draft, NoMemory>
    requires at { k < length graph.now.given }
    requires few { length graph.now.given < 2 ^ 32 }
    ensures { (indexes : List Index) → AreIndexes (docs_of graph.now.given) indexes → AreNamed (units_of (docs_of graph.now.given)) named.now
        → IfOk result (IsFileDraft (docs_of graph.now.given) indexes k) }
{
    let files = graph.files();
    let indexes = graph.indexes();
    let index = &indexes[k];
    let mut draft = with_room(alloc, index.tops().len())?;
    let mut operands = Vec::new(alloc);
    put_file(
        alloc,
        &mut draft,
        &files[k],
        index,
        k as u32,
        named,
        &mut operands,
    )?;
    Ok(draft)
}

// Puts it into a slot, which is left empty where memory ran out.
fn fill(alloc: Global, graph: &Graph, named: &Named, k: usize, slot: &mut Option<Draft>)
    requires at { k < length graph.now.given }
    requires few { length graph.now.given < 2 ^ 32 }
    ensures { (indexes : List Index) → AreIndexes (docs_of graph.now.given) indexes → AreNamed (units_of (docs_of graph.now.given)) named.now
        → IfSome slot.new (IsFileDraft (docs_of graph.now.given) indexes k) }
{
    *slot = part_at(alloc, graph, named, k).ok();
}

// Fills the slots, of which there is one for each file.
fn fill_slots<R: Threads + Sync>(
    rt: &R,
    alloc: Global,
    graph: &Graph,
    named: &Named,
    workers: u32,
    slots: &mut [Option<Draft>],
)
    requires len { length slots.old ≡ length graph.now.given }
    requires few { length graph.now.given < 2 ^ 32 }
    requires workers { 0 < workers }
    ensures { (indexes : List Index) → AreIndexes (docs_of graph.now.given) indexes → AreNamed (units_of (docs_of graph.now.given)) named.now
        → (k : ℕ) (d : _) → k < length slots.old → IfSome (slice_index_or slots.new k d) (IsFileDraft (docs_of graph.now.given) indexes k) }
{
    let each = |k: usize, slot: &mut Option<Draft>|
        requires { (k < length graph.now.given) × (length graph.now.given < 2 ^ 32) }
        ensures { (indexes : List Index) → AreIndexes (docs_of graph.entry.now.given) indexes
            → AreNamed (units_of (docs_of graph.entry.now.given)) named.entry.now → IfSome slot.exit.now (IsFileDraft (docs_of graph.entry.now.given) indexes k) }
    { fill(alloc, graph, named, k, slot) };
    thread::for_each_mut(rt, slots, workers as usize, &each);
}

/// So many slots with nothing in them.
pub(crate) fn empty_slots(alloc: Global, count: usize) -> Result<Vec<Option<Draft>>, NoMemory>
    ensures { IfOk result (λ slots. vec_len slots ≡ count) }
{
    let mut slots = Vec::new(alloc);
    for _ in 0..count {
        slots.push(None)?;
    }
    Ok(slots)
}

// What is gathered of each file, by so many workers.
fn parts_of<R: Threads + Sync>(
    rt: &R,
    alloc: Global,
    graph: &Graph,
    named: &Named,
    workers: u32,
) -> Result<Vec<Option<Draft>>, NoMemory>
    requires few { length graph.now.given < 2 ^ 32 }
    requires workers { 0 < workers }
    ensures { AreNamed (units_of (docs_of graph.now.given)) named.now
        → IfOk result (λ parts. AreParts (docs_of graph.now.given) 0 (length (tops_of (units_of (docs_of graph.now.given)))) parts.items) }
{
    let mut slots = empty_slots(alloc, graph.files().len())?;
    fill_slots(rt, alloc, graph, named, workers, slots.as_mut_slice());
    Ok(slots)
}

// Puts what is gathered of a file behind what is gathered of those before it.
fn put_part(draft: &mut Draft, mut part: Draft) -> Result<(), NoMemory>
    ensures { (docs : List (Doc ℕ)) (count more : ℕ) → IsDraft docs 0 count draft.old → IsDraft docs count more part
        → OnOk result (IsDraft docs 0 (count + more) draft.new) }
{
    draft.rows.append(&mut part.rows)?;
    draft.binds.append(&mut part.binds)?;
    draft.pairs.append(&mut part.pairs)
}

/// All parts together; one that isn't there is for want of memory.
pub(crate) fn join_parts(alloc: Global, parts: Vec<Option<Draft>>) -> Result<Draft, NoMemory>
    ensures { (docs : List (Doc ℕ)) (to : ℕ) → AreParts docs 0 to parts.items → IfOk result (IsDraft docs 0 to) }
{
    let mut draft = nothing(alloc);
    for part in parts {
        let Some(part) = part else {
            return Err(AllocError);
        };
        put_part(&mut draft, part)?;
    }
    Ok(draft)
}

/// What is gathered of the tops of all files, by at most so many workers. How many there are makes no difference: where there are fewer
/// files, each takes stretches of them.
pub(crate) fn gather_by<R: Threads + Sync>(
    rt: &R,
    alloc: Global,
    graph: &Graph,
    named: &Named,
    workers: u32,
) -> Result<Draft, NoMemory>
    requires few { length graph.now.given < 2 ^ 32 }
    requires workers { 0 < workers }
    ensures draft { AreNamed (units_of (docs_of graph.now.given)) named.now
        → IfOk result (IsDraft (docs_of graph.now.given) 0 (length (tops_of (units_of (docs_of graph.now.given))))) }
    ensures few { IfOk result (λ draft. length (tops_of (units_of (docs_of graph.now.given))) < 2 ^ 32) }
{
    if workers == 1 {
        return gather(alloc, graph, named);
    }
    if graph.files().len() < workers as usize {
        return gather_stretches(rt, alloc, graph, named, workers);
    }
    let parts = parts_of(rt, alloc, graph, named, workers)?;
    join_parts(alloc, parts)
}
