//! What is gathered of stretches of tops, of which a file may have several, by several workers, and put together in order.

ghost use Rattle.std.specs.Prelude.{◌≡◌, ℕ, ◌+◌, ◌<◌, ◌^◌, List, Some, length, slice_get, slice_index_or, vec_len, IfOk, IfSome, OnOk};
ghost use Rattle.dwz_def_tops.specs.Spots.{tops_of, units_of};
ghost use Rattle.dwz_graph.specs.Files.{docs_of};
ghost use Rattle.dwz_graph.specs.Index.{Index};
ghost use Rattle.dwz_graph.specs.Indexed.{AreIndexes};
ghost use Rattle.dwz_graph.specs.Across.{starts_at};
ghost use Rattle.dwz_move_files.specs.declared.stretches.Stretch.{Stretch};
ghost use Rattle.dwz_move_files.specs.Named.{AreNamed};
ghost use Rattle.dwz_def_reading.specs.Documents.{Doc};
ghost use Rattle.dwz_move_files.specs.Drafts.{AreParts, IsDraft};
ghost use Rattle.dwz_move_files.specs.Stretches.{AreKnown, AreStretches, IsStretchDraft, IsWork};

use crate::draft::{Draft, KnownFile, gather, known_of, put_tops, with_room};
use crate::parts::{empty_slots, join_parts};
use dwz_graph::{File, Graph, Index};
use dwz_model::NoMemory;
use dwz_move::Named;
use std::alloc::Global;
use std::thread;
use std::thread::Threads;

// Fewer tops cost less than a thread does.
const MANY: usize = 4096;

/// Tops of a file, from the one at a place among them to before another.
#[derive(Clone, Copy)]
pub(crate) struct Stretch {
    pub file: u32,
    pub start: usize,
    pub end: usize,
}

/// What workers stand on: the files of a run with their indexes, what is known of each, which tops operands name, and the stretches.
#[derive(Drop)]
pub(crate) struct Work<'g, 'a> {
    /// Clauses see what the files say.
    pub graph: &'g Graph<'a>,
    pub files: &'g [File<'a>],
    pub indexes: &'g [Index],
    pub named: &'g Named,
    pub known: Vec<KnownFile<'g, 'a>>,
    pub stretches: Vec<Stretch>,
}

// Adds the stretches of a file with so many tops, about as long as one another: one for each worker, or fewer, so that none has few tops.
fn cut_file(
    stretches: &mut Vec<Stretch>,
    file: u32,
    tops: usize,
    workers: u32,
) -> Result<(), NoMemory>
    ensures { (docs : List (Doc ℕ)) (indexes : List Index) (x : Index) → slice_get indexes file ≡ Some x → length x.tops ≡ tops
        → AreStretches docs indexes 0 (starts_at docs indexes file).top stretches.old.items
        → OnOk result (AreStretches docs indexes 0 ((starts_at docs indexes file).top + tops) stretches.new.items) }
{
    let count = (tops / MANY).min(workers as usize).max(1);
    let size = (tops / count).max(1);
    let mut start = 0;
    while (tops - start) / 2 >= size {
        let end = start + size;
        stretches.push(Stretch { file, start, end })?;
        start = end;
    }
    stretches.push(Stretch {
        file,
        start,
        end: tops,
    })?;
    Ok(())
}

// The stretches of all files.
fn cut_files(alloc: Global, indexes: &[Index], workers: u32) -> Result<Vec<Stretch>, NoMemory>
    requires { length indexes.now < 2 ^ 32 }
    ensures { (docs : List (Doc ℕ)) → AreIndexes docs indexes.now
        → IfOk result (λ all. AreStretches docs indexes.now 0 (starts_at docs indexes.now (length indexes.now)).top all.items) }
{
    let mut stretches = Vec::new(alloc);
    for (file, index) in indexes.iter().enumerate() {
        cut_file(&mut stretches, file as u32, index.tops().len(), workers)?;
    }
    Ok(stretches)
}

// What is known of each file.
fn known_files<'f, 'a>(
    alloc: Global,
    files: &'f [File<'a>],
    indexes: &[Index],
) -> Result<Vec<KnownFile<'f, 'a>>, NoMemory>
    requires len { length files.now ≡ length indexes.now }
    requires few { (k : ℕ) (x : Index) → slice_get indexes.now k ≡ Some x → length x.steps < 2 ^ 32 }
    ensures { IfOk result (λ known. AreKnown files.now indexes.now known.items) }
{
    let mut known = Vec::new(alloc);
    for (k, file) in files.iter().enumerate() {
        known.push(known_of(alloc, file, &indexes[k])?)?;
    }
    Ok(known)
}

// What is gathered of the stretch with a number.
fn stretch_part(alloc: Global, work: &Work, k: usize) -> Result<Draft, NoMemory>
    requires work { IsWork work.now }
    requires at { k < vec_len work.now.stretches }
    ensures { AreNamed (units_of (docs_of work.now.graph.now.given)) work.now.named.now → (s : Stretch)
        → slice_get work.now.stretches.items k ≡ Some s
        → IfOk result (IsStretchDraft (docs_of work.now.graph.now.given) work.now.indexes.now s) }
{
    let stretch = work.stretches[k];
    let file = stretch.file as usize;
    let mut draft = with_room(alloc, stretch.end.saturating_sub(stretch.start))?;
    let mut operands = Vec::new(alloc);
    put_tops(
        &mut draft,
        &work.files[file],
        &work.indexes[file],
        stretch.file,
        &work.known[file],
        stretch.start,
        stretch.end,
        work.named,
        &mut operands,
    )?;
    Ok(draft)
}

// Puts it into a slot, which is left empty where memory ran out.
fn fill(alloc: Global, work: &Work, k: usize, slot: &mut Option<Draft>)
    requires work { IsWork work.now }
    requires at { k < vec_len work.now.stretches }
    ensures { AreNamed (units_of (docs_of work.now.graph.now.given)) work.now.named.now → (s : Stretch)
        → slice_get work.now.stretches.items k ≡ Some s
        → IfSome slot.new (IsStretchDraft (docs_of work.now.graph.now.given) work.now.indexes.now s) }
{
    *slot = stretch_part(alloc, work, k).ok();
}

// Fills the slots, of which there is one for each stretch.
fn fill_slots<R: Threads + Sync>(
    rt: &R,
    alloc: Global,
    work: &Work,
    workers: u32,
    slots: &mut [Option<Draft>],
)
    requires len { length slots.old ≡ vec_len work.now.stretches }
    requires work { IsWork work.now }
    requires workers { 0 < workers }
    ensures { AreNamed (units_of (docs_of work.now.graph.now.given)) work.now.named.now → (k : ℕ) (d : _) (s : Stretch)
        → k < length slots.old → slice_get work.now.stretches.items k ≡ Some s
        → IfSome (slice_index_or slots.new k d) (IsStretchDraft (docs_of work.now.graph.now.given) work.now.indexes.now s) }
{
    let each = |k: usize, slot: &mut Option<Draft>|
        requires { IsWork work.now × (k < vec_len work.now.stretches) }
        ensures { AreNamed (units_of (docs_of work.entry.now.graph.now.given)) work.entry.now.named.now → (s : Stretch)
            → slice_get work.entry.now.stretches.items k ≡ Some s
            → IfSome slot.exit.now (IsStretchDraft (docs_of work.entry.now.graph.now.given) work.entry.now.indexes.now s) }
    { fill(alloc, work, k, slot) };
    thread::for_each_mut(rt, slots, workers as usize, &each);
}

// What is gathered of each stretch, by so many workers.
fn stretch_parts<R: Threads + Sync>(
    rt: &R,
    alloc: Global,
    work: &Work,
    workers: u32,
) -> Result<Vec<Option<Draft>>, NoMemory>
    requires work { IsWork work.now }
    requires workers { 0 < workers }
    ensures { AreNamed (units_of (docs_of work.now.graph.now.given)) work.now.named.now
        → IfOk result (λ parts. AreParts (docs_of work.now.graph.now.given) 0
        (length (tops_of (units_of (docs_of work.now.graph.now.given)))) parts.items) }
{
    let mut slots = empty_slots(alloc, work.stretches.len())?;
    fill_slots(rt, alloc, work, workers, slots.as_mut_slice());
    Ok(slots)
}

/// What is gathered of the tops of all files, by at most so many workers, each of which takes stretches of tops. How many there are makes
/// no difference.
pub(crate) fn gather_stretches<R: Threads + Sync>(
    rt: &R,
    alloc: Global,
    graph: &Graph,
    named: &Named,
    workers: u32,
) -> Result<Draft, NoMemory>
    requires few { length graph.now.given < 2 ^ 32 }
    requires workers { 0 < workers }
    ensures draft { AreNamed (units_of (docs_of graph.now.given)) named.now
        → IfOk result (IsDraft (docs_of graph.now.given) 0 (length (tops_of (units_of (docs_of graph.now.given))))) }
    ensures few { IfOk result (λ draft. length (tops_of (units_of (docs_of graph.now.given))) < 2 ^ 32) }
{
    let files = graph.files();
    let indexes = graph.indexes();
    let stretches = cut_files(alloc, indexes, workers)?;
    if stretches.len() < 2 {
        return gather(alloc, graph, named);
    }
    let known = known_files(alloc, files, indexes)?;
    let work = Work {
        graph,
        files,
        indexes,
        named,
        known,
        stretches,
    };
    let parts = stretch_parts(rt, alloc, &work, workers)?;
    join_parts(alloc, parts)
}
