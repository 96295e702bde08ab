//! The outline of files: their tops, and which of them may move.

ghost use Rattle.std.specs.Prelude.{◌≡◌, ℕ, ◌<◌, ◌≤◌, ◌++◌, ◌^◌, All, List, length, map, replicate, IfOk, OnOk};
ghost use Rattle.dwz_def_tops.specs.Deciding.{AreMovable};
ghost use Rattle.dwz_def_tops.specs.Spots.{tops_of, units_of};
ghost use Rattle.dwz_graph.specs.Files.{docs_of};
ghost use Rattle.dwz_groups.specs.Groups.{grouped};
ghost use Rattle.dwz_move_files.specs.Drafts.{IsDraft};
ghost use Rattle.dwz_move_files.specs.Outlines.{AreTops, IsOutline};
ghost use Rattle.dwz_move_files.specs.Rows.{with_flags};

use crate::draft::{Draft, gather};
use crate::named_tops;
use crate::parts::gather_by;
use dwz_graph::Graph;
use dwz_groups::{Groups, TopRow, TopRows, Tops, group};
use dwz_model::{Flags, NoMemory, Numbers};
use dwz_move::movable_by;
use std::alloc::Global;
use std::thread::Threads;

/// What is known of all files together.
#[derive(Drop)]
pub struct Outline {
    /// The tops of all files, in order of place.
    pub tops: Tops,
}

// Appends a number, so often.
fn put_number(numbers: &mut Vec<u32>, number: u32, count: u32) -> Result<(), NoMemory>
    ensures { OnOk result (numbers.new.items ≡ numbers.old.items ++ replicate count number) }
{
    for _ in 0..count {
        numbers.push(number)?;
    }
    Ok(())
}

// The number of the file of each unit.
fn files_of_units(alloc: Global, graph: &Graph) -> Result<Vec<u32>, NoMemory>
    requires { length graph.now.given < 2 ^ 32 }
    ensures { IfOk result (λ files. files.items ≡ map (λ f. f.file) (units_of (docs_of graph.now.given))) }
{
    let mut numbers = Vec::new(alloc);
    for (number, file) in graph.files().iter().enumerate() {
        put_number(&mut numbers, number as u32, file.units.len())?;
    }
    Ok(numbers)
}

// Says of each row whether its top may move.
fn set_movable(rows: &mut [TopRow], flags: &[bool])
    requires { length flags.now ≡ length rows.old }
    ensures { rows.new ≡ with_flags rows.old flags.now }
{
    for k in 0..rows.len() {
        rows[k].movable = flags[k];
    }
}

// Under each top its targets.
fn targets_of(alloc: Global, draft: &Draft) -> Result<Groups, NoMemory>
    requires { All (λ p. p.key < length draft.now.rows.items) draft.now.pairs.items }
    ensures { IfOk result (λ targets. targets ≡ grouped (length draft.now.rows.items) draft.now.pairs.items) }
{
    group(alloc, draft.rows.len(), draft.pairs.as_slice())
}

// Rows and targets, and beside them the files and their units.
fn with_units(
    alloc: Global,
    graph: &Graph,
    rows: Vec<TopRow>,
    targets: Groups,
) -> Result<Tops, NoMemory>
    requires few { length graph.now.given < 2 ^ 32 }
    ensures rows { IfOk result (λ tops. tops.rows ≡ rows.items) }
    ensures targets { IfOk result (λ tops. tops.targets ≡ targets) }
    ensures units { IfOk result (λ tops. tops.files_of_units ≡ map (λ f. f.file) (units_of (docs_of graph.now.given))) }
    ensures files { IfOk result (λ tops. tops.files ≡ length (docs_of graph.now.given)) }
{
    let files = graph.files().len() as u32;
    let files_of_units = Numbers::new(files_of_units(alloc, graph)?);
    Ok(Tops {
        rows: TopRows::new(rows),
        targets,
        files_of_units,
        files,
    })
}

// What is gathered of the tops of all files, on one thread.
fn gathered(alloc: Global, graph: &Graph) -> Result<Draft, NoMemory>
    requires few { length graph.now.given < 2 ^ 32 }
    ensures draft { IfOk result (IsDraft (docs_of graph.now.given) 0 (length (tops_of (units_of (docs_of graph.now.given))))) }
    ensures few { IfOk result (λ draft. length draft.rows.items < 2 ^ 32) }
{
    let named = named_tops(alloc, graph)?;
    gather(alloc, graph, &named)
}

// The same by at most so many workers.
fn gathered_by<R: Threads + Sync>(
    rt: &R,
    alloc: Global,
    graph: &Graph,
    workers: u32,
) -> Result<Draft, NoMemory>
    requires few { length graph.now.given < 2 ^ 32 }
    requires workers { 0 < workers }
    ensures draft { IfOk result (IsDraft (docs_of graph.now.given) 0 (length (tops_of (units_of (docs_of graph.now.given))))) }
    ensures few { IfOk result (λ draft. length draft.rows.items < 2 ^ 32) }
{
    let named = named_tops(alloc, graph)?;
    gather_by(rt, alloc, graph, &named, workers)
}

// The tops of which that is gathered.
fn tops_from(alloc: Global, graph: &Graph, draft: Draft) -> Result<Tops, NoMemory>
    requires few { length graph.now.given < 2 ^ 32 }
    requires draft { IsDraft (docs_of graph.now.given) 0 (length (tops_of (units_of (docs_of graph.now.given)))) draft }
    ensures { IfOk result (AreTops (docs_of graph.now.given)) }
{
    let targets = targets_of(alloc, &draft)?;
    with_units(alloc, graph, draft.rows, targets)
}

/// The tops of all files, in order of place. Of none it is said yet that it may move: `movable` is false in each row. A top that binds
/// itself, by what stands in it or since an operand names an entry of it, is given no targets.
pub fn tops(alloc: Global, graph: &Graph) -> Result<Tops, NoMemory>
    requires few { length graph.now.given < 2 ^ 32 }
    ensures { IfOk result (AreTops (docs_of graph.now.given)) }
{
    tops_from(alloc, graph, gathered(alloc, graph)?)
}

/// The same by at most so many workers. How many there are makes no difference.
pub fn tops_by<R: Threads + Sync>(
    rt: &R,
    alloc: Global,
    graph: &Graph,
    workers: u32,
) -> Result<Tops, NoMemory>
    requires few { length graph.now.given < 2 ^ 32 }
    requires workers { (0 < workers) × (workers ≤ 64) }
    ensures { IfOk result (AreTops (docs_of graph.now.given)) }
{
    tops_from(alloc, graph, gathered_by(rt, alloc, graph, workers)?)
}

/// Of each top of all files, in order of place, whether it may move.
pub fn movable(alloc: Global, graph: &Graph) -> Result<Flags, NoMemory>
    requires few { length graph.now.given < 2 ^ 32 }
    ensures { IfOk result (AreMovable (units_of (docs_of graph.now.given))) }
{
    let draft = gathered(alloc, graph)?;
    let targets = targets_of(alloc, &draft)?;
    movable_by(alloc, &targets, draft.binds.as_slice())
}

/// The tops of all files, in order of place. It is the same for every number of workers.
pub fn outline_files<R: Threads + Sync>(
    rt: &R,
    alloc: Global,
    graph: &Graph,
    workers: u32,
) -> Result<Outline, NoMemory>
    requires few { length graph.now.given < 2 ^ 32 }
    requires workers { (0 < workers) × (workers ≤ 64) }
    ensures tops { IfOk result (λ o. IsOutline (docs_of graph.now.given) o.tops) }
{
    let draft = gathered_by(rt, alloc, graph, workers)?;
    let targets = targets_of(alloc, &draft)?;
    let movable = movable_by(alloc, &targets, draft.binds.as_slice())?;
    let mut rows = draft.rows;
    set_movable(rows.as_mut_slice(), movable.as_slice());
    let tops = with_units(alloc, graph, rows, targets)?;
    Ok(Outline { tops })
}
