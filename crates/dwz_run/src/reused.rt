//! Files that are written over a finished common file (DWARF 5, 7.3.6), from contents to what is put and said.
//!
//! Behind a content that is too long nothing was got. There the files behind it count as empty, and the one that is too long is refused.

ghost use Rattle.std.specs.Prelude.{◌≡◌, ℕ, suc, ◌<◌, ◌≤◌, ◌^◌, List, [], Ok, get_or, length, map, unwrap_or, IfOk};
ghost use Rattle.std.specs.List.{range_with_len};
ghost use Rattle.dwz_def_reading.specs.Finished.{BesideDocs, beside_meaning};
ghost use Rattle.dwz_graph.specs.Files.{docs_of};
ghost use Rattle.dwz_run_course.specs.Answers.{IsAnswer};
ghost use Rattle.dwz_def_run.specs.Comes.{reusing};
ghost use Rattle.dwz_def_run.specs.Reuses.{Reuses, ReusesOf};

use crate::contents::content_at;
use crate::written::MANY_FILES;
use dwz_gate::Gate;
use dwz_graph::Graph;
use dwz_graph_pruning::prunable_files;
use dwz_model::{GraphErr, NoMemory};
use dwz_move_files::movable;
use dwz_reuse::{match_common, read_laws};
use dwz_run_course::Output;
use dwz_run_files::make_over;
use dwz_run_output::outcome_over;
use dwz_words::Options;
use std::alloc::Global;
use std::thread::Threads;

// What files say that were read beside a common file they say by themselves.
fn say_alone(graph: &Graph<'_>)
    requires { (bytes : List ℕ) × (graph.now.common ≡ Some bytes) }
    ensures { (said : BesideDocs) → beside_meaning (unwrap_or graph.now.common []) graph.now.given ≡ Ok said → said.docs ≡ docs_of graph.now.given }
{
    read_laws();
    graph.files();
    graph.common();
}

/// What comes of files that are read beside that common file.
pub(crate) fn written_over<R: Threads + Sync, G: Gate>(
    rt: &R,
    alloc: Global,
    options: &Options,
    common: &[u8],
    files: &[Vec<u8>],
    workers: u32,
    gate: &G,
) -> Result<Output, GraphErr>
    requires few { length files.now < 2 ^ 32 }
    requires workers { (0 < workers) × (workers ≤ 64) }
    ensures { IsAnswer (ReusesOf (reusing options.now) common.now (map (λ c. c.items) files.now)) result }
{
    let graph = Graph::read_sup_by(rt, alloc, files, common, workers)?;
    say_alone(&graph);
    let prunes = prunable_files(alloc, files, &graph)?;
    let movable = movable(alloc, &graph)?;
    let fixed = match_common(rt, alloc, &graph, movable.as_slice(), workers, gate)?;
    let made = make_over(rt, alloc, files, &graph, &prunes, &fixed, workers, gate)?;
    outcome_over(
        alloc,
        options,
        common,
        files,
        &graph,
        made.files,
        made.partials,
    )
}

// So many contents behind the first, with nothing for what wasn't got.
fn contents_behind(
    alloc: Global,
    contents: &[Vec<u8>],
    count: usize,
) -> Result<Vec<Vec<u8>>, NoMemory>
    ensures { IfOk result (λ files. map (λ c. c.items) files.items ≡ map (λ n. get_or (map (λ c. c.items) contents.now) (suc n) []) (range_with_len 0 count)) }
{
    let mut files = Vec::with_capacity(alloc, count)?;
    for number in 0..count {
        files.push(Vec::from_slice(alloc, content_at(contents, number + 1))?)?;
    }
    Ok(files)
}

/// What is put and said of the files that options name, or the first refusal of these and of their common file.
pub(crate) fn reused_files<R: Threads + Sync, G: Gate>(
    rt: &R,
    alloc: Global,
    options: &Options,
    contents: &[Vec<u8>],
    workers: u32,
    gate: &G,
) -> Result<Output, GraphErr>
    requires few { length contents.now < 2 ^ 32 }
    requires workers { (0 < workers) × (workers ≤ 64) }
    ensures { IsAnswer (Reuses (reusing options.now) (map (λ c. c.items) contents.now)) result }
{
    let count = options.files.len();
    if count >= MANY_FILES {
        return Err(GraphErr::NoMemory);
    }
    let common = content_at(contents, 0);
    if contents.len() == count + 1 {
        written_over(rt, alloc, options, common, &contents[1..], workers, gate)
    } else {
        let files = contents_behind(alloc, contents, count)?;
        written_over(rt, alloc, options, common, &files, workers, gate)
    }
}
