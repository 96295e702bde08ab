//! Files, from their contents to what is put.
//!
//! Options are taken as they come. The number of workers is brought into its range, though words that are lawful have it there, and 2^32
//! files or more count as memory that there isn't: so the contract of the work speaks of all options.

ghost use Rattle.std.specs.Prelude.{◌≡◌, ◌<◌, ◌≤◌, ◌^◌, ◌&&◌, not, length, map};
ghost use Rattle.std.specs.Option.{is_some};
ghost use Rattle.dwz_run_course.specs.Answers.{IsAnswer};
ghost use Rattle.dwz_def_reading.specs.Files.{ReadAll, no_files_before};
ghost use Rattle.dwz_def_run.specs.Out.{Slims, top_scope_of};
ghost use Rattle.dwz_def_run.specs.Yields.{Yields};
ghost use Rattle.dwz_def_run.specs.Tells.{TellsWhy};
ghost use Rattle.dwz_graph.specs.Files.{docs_of};
ghost use Rattle.dwz_run_files.specs.Rules.{alike_scope};

use crate::batched::batched_files;
use crate::compared::compared_files;
use crate::expanded::expanded_files;
use crate::reused::reused_files;
use dwz_explain::explain_places;
use dwz_gate::Gate;
use dwz_graph::Graph;
use dwz_graph_pruning::prunable_files;
use dwz_model::GraphErr;
use dwz_plan::Scope;
use dwz_run_course::{Output, Puts, Said, TextPart, TextParts};
use dwz_run_files::make_files;
use dwz_run_output::outcome;
use dwz_words::{Options, places_asked};
use std::alloc::Global;
use std::thread::Threads;

/// No run has so many files. A file is numbered by 32 bits.
pub(crate) const MANY_FILES: usize = 1 << 32;

const MOST_WORKERS: u32 = 64;

// The number of workers that is asked for, or the nearest that there can be.
fn workers_of(options: &Options) -> u32
    ensures { (0 < result) × (result ≤ 64) }
{
    options.workers.clamp(1, MOST_WORKERS)
}

// Whether two files are compared.
fn compares(options: &Options) -> bool
    ensures { result ≡ (options.now.check && not options.now.explain) }
{
    options.check && !options.explain
}

// Whether one file is written without its partial units.
fn expands(options: &Options) -> bool
    ensures { result ≡ (options.now.expand && not options.now.explain && not options.now.check) }
{
    options.expand && !options.explain && !options.check
}

// Whether files are written over a finished common file.
fn reuses(options: &Options) -> bool
    ensures { result ≡ is_some options.now.reuse }
{
    options.reuse.is_some()
}

// Whether that is done with each of many as if it were alone.
fn batches(options: &Options) -> bool
    ensures { result ≡ is_some options.now.batch }
{
    options.batch.is_some()
}

// Which files share: all of them where a common file is asked for, and else each by itself.
fn sharing_of(options: &Options) -> Scope
    ensures { alike_scope result ≡ top_scope_of options.now }
{
    match options.common {
        None => Scope::Each,
        Some(_) => Scope::Together,
    }
}

// What comes of files that are slimmed.
fn slimmed_files<R: Threads + Sync, G: Gate>(
    rt: &R,
    alloc: Global,
    options: &Options,
    contents: &[Vec<u8>],
    graph: &Graph<'_>,
    workers: u32,
    gate: &G,
) -> Result<Output, GraphErr>
    requires read { graph.now.given ≡ map (λ c. c.items) contents.now }
    requires reads { ReadAll no_files_before graph.now.given (docs_of graph.now.given) }
    requires few { length contents.now < 2 ^ 32 }
    requires workers { (0 < workers) × (workers ≤ 64) }
    ensures { IsAnswer (Slims options.now graph.now.given) result }
{
    let prunes = prunable_files(alloc, contents, graph)?;
    let sharing = sharing_of(options);
    let made = make_files(rt, alloc, contents, graph, &prunes, sharing, workers, gate)?;
    outcome(
        alloc,
        options,
        contents,
        graph,
        made.common,
        made.files,
        made.partials,
    )
}

// What is said of the two places that are asked for.
fn told_places<R: Threads + Sync>(
    rt: &R,
    alloc: Global,
    options: &Options,
    graph: &Graph<'_>,
    workers: u32,
) -> Result<Output, GraphErr>
    requires reads { ReadAll no_files_before graph.now.given (docs_of graph.now.given) }
    requires few { length graph.now.given < 2 ^ 32 }
    requires workers { (0 < workers) × (workers ≤ 64) }
    ensures { IsAnswer (TellsWhy options.now graph.now.given) result }
{
    let (first, second) = places_asked(options);
    let text = explain_places(rt, alloc, graph, first, second, workers)?;
    let mut parts = Vec::new(alloc);
    parts.push(TextPart {
        text,
        is_summary: false,
    })?;
    Ok(Output {
        puts: Puts::new(Vec::new(alloc)),
        said: Said::Parts(TextParts::new(parts)),
        differs: false,
        partly: false,
    })
}

/// What comes of options and of the contents of their files: what is put and said, or the first refusal.
pub(crate) fn written_files<R: Threads + Sync, G: Gate>(
    rt: &R,
    alloc: Global,
    options: &Options,
    contents: &[Vec<u8>],
    gate: &G,
) -> Result<Output, GraphErr>
    ensures { IsAnswer (Yields options.now (map (λ c. c.items) contents.now)) result }
{
    if contents.len() >= MANY_FILES {
        return Err(GraphErr::NoMemory);
    }
    let workers = workers_of(options);
    if batches(options) {
        return batched_files(rt, alloc, options, contents, workers, gate);
    }
    if reuses(options) {
        return reused_files(rt, alloc, options, contents, workers, gate);
    }
    if compares(options) {
        return compared_files(rt, alloc, options, contents, workers, gate);
    }
    if expands(options) {
        return expanded_files(alloc, options, contents);
    }
    let graph = Graph::read_by(rt, alloc, contents, workers)?;
    if options.explain {
        told_places(rt, alloc, options, &graph, workers)
    } else {
        slimmed_files(rt, alloc, options, contents, &graph, workers, gate)
    }
}
