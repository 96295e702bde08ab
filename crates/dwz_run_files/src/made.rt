//! What is new in all files, and the common file.

ghost use Rattle.std.specs.Prelude.{◌≡◌, ◌<◌, ◌≤◌, ◌^◌, length, map, IfOk};
ghost use Rattle.dwz_def_output.specs.NewFiles.{AreNew, IsNewCommon};
ghost use Rattle.dwz_def_readback.specs.Back.{run_of};
ghost use Rattle.dwz_def_readback.specs.Files.{Made};
ghost use Rattle.dwz_law_layout.specs.Beside.{Alone, Over, Standing};
ghost use Rattle.dwz_law_layout.specs.Facts.{RunFacts, common, docs, run};
ghost use Rattle.dwz_graph.specs.Files.{docs_of};
ghost use Rattle.dwz_def_output.specs.Written.{ArePrunable, stored_of};
ghost use Rattle.dwz_layout_input.specs.Rules.{rule_by};
ghost use Rattle.dwz_run_files.specs.Common.{HasTexts};
ghost use Rattle.dwz_run_files.specs.OverRun.{IsStanding};
ghost use Rattle.dwz_run_files.specs.Works.{AreNewFiles, WorksOf};

use crate::common::CommonTexts;
use crate::common_sections::new_common;
use crate::lanes::new_files;
use crate::standing::StandingCommon;
use crate::work::LaidRun;
use crate::{PreparedFiles, prepare_files};
use dwz_def_output::NewFile;
use dwz_gate::Gate;
use dwz_graph::Graph;
use dwz_layout::Layout;
use dwz_layout_input::tops_over;
use dwz_layout_numbers::{starts, tops};
use dwz_model::{NoMemory, Sections};
use dwz_plan::Scope;
use std::alloc::Global;
use std::thread::Threads;

/// What is new in files.
#[derive(Debug, Drop)]
pub struct NewSectionsOfRun {
    /// The sections of the common file, if there is one.
    pub common: Option<Sections>,
    /// For each file what is new in it, or None where nothing of it moves.
    pub files: Vec<Option<NewFile>>,
    /// How many partial units they have together.
    pub partials: u32,
}

// What is laid of files: the sections of the common file, if there is one, and what is new in each file.
#[derive(Drop)]
struct Laid {
    common: Option<Sections>,
    files: Vec<Option<NewFile>>,
}

// Lays prepared files, and makes what is new, by at most so many threads.
fn lay_files<R: Threads + Sync>(
    rt: &R,
    alloc: Global,
    prepared: &PreparedFiles,
    texts: Option<CommonTexts>,
    workers: u32,
) -> Result<Laid, NoMemory>
    requires works { (f : RunFacts Alone) × WorksOf f prepared.now × HasTexts (run f) texts }
    requires workers { (0 < workers) × (workers ≤ 64) }
    ensures common { (f : RunFacts Alone) → WorksOf f prepared.now → HasTexts (run f) texts
        → IfOk result (λ laid. IsNewCommon (run f) laid.common) }
    ensures files { (f : RunFacts Alone) → WorksOf f prepared.now → IfOk result (λ laid. AreNewFiles Made (run f) laid.files.items) }
{
    let indexes = prepared.run.indexes;
    let layout = Layout::make(alloc, &prepared.known, &prepared.ordered.orders)?;
    let starts = starts(alloc, indexes)?;
    let tops = tops(alloc, indexes)?;
    let work = LaidRun {
        prepared,
        layout: &layout,
        starts: starts.as_slice(),
        tops: tops.as_slice(),
    };
    let common = new_common(rt, alloc, &work, texts, workers)?;
    let files = new_files(rt, alloc, &work, workers)?;
    Ok(Laid { common, files })
}

/// Lays prepared files behind a common file that stands, and makes what is new in them, by at most so many threads.
pub(crate) fn lay_over<R: Threads + Sync>(
    rt: &R,
    alloc: Global,
    prepared: &PreparedFiles,
    standing: &StandingCommon,
    workers: u32,
) -> Result<Vec<Option<NewFile>>, NoMemory>
    requires works { (s : Standing) × (f : RunFacts (Over s)) × WorksOf f prepared.now × IsStanding s (docs f) standing.now }
    requires workers { (0 < workers) × (workers ≤ 64) }
    ensures { (s : Standing) (f : RunFacts (Over s)) → WorksOf f prepared.now → IsStanding s (docs f) standing.now
        → IfOk result (λ files. AreNewFiles (common f) (run f) files.items) }
{
    let indexes = prepared.run.indexes;
    let orders = &prepared.ordered.orders;
    let common = standing.common;
    let layout = Layout::over(alloc, &prepared.known, &common.units, orders)?;
    let starts = starts(alloc, indexes)?;
    let tops = tops_over(alloc, indexes, &standing.index)?;
    let work = LaidRun {
        prepared,
        layout: &layout,
        starts: starts.as_slice(),
        tops: tops.as_slice(),
    };
    new_files(rt, alloc, &work, workers)
}

/// What is new in files that share so: tops that stand in several units of a file move into partial units of the file (DWARF 5, 3.1.2
/// and E.1), and those that stand in units of several files, where these share, into partial units of a common file (7.3.6), where that
/// makes it smaller; all else stays, and what names an entry names it where it stands after. In a file whose texts nothing else speaks of
/// just those stay that are used. `contents` is what the files were read from, and `prunes` says of each file whether it is so. It is
/// the same for every number of workers and every gate.
///
/// The only error is that memory ran out, or more numbers were needed than 32 bits have.
pub fn make_files<R: Threads + Sync, G: Gate>(
    rt: &R,
    alloc: Global,
    contents: &[Vec<u8>],
    graph: &Graph,
    prunes: &[bool],
    scope: Scope,
    workers: u32,
    gate: &G,
) -> Result<NewSectionsOfRun, NoMemory>
    requires read { graph.now.given ≡ map (λ v. v.items) contents.now }
    requires few { length graph.now.given < 2 ^ 32 }
    requires prunes { ArePrunable graph.now.given (docs_of graph.now.given) prunes.now }
    requires workers { (0 < workers) × (workers ≤ 64) }
    ensures common { IfOk result (λ m. let docs = docs_of graph.now.given in
        IsNewCommon (run_of (rule_by scope docs) docs (stored_of graph.now.given prunes.now)) m.common) }
    ensures files { IfOk result (λ m. let docs = docs_of graph.now.given in
        AreNew (run_of (rule_by scope docs) docs (stored_of graph.now.given prunes.now)) m.files.items m.partials) }
{
    let ready = prepare_files(rt, alloc, contents, graph, prunes, scope, workers, gate)?;
    let prepared = ready.files;
    let laid = lay_files(rt, alloc, &prepared, ready.common, workers)?;
    let partials = prepared.run.settled.planned.plan.partials().len() as u32;
    Ok(NewSectionsOfRun {
        common: laid.common,
        files: laid.files,
        partials,
    })
}
