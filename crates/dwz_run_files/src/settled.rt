//! A run, planned and settled.

ghost use Rattle.std.specs.Prelude.{◌≡◌, ◌<◌, ◌≤◌, ◌^◌, length, IfOk};
ghost use Rattle.dwz_graph.specs.Files.{docs_of};
ghost use Rattle.dwz_law_layout.specs.Beside.{Standing};
ghost use Rattle.dwz_run_files.specs.OverRun.{IsSettledOver, IsStanding};
ghost use Rattle.dwz_run_files.specs.SettledRun.{IsSettledRun};

use crate::standing::StandingCommon;
use dwz_gate::Gate;
use dwz_graph::{Graph, Index};
use dwz_layout_input::{SettledFiles, plan_files, plan_over, settle_files, settle_files_over};
use dwz_model::NoMemory;
use dwz_plan::Scope;
use std::alloc::Global;
use std::thread::Threads;

/// The files of a run, each by itself or all together: what their entries are, and what is settled of them.
#[derive(Drop)]
pub struct SettledRun<'g> {
    /// What the entries of each file are.
    pub indexes: &'g [Index],
    /// What is settled of the files, with their plan.
    pub settled: SettledFiles,
}

/// Plans and settles files that share so.
pub(crate) fn settle_run<'g, R: Threads + Sync, G: Gate>(
    rt: &R,
    alloc: Global,
    graph: &'g Graph<'_>,
    scope: Scope,
    workers: u32,
    gate: &G,
) -> Result<SettledRun<'g>, NoMemory>
    requires few { length graph.now.given < 2 ^ 32 }
    requires workers { (0 < workers) × (workers ≤ 64) }
    ensures settled { IfOk result (IsSettledRun graph.now.given) }
    ensures scope { IfOk result (λ run. run.settled.scope ≡ scope) }
{
    let indexes = graph.indexes();
    let planned = plan_files(rt, alloc, graph, scope, workers, gate)?;
    let settled = settle_files(alloc, graph, scope, planned)?;
    // What these say is known of what is settled.
    let _files = graph.files();
    let _lent = settled.as_settled();
    Ok(SettledRun { indexes, settled })
}

/// Plans and settles files over a common file that stands.
pub(crate) fn settle_over<'g, R: Threads + Sync, G: Gate>(
    rt: &R,
    alloc: Global,
    graph: &'g Graph<'_>,
    standing: &StandingCommon,
    workers: u32,
    gate: &G,
) -> Result<SettledRun<'g>, NoMemory>
    requires few { length graph.now.given < 2 ^ 32 }
    requires workers { (0 < workers) × (workers ≤ 64) }
    requires standing { (s : Standing) × IsStanding s (docs_of graph.now.given) standing.now }
    ensures { (s : Standing) → IsStanding s (docs_of graph.now.given) standing.now → IfOk result (IsSettledOver s graph.now.given) }
{
    let indexes = graph.indexes();
    let planned = plan_over(
        rt,
        alloc,
        graph,
        standing.common,
        &standing.index,
        standing.fixed,
        workers,
        gate,
    )?;
    let settled = settle_files_over(alloc, graph, planned)?;
    // What these say is known of what is settled.
    let _files = graph.files();
    let _lent = settled.as_settled();
    Ok(SettledRun { indexes, settled })
}
