//! The plan of files.

ghost use Rattle.std.specs.Prelude.{◌≡◌, ◌<◌, ◌≤◌, ◌^◌, length, IfOk};
ghost use Rattle.dwz_def_tops.specs.Spots.{units_of};
ghost use Rattle.dwz_graph.specs.Files.{docs_of};
ghost use Rattle.dwz_label_files.specs.LeastLaws.{flags_of};
ghost use Rattle.dwz_move_files.specs.Outlines.{IsOutline};
ghost use Rattle.dwz_plan.specs.Shows.{ShowsPlan};
ghost use Rattle.dwz_layout_input.specs.Fits.{FitsFiles};
ghost use Rattle.dwz_layout_input.specs.Rules.{rule_by};

use dwz_gate::Gate;
use dwz_graph::Graph;
use dwz_groups::Tops;
use dwz_label_files::least;
use dwz_model::NoMemory;
use dwz_move_files::outline_files;
use dwz_plan::{Plan, Scope};
use std::alloc::Global;
use std::thread::Threads;

/// The tops of files, and their plan.
#[derive(Drop)]
pub struct PlannedFiles {
    /// The tops of all files, in order of place, and behind them those of a common file over which these are planned.
    pub tops: Tops,
    /// Which of them move, into which partial units, and what stands for each after.
    pub plan: Plan,
}

/// The tops of all files, with how many files there are.
pub(crate) fn tops_of<R: Threads + Sync>(
    rt: &R,
    alloc: Global,
    graph: &Graph,
    workers: u32,
) -> Result<Tops, NoMemory>
    requires few { length graph.now.given < 2 ^ 32 }
    requires workers { (0 < workers) × (workers ≤ 64) }
    ensures outline { IfOk result (λ tops. IsOutline (docs_of graph.now.given) tops) }
    ensures files { IfOk result (λ tops. tops.files ≡ length (docs_of graph.now.given)) }
    ensures few_rows { IfOk result (λ tops. length tops.rows ≤ 2 ^ 29) }
    ensures few_units { IfOk result (λ tops. length tops.files_of_units ≤ 2 ^ 29) }
{
    let outline = outline_files(rt, alloc, graph, workers)?;
    let mut tops = outline.tops;
    tops.files = graph.files().len() as u32;
    Ok(tops)
}

/// Of each top whether it may move.
pub(crate) fn movable_of(alloc: Global, tops: &Tops) -> Result<Vec<bool>, NoMemory>
    ensures { IfOk result (λ flags. flags.items ≡ flags_of tops.now) }
{
    let rows = tops.rows.as_slice();
    rows.iter().map(|row| row.movable).collect(alloc)
}

/// Which tops of files move (DWARF 5, 3.2.5 and Appendix E): the outline of the files, and the plan of alike tops whose groups gain. Tops
/// of different files are alike only where all files share. It is the same for every number of workers and every gate.
pub fn plan_files<R: Threads + Sync, G: Gate>(
    rt: &R,
    alloc: Global,
    graph: &Graph,
    scope: Scope,
    workers: u32,
    gate: &G,
) -> Result<PlannedFiles, NoMemory>
    requires few { length graph.now.given < 2 ^ 32 }
    requires workers { (0 < workers) × (workers ≤ 64) }
    ensures outline { IfOk result (λ p. IsOutline (docs_of graph.now.given) p.tops) }
    ensures plan { IfOk result (λ p. let docs = docs_of graph.now.given in ShowsPlan (rule_by scope docs) (units_of docs) (length docs) p.plan) }
    ensures fits { IfOk result (λ p. FitsFiles scope (docs_of graph.now.given) p.tops p.plan) }
{
    let tops = tops_of(rt, alloc, graph, workers)?;
    let movable = movable_of(alloc, &tops)?;
    let flags = movable.as_slice();
    let least = least(rt, alloc, graph, &tops, flags, workers, gate)?;
    let plan = Plan::make(alloc, &tops, least.as_slice(), scope)?;
    Ok(PlannedFiles { tops, plan })
}
