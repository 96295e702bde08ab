//! The plan of files over a common file that stands.

ghost use Rattle.std.specs.Prelude.{◌≡◌, ◌<◌, ◌≤◌, ◌^◌, ℕ, length, IfOk};
ghost use Rattle.dwz_def_reading.specs.Documents.{Doc};
ghost use Rattle.dwz_graph.specs.Files.{docs_of};
ghost use Rattle.dwz_layout_input.specs.PlannedOver.{ArePlannedOver, IsTakenFrom};

use crate::behind::{least_beside, tops_beside};
use crate::planned::{PlannedFiles, movable_of, tops_of};
use dwz_check_index::CrossIndex;
use dwz_def_taken::Fixed;
use dwz_gate::Gate;
use dwz_graph::{File, Graph};
use dwz_label_files::least;
use dwz_model::NoMemory;
use dwz_plan::Plan;
use std::alloc::Global;
use std::thread::Threads;

/// Which tops of files move over a common file that stands, from which `fixed` says what is taken: what is taken stands there, and of what is
/// left those tops move whose groups gain, each file by itself. The tops of the common file, as its index has them, come behind those of the
/// files, and its units behind theirs. It is the same for every number of workers and every gate.
pub fn plan_over<R: Threads + Sync, G: Gate>(
    rt: &R,
    alloc: Global,
    graph: &Graph,
    common: &File,
    index: &CrossIndex,
    fixed: &Fixed,
    workers: u32,
    gate: &G,
) -> Result<PlannedFiles, NoMemory>
    requires few { length graph.now.given < 2 ^ 32 }
    requires workers { (0 < workers) × (workers ≤ 64) }
    requires taken { (doc : Doc ℕ) × IsTakenFrom (docs_of graph.now.given) common.now index.now fixed.now doc }
    ensures { (doc : Doc ℕ) → IsTakenFrom (docs_of graph.now.given) common.now index.now fixed.now doc
        → IfOk result (ArePlannedOver (docs_of graph.now.given) doc fixed.now) }
{
    let own = tops_of(rt, alloc, graph, workers)?;
    let movable = movable_of(alloc, &own)?;
    let flags = movable.as_slice();
    let found = least(rt, alloc, graph, &own, flags, workers, gate)?;
    let tops = tops_beside(alloc, own, common, index)?;
    let all = least_beside(found.into_vec(), tops.rows.len())?;
    let plan = Plan::with_common(alloc, &tops, all.as_slice(), fixed)?;
    Ok(PlannedFiles { tops, plan })
}
