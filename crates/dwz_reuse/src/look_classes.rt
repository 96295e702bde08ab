//! The classes of all tops that looks across files go over.

ghost use Rattle.std.specs.Prelude.{◌≡◌, ◌<◌, ◌≤◌, ◌++◌, ℕ, IfOk};
ghost use Rattle.dwz_def_reading.specs.Documents.{Doc};
ghost use Rattle.dwz_def_taken.specs.Beside.{look_units, reused_of};
ghost use Rattle.dwz_def_tops.specs.Deciding.{AreMovable};
ghost use Rattle.dwz_def_tops.specs.Spots.{units_of};
ghost use Rattle.dwz_graph.specs.Files.{docs_of};
ghost use Rattle.dwz_label.specs.Nodes.{AreLeast};
ghost use Rattle.dwz_reuse.specs.Operands.{HasOperandRows};
ghost use Rattle.dwz_reuse.specs.Beside.{IsReadBeside};
ghost use Rattle.dwz_move_files.specs.Outlines.{AreTops};

use crate::classes;
use crate::flags::common_flags;
use crate::look::all_labels;
use dwz_gate::Gate;
use dwz_graph::{File, Graph};
use dwz_groups::Tops;
use dwz_label_files::labels;
use dwz_model::{NoMemory, Numbers};
use std::alloc::Global;
use std::thread::Threads;

// Flags, and others behind them.
fn joined_flags(alloc: Global, own: &[bool], others: &[bool]) -> Result<Vec<bool>, NoMemory>
    ensures { IfOk result (λ flags. flags.items ≡ own.now ++ others.now) }
{
    let mut flags = Vec::from_slice(alloc, own)?;
    flags.extend_from_slice(others)?;
    Ok(flags)
}

/// For each top of the files of a graph and of a finished common file the least one that is alike to it, whatever their languages, and for
/// each one that may not move its own number: where `movable` says which tops of the files may move. It is the same for every number of
/// workers and every gate.
pub(crate) fn all_classes<R: Threads + Sync, G: Gate>(
    rt: &R,
    alloc: Global,
    graph: &Graph,
    common: &File,
    tops: &Tops,
    movable: &[bool],
    workers: u32,
    gate: &G,
) -> Result<Numbers, NoMemory>
    requires tops { AreTops (docs_of graph.now.given) tops.now }
    requires flags { AreMovable (units_of (docs_of graph.now.given)) movable.now }
    requires beside { (doc : Doc ℕ) × IsReadBeside graph.now.given common.now doc }
    requires operands { HasOperandRows common.now }
    requires workers { (0 < workers) × (workers ≤ 64) }
    ensures { (doc : Doc ℕ) → IsReadBeside graph.now.given common.now doc
        → IfOk result (AreLeast (look_units (reused_of (docs_of graph.now.given) doc))) }
{
    let labels = labels(rt, alloc, graph, movable, workers)?;
    let all = all_labels(alloc, &labels, &tops.targets, common)?;
    let others = common_flags(alloc, common, &all.targets, labels.len() as u32)?;
    let flags = joined_flags(alloc, movable, others.as_slice())?;
    classes(rt, alloc, &all, flags.as_slice(), workers, gate)
}
