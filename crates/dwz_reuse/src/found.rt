//! All that is found of files and of a finished common file.

ghost use Rattle.std.specs.Prelude.{◌≡◌, ◌<◌, ◌≤◌, ◌^◌, ℕ, IfOk, length};
ghost use Rattle.dwz_def_reading.specs.Documents.{Doc};
ghost use Rattle.dwz_def_taken.specs.Beside.{reused_of};
ghost use Rattle.dwz_def_tops.specs.Deciding.{AreMovable};
ghost use Rattle.dwz_def_tops.specs.Spots.{units_of};
ghost use Rattle.dwz_graph.specs.Files.{docs_of};
ghost use Rattle.dwz_reuse.specs.Operands.{HasOperandRows};
ghost use Rattle.dwz_reuse.specs.Beside.{IsReadBeside};
ghost use Rattle.dwz_reuse.specs.Matching.{IsMatching, ShowsMatching};

use crate::look_classes::all_classes;
use crate::rows::look_rows;
use crate::{kin, refers};
use dwz_gate::Gate;
use dwz_graph::{File, Graph};
use dwz_groups::Groups;
use dwz_model::{NoMemory, Numbers};
use dwz_move_files::tops_by;
use dwz_takes::Rows;
use std::alloc::Global;
use std::thread::Threads;

/// What is found of files and of a finished common file, before it is known what is taken.
#[derive(Drop)]
pub(crate) struct Matching {
    /// Of all units and of all partial units.
    pub rows: Rows,
    /// For each top of the files the first one of its file that is alike to it; those of the common file stand for themselves.
    pub kin: Numbers,
    /// For each top of the files those that it refers into.
    pub targets: Groups,
}

/// What is found of the files of a graph and of the finished common file beside them, where `movable` says which tops of the files may move.
/// It is the same for every number of workers and every gate.
pub(crate) fn match_rows<R: Threads + Sync, G: Gate>(
    rt: &R,
    alloc: Global,
    graph: &Graph,
    common: &File,
    movable: &[bool],
    workers: u32,
    gate: &G,
) -> Result<Matching, NoMemory>
    requires few { length graph.now.given < 2 ^ 32 }
    requires flags { AreMovable (units_of (docs_of graph.now.given)) movable.now }
    requires beside { (doc : Doc ℕ) × IsReadBeside graph.now.given common.now doc }
    requires operands { HasOperandRows common.now }
    requires workers { (0 < workers) × (workers ≤ 64) }
    ensures is { IfOk result IsMatching }
    ensures shows { (doc : Doc ℕ) → IsReadBeside graph.now.given common.now doc
        → IfOk result (ShowsMatching (reused_of (docs_of graph.now.given) doc)) }
{
    graph.files();
    graph.indexes();
    let tops = tops_by(rt, alloc, graph, workers)?;
    let classes = all_classes(rt, alloc, graph, common, &tops, movable, workers, gate)?;
    let count = classes.len();
    let kin = kin(rt, alloc, graph, &tops, movable, count, workers, gate)?;
    let targets = refers(alloc, graph, count)?;
    let rows = look_rows(alloc, graph, common, &tops, movable, classes)?;
    Ok(Matching { rows, kin, targets })
}
