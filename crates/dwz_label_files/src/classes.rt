//! The nodes of the tops of all files, and the least alike ones.

ghost use Rattle.std.specs.Prelude.{◌≡◌, ◌<◌, ◌≤◌, ◌^◌, All, length, IfOk};
ghost use Rattle.dwz_def_tops.specs.Deciding.{AreMovable};
ghost use Rattle.dwz_def_tops.specs.Spots.{tops_of, units_of};
ghost use Rattle.dwz_label_files.specs.Shown.{ShowTargets};
ghost use Rattle.dwz_graph.specs.Files.{docs_of};
ghost use Rattle.dwz_label.specs.Nodes.{AreLeast, AreTopNodes};

use crate::least_alike;
use crate::least_tops::nodes_of;
use crate::marked::marked_labels;
use dwz_gate::Gate;
use dwz_graph::Graph;
use dwz_groups::Tops;
use dwz_model::{NoMemory, Numbers};
use dwz_move_files::tops_by;
use dwz_nodes::Nodes;
use std::alloc::Global;
use std::thread::Threads;

/// One node for each top of all files, in order, where `movable` says of each whether it may move: the label of the node of a top that may
/// is the number of the least one that may and has an equal label, and its targets are the tops that its references go into, one for each,
/// in order; the label of the node of another top is its own number, and it has no targets. It is the same for every number of workers.
pub fn nodes<R: Threads + Sync>(
    rt: &R,
    alloc: Global,
    graph: &Graph,
    movable: &[bool],
    workers: u32,
) -> Result<Nodes, NoMemory>
    requires few { length graph.now.given < 2 ^ 32 }
    requires movable { length movable.now ≡ length (tops_of (units_of (docs_of graph.now.given))) }
    requires workers { (0 < workers) × (workers ≤ 64) }
    ensures { AreMovable (units_of (docs_of graph.now.given)) movable.now
        → IfOk result (λ nodes. AreTopNodes (units_of (docs_of graph.now.given)) nodes) }
{
    let tops = tops_by(rt, alloc, graph, workers)?;
    let labels = marked_labels(rt, alloc, graph, movable, workers)?;
    nodes_of(alloc, &labels, movable, &tops.targets)
}

/// For each top of all files that may move the least one that is alike to it, in whichever file, and for each other one its own number:
/// where `movable` says of each top whether it may move, and `tops` the targets of those that may. It is the same for every number of
/// workers and every gate.
pub fn least<R: Threads + Sync, G: Gate>(
    rt: &R,
    alloc: Global,
    graph: &Graph,
    tops: &Tops,
    movable: &[bool],
    workers: u32,
    gate: &G,
) -> Result<Numbers, NoMemory>
    requires movable { length movable.now ≡ length (tops_of (units_of (docs_of graph.now.given))) }
    requires targets { length tops.now.targets ≡ length (tops_of (units_of (docs_of graph.now.given))) }
    requires inside { All (λ ts. All (λ t. t < length tops.now.targets) ts) tops.now.targets }
    requires workers { (0 < workers) × (workers ≤ 64) }
    ensures { ShowTargets (units_of (docs_of graph.now.given)) movable.now tops.now.targets
        → IfOk result (λ least. AreLeast (units_of (docs_of graph.now.given)) least) }
{
    let labels = marked_labels(rt, alloc, graph, movable, workers)?;
    least_alike(rt, alloc, &labels, movable, &tops.targets, workers, gate)
}
