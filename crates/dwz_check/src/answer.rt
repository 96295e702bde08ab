//! Whether two files mean the same.

ghost use Rattle.std.specs.Prelude.{◌≡◌, ◌<◌, ◌≤◌, length, IfOk};
ghost use Rattle.dwz_def_check.specs.Answer.{IsSameOf};
ghost use Rattle.dwz_graph.specs.Files.{said_finished};

use crate::indexes::indexes_of;
use crate::nodes::nodes_of;
use dwz_check_columns::columns_of;
use dwz_check_labels::labels_of;
use dwz_check_rows::compare;
use dwz_def_check::Same;
use dwz_gate::Gate;
use dwz_graph::{Graph, placed_laws};
use dwz_model::NoMemory;
use dwz_rounds::refine;
use std::alloc::Global;
use std::thread::Threads;

/// Whether the two files of a graph mean the same, imports expanded: the old file comes first. They were read by `read_back`, with the
/// common file that they import from, or without one. It is the same for every number of workers and every gate.
pub fn check<R: Threads + Sync, G: Gate>(
    rt: &R,
    alloc: Global,
    graph: &Graph,
    workers: u32,
    gate: &G,
) -> Result<Same, NoMemory>
    requires two { length graph.now.back ≡ 2 }
    requires workers { (0 < workers) × (workers ≤ 64) }
    ensures { IfOk result (IsSameOf (said_finished graph.now)) }
{
    placed_laws();
    let files = graph.back();
    let shared = graph.common();
    let indexes = indexes_of(alloc, graph)?;
    let labels = labels_of(alloc, graph, &indexes)?;
    let nodes = nodes_of(alloc, &labels)?;
    let classes = refine(rt, alloc, &nodes, workers, gate)?;
    let columns = columns_of(alloc, &files[0], &files[1], shared, &indexes)?;
    compare(alloc, classes.as_slice(), &columns)
}
