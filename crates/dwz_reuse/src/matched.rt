//! What is taken from the finished common file of a graph.

ghost use Rattle.std.specs.Prelude.{◌≡◌, ◌<◌, ◌≤◌, ◌^◌, [], ℕ, List, Ok, Some, IfOk, length, unwrap_or};
ghost use Rattle.dwz_def_reading.specs.Finished.{BesideDocs, beside_meaning};
ghost use Rattle.dwz_def_taken.specs.Takes.{IsFixedOf};
ghost use Rattle.dwz_def_tops.specs.Deciding.{AreMovable};
ghost use Rattle.dwz_def_tops.specs.Spots.{units_of};
ghost use Rattle.dwz_graph.specs.Files.{docs_of};

use crate::beside::fixed_beside;
use crate::laws::operand_laws;
use crate::{common_laws, read_laws};
use dwz_def_taken::Fixed;
use dwz_gate::Gate;
use dwz_graph::{Graph, placed_laws};
use dwz_model::NoMemory;
use std::alloc::Global;
use std::thread::Threads;

/// What the units of the files of a graph take from its finished common file, as which tops of it theirs are taken, and which tops have to
/// stay: where `movable` says of each top of the files whether it may move (`movable` of `dwz_move_files`). It is the same for every number
/// of workers and every gate.
pub fn match_common<R: Threads + Sync, G: Gate>(
    rt: &R,
    alloc: Global,
    graph: &Graph,
    movable: &[bool],
    workers: u32,
    gate: &G,
) -> Result<Fixed, NoMemory>
    requires few { length graph.now.given < 2 ^ 32 }
    requires common { (bytes : List ℕ) × (graph.now.common ≡ Some bytes) }
    requires movable { AreMovable (units_of (docs_of graph.now.given)) movable.now }
    requires workers { (0 < workers) × (workers ≤ 64) }
    ensures { (said : BesideDocs) → beside_meaning (unwrap_or graph.now.common []) graph.now.given ≡ Ok said → IfOk result (IsFixedOf said) }
{
    placed_laws();
    read_laws();
    common_laws();
    operand_laws();
    graph.files();
    match graph.common() {
        Some(common) => fixed_beside(rt, alloc, graph, common, movable, workers, gate),
        None => unreachable!(),
    }
}
