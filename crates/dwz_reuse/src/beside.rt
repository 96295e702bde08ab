//! What is taken from a common file beside the files of a graph.

ghost use Rattle.std.specs.Prelude.{◌≡◌, ◌<◌, ◌≤◌, ◌^◌, ℕ, List, Ok, IfOk, length, map};
ghost use Rattle.dwz_def_reading.specs.Documents.{Doc, DwUnit};
ghost use Rattle.dwz_def_reading.specs.Meanings.{Around};
ghost use Rattle.dwz_def_reading.specs.Meant.{units_meaning};
ghost use Rattle.dwz_def_reading.specs.Places.{Place};
ghost use Rattle.dwz_def_taken.specs.Beside.{reused_of};
ghost use Rattle.dwz_def_taken.specs.Takes.{IsFixed};
ghost use Rattle.dwz_def_tops.specs.Deciding.{AreMovable};
ghost use Rattle.dwz_def_tops.specs.Spots.{units_of};
ghost use Rattle.dwz_graph.specs.Files.{docs_of};
ghost use Rattle.dwz_reuse.specs.Operands.{HasOperandRows};
ghost use Rattle.dwz_reuse.specs.Beside.{IsReadBeside};
ghost use Rattle.dwz_unit.specs.Rows.{units_of as raw_units};

use crate::found::match_rows;
use dwz_def_taken::Fixed;
use dwz_gate::Gate;
use dwz_graph::{File, Graph};
use dwz_match::{fixed, roots};
use dwz_model::NoMemory;
use std::alloc::Global;
use std::thread::Threads;

/// What the units of a graph take from a finished common file that was read beside its files, where `movable` says which tops may move.
pub(crate) fn fixed_beside<R: Threads + Sync, G: Gate>(
    rt: &R,
    alloc: Global,
    graph: &Graph,
    common: &File,
    movable: &[bool],
    workers: u32,
    gate: &G,
) -> Result<Fixed, NoMemory>
    requires few { length graph.now.given < 2 ^ 32 }
    requires flags { AreMovable (units_of (docs_of graph.now.given)) movable.now }
    requires beside { (doc : Doc ℕ) × IsReadBeside graph.now.given common.now doc }
    requires operands { HasOperandRows common.now }
    requires workers { (0 < workers) × (workers ≤ 64) }
    ensures roots { (around : Around Place) (said : List (DwUnit Place)) → ((n : ℕ) → (around.place n).at ≡ n)
        → units_meaning around (raw_units common.now.units) ≡ Ok said → IfOk result (λ fixed. fixed.roots ≡ map (λ u. u.root.at.at) said) }
    ensures lists { (doc : Doc ℕ) → IsReadBeside graph.now.given common.now doc
        → IfOk result (IsFixed (reused_of (docs_of graph.now.given) doc)) }
{
    let roots = roots(alloc, &common.units)?;
    let found = match_rows(rt, alloc, graph, common, movable, workers, gate)?;
    let kin = found.kin.as_slice();
    fixed(alloc, roots, &found.rows, kin, &found.targets)
}
