//! The least alike of all tops that looks across files go over.

ghost use Rattle.std.specs.Prelude.{◌≡◌, ℕ, ◌-◌, ◌<◌, ◌≤◌, ◌^◌, All, List, IfOk, length};
ghost use Rattle.dwz_def_reading.specs.Documents.{Doc};
ghost use Rattle.dwz_def_check.specs.CrossNames.{CrossName};
ghost use Rattle.dwz_def_taken.specs.Beside.{look_units, reused_of};
ghost use Rattle.dwz_def_taken.specs.Laws.{ArePlacedOver};
ghost use Rattle.dwz_def_tops.specs.Deciding.{AreMovable};
ghost use Rattle.dwz_label.specs.Nodes.{AreLeast};
ghost use Rattle.dwz_match.specs.Bare.{AreCommonNames, ShowBare};
ghost use Rattle.dwz_match.specs.Partial.{ArePartial};

use dwz_check_labels::CrossLabels;
use dwz_gate::Gate;
use dwz_label_files::least_alike;
use dwz_model::{NoMemory, Numbers};
use std::alloc::Global;
use std::thread::Threads;

/// For each top of files and of a common file the least one that is alike to it, whatever their languages, and for each one that may not
/// move its own number: from the labels and targets of all, and whether they may move. It is the same for every number of workers and
/// every gate.
pub fn classes<R: Threads + Sync, G: Gate>(
    rt: &R,
    alloc: Global,
    all: &CrossLabels,
    movable: &[bool],
    workers: u32,
    gate: &G,
) -> Result<Numbers, NoMemory>
    requires movable { length movable.now ≡ length all.now.labels }
    requires targets { length all.now.targets ≡ length all.now.labels }
    requires few { length all.now.labels < 2 ^ 32 - 1 }
    requires inside { All (λ ts. All (λ t. t < length all.now.targets) ts) all.now.targets }
    requires workers { (0 < workers) × (workers ≤ 64) }
    ensures { (docs : List (Doc ℕ)) (common : Doc ℕ) (name : ℕ → CrossName) → ArePlacedOver docs common → ArePartial common.units
        → AreCommonNames docs common name → AreMovable (look_units (reused_of docs common)) movable.now
        → ShowBare docs common name all.now.labels all.now.targets → IfOk result (AreLeast (look_units (reused_of docs common))) }
{
    least_alike(rt, alloc, &all.labels, movable, &all.targets, workers, gate)
}
