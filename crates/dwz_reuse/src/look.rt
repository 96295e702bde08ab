//! The labels of all tops that looks across files go over.

ghost use Rattle.std.specs.Prelude.{◌≡◌, ◌≤◌, ◌<◌, ◌+◌, ◌^◌, ℕ, All, Bool, List, IfOk, length};
ghost use Rattle.dwz_def_reading.specs.Documents.{Doc};
ghost use Rattle.dwz_def_check.specs.CrossNames.{cross_tops};
ghost use Rattle.dwz_def_taken.specs.Laws.{ArePlacedOver};
ghost use Rattle.dwz_def_tops.specs.Spots.{units_of};
ghost use Rattle.dwz_check_labels.specs.Both.{Named};
ghost use Rattle.dwz_check_labels.specs.FilesSaid.{IsNamed};
ghost use Rattle.dwz_label.specs.Shown.{AreShown};
ghost use Rattle.dwz_match.specs.Bare.{ShowBare};
ghost use Rattle.dwz_reuse.specs.Read.{IsCommonRead};

use crate::{common_labels, look_labels};
use dwz_check_labels::CrossLabels;
use dwz_graph::File;
use dwz_groups::Groups;
use dwz_label::Labels;
use dwz_model::NoMemory;
use std::alloc::Global;

/// The labels and targets of all tops that looks across files go over: those of the files, and behind them those of a common file. Each
/// target is one of these tops.
pub(crate) fn all_labels(
    alloc: Global,
    labels: &Labels,
    targets: &Groups,
    common: &File,
) -> Result<CrossLabels, NoMemory>
    requires said { (doc : Doc ℕ) × IsCommonRead common.now doc }
    requires own { length targets.now ≡ length labels.now }
    requires inside { All (λ ts. All (λ t. t < length targets.now) ts) targets.now }
    requires few { length labels.now ≤ 2 ^ 29 }
    ensures many { IfOk result (λ all. length all.targets ≡ length all.labels) }
    ensures count { (doc : Doc ℕ) → IsCommonRead common.now doc
        → IfOk result (λ all. length all.labels ≡ length labels.now + length (cross_tops doc.units)) }
    ensures inside { IfOk result (λ all. All (λ ts. All (λ t. t < length all.targets) ts) all.targets) }
    ensures shows { (docs : List (Doc ℕ)) (doc : Doc ℕ) (n : Named) (movable : List Bool) → ArePlacedOver docs doc
        → IsCommonRead common.now doc → n.said ≡ doc.units → IsNamed (length labels.now) (λ p. p) n
        → AreShown (units_of docs) labels.now movable targets.now → IfOk result (λ all. ShowBare docs doc n.name all.labels all.targets) }
{
    let others = common_labels(alloc, common, labels.len() as u32)?;
    look_labels(alloc, labels, targets, &others)
}
