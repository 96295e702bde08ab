//! The labels of the tops of a finished common file, and the tops that they lead into.

ghost use Rattle.std.specs.Prelude.{◌≡◌, ℕ, ◌+◌, ◌<◌, ◌≤◌, ◌^◌, All, List, IfOk, length};
ghost use Rattle.dwz_def_reading.specs.Documents.{Doc};
ghost use Rattle.dwz_def_check.specs.CrossNames.{cross_tops};
ghost use Rattle.dwz_check_labels.specs.Both.{Named};
ghost use Rattle.dwz_check_labels.specs.FilesSaid.{IsNamed};
ghost use Rattle.dwz_reuse.specs.Joined.{AreCommonLists};
ghost use Rattle.dwz_reuse.specs.Read.{IsCommonRead};

use dwz_check_index::{CrossIndex, CrossStarts};
use dwz_check_labels::{CrossLabels, labels_by_itself};
use dwz_graph::File;
use dwz_model::NoMemory;
use std::alloc::Global;

/// The labels of the tops of a common file, and the tops that each leads into, where the first has that number among those of all files:
/// each of these is one of the common file's, or has a lower number.
pub fn common_labels(alloc: Global, common: &File, first: u32) -> Result<CrossLabels, NoMemory>
    requires said { (doc : Doc ℕ) × IsCommonRead common.now doc }
    requires few { first ≤ 2 ^ 31 }
    ensures many { IfOk result (λ x. length x.targets ≡ length x.labels) }
    ensures count { (doc : Doc ℕ) → IsCommonRead common.now doc → IfOk result (λ x. length x.labels ≡ length (cross_tops doc.units)) }
    ensures lists { (doc : Doc ℕ) (n : Named) → IsCommonRead common.now doc → n.said ≡ doc.units → IsNamed first (λ p. p) n
        → IfOk result (λ x. AreCommonLists doc n.name x.labels x.targets) }
    ensures inside { IfOk result (λ x. All (λ ts. All (λ t. t < first + length x.targets) ts) x.targets) }
{
    let index = CrossIndex::read(
        alloc,
        &common.units,
        &CrossStarts {
            top: first,
            lone: 0,
        },
    )?;
    labels_by_itself(alloc, common, &index)
}
