//! The nodes of labels and targets.

ghost use Rattle.std.specs.Prelude.{◌≡◌, ◌-◌, ◌<◌, ◌^◌, length, IfOk};
ghost use Rattle.dwz_def_check.specs.CrossNodes.{AreAllFree};
ghost use Rattle.dwz_check.specs.Nodes.{AreNodesOf};

use dwz_check_labels::CrossLabels;
use dwz_label::{firsts, nodes};
use dwz_model::NoMemory;
use dwz_nodes::Nodes;
use std::alloc::Global;

// Each of so many is compared.
fn all_free(alloc: Global, count: usize) -> Result<Vec<bool>, NoMemory>
    ensures { IfOk result (λ free. AreAllFree count free.items) }
{
    let free = vec![in alloc; true; count]?;
    Ok(free)
}

/// A node for each label, in order: its label is the number of the first that is equal, and its targets are those beside it.
pub(crate) fn nodes_of(alloc: Global, labels: &CrossLabels) -> Result<Nodes, NoMemory>
    requires many { length labels.now.targets ≡ length labels.now.labels }
    requires few { length labels.now.labels < 2 ^ 32 - 1 }
    ensures { IfOk result (λ nodes. AreNodesOf labels.now.labels labels.now.targets nodes) }
{
    let free = all_free(alloc, labels.labels.len())?;
    let firsts = firsts(alloc, &labels.labels, &free)?;
    nodes(alloc, &firsts, &free, &labels.targets)
}
