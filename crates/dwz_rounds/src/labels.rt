//! Where rounds begin: nodes with one label and as many targets are of one class.
//!
//! That is what a first round over one class for all nodes would find. Where labels are numbers of nodes, and nodes with one label have as
//! many targets, as whoever makes the nodes sees to, it takes no keys.
ghost use Rattle.std.specs.Prelude.{◌≡◌, ℕ, ◌<◌, All, IfOk, IfSome, IsTrue, length, slice_index};
ghost use Rattle.dwz_nodes.specs.Graph.{label_at, targets_at};
ghost use Rattle.dwz_rounds.specs.Rounds.{IsLevel};

use crate::finish::least_nodes;
use dwz_model::NoMemory;
use dwz_nodes::Nodes;
use std::alloc::Global;

// The label of each node; None where one isn't the number of a node.
fn labels_of(alloc: Global, nodes: &Nodes) -> Result<Option<Vec<u32>>, NoMemory>
    ensures len { IfOk result (λ found. IfSome found (λ labels. length labels.items ≡ length nodes.now)) }
    ensures below { IfOk result (λ found. IfSome found (λ labels. All (λ l. l < length nodes.now) labels.items)) }
    ensures each { IfOk result (λ found. IfSome found (λ labels. (a : ℕ) → a < length nodes.now
        → slice_index labels.items a ≡ label_at nodes.now a)) }
{
    let count = nodes.len();
    let mut labels = Vec::with_capacity(alloc, count as usize)?;
    for a in 0..count {
        let label = nodes.label(a);
        if label >= count {
            return Ok(None);
        }
        labels.push(label)?;
    }
    Ok(Some(labels))
}

// Whether each node has as many targets as its class.
fn have_as_many(nodes: &Nodes, classes: &[u32]) -> bool
    requires len { length classes.now ≡ length nodes.now }
    requires classes { All (λ c. c < length nodes.now) classes.now }
    ensures { IsTrue result → (a : ℕ) → a < length nodes.now
        → length (targets_at nodes.now a) ≡ length (targets_at nodes.now (slice_index classes.now a)) }
{
    for a in 0..nodes.len() {
        if nodes.targets(a).len() != nodes.targets(classes[a as usize]).len() {
            return false;
        }
    }
    true
}

/// The class of each node: the least node with its label, which has as many targets. None where a label isn't the number
/// of a node, or two nodes with one label don't have as many targets.
pub(crate) fn label_classes(alloc: Global, nodes: &Nodes) -> Result<Option<Vec<u32>>, NoMemory>
    ensures { IfOk result (λ found. IfSome found (λ classes. IsLevel nodes.now 1 classes.items)) }
{
    let Some(labels) = labels_of(alloc, nodes)? else {
        return Ok(None);
    };
    let _count = nodes.len();
    let classes = least_nodes(alloc, labels.as_slice())?;
    if have_as_many(nodes, classes.as_slice()) {
        Ok(Some(classes))
    } else {
        Ok(None)
    }
}
