//! Nodes of tops, and the least alike tops, from labels.

ghost use Rattle.std.specs.Prelude.{◌≡◌, ◌-◌, ◌<◌, ◌≤◌, ◌^◌, All, length, IfOk};
ghost use Rattle.dwz_label_files.specs.LeastLaws.{GivesLeast, GivesNodes};
ghost use Rattle.dwz_nodes.specs.Graph.{IsClosed};

use dwz_gate::Gate;
use dwz_groups::Groups;
use dwz_label::{Labels, firsts, nodes};
use dwz_model::{NoMemory, Numbers};
use dwz_nodes::Nodes;
use dwz_rounds::refine;
use std::alloc::Global;
use std::thread::Threads;

/// One node for each top, in order: from the labels of tops, whether they may move, and the tops that their references go into.
pub(crate) fn nodes_of(
    alloc: Global,
    labels: &Labels,
    movable: &[bool],
    targets: &Groups,
) -> Result<Nodes, NoMemory>
    requires movable { length movable.now ≡ length labels.now }
    requires targets { length targets.now ≡ length labels.now }
    requires few { length labels.now < 2 ^ 32 - 1 }
    requires inside { All (λ ts. All (λ t. t < length targets.now) ts) targets.now }
    ensures nodes { IfOk result (λ nodes. GivesNodes labels.now movable.now targets.now nodes) }
    ensures closed { IfOk result (λ nodes. IsClosed nodes) }
{
    let firsts = firsts(alloc, labels, movable)?;
    nodes(alloc, firsts.as_slice(), movable, targets)
}

/// For each top that may move the least one that is alike to it, in whichever file, and for each other one its own number: from the
/// labels of tops, whether they may move, and the tops that their references go into. It is the same for every number of workers and
/// every gate.
pub fn least_alike<R: Threads + Sync, G: Gate>(
    rt: &R,
    alloc: Global,
    labels: &Labels,
    movable: &[bool],
    targets: &Groups,
    workers: u32,
    gate: &G,
) -> Result<Numbers, NoMemory>
    requires movable { length movable.now ≡ length labels.now }
    requires targets { length targets.now ≡ length labels.now }
    requires few { length labels.now < 2 ^ 32 - 1 }
    requires inside { All (λ ts. All (λ t. t < length targets.now) ts) targets.now }
    requires workers { (0 < workers) × (workers ≤ 64) }
    ensures { IfOk result (λ least. GivesLeast labels.now movable.now targets.now least) }
{
    let nodes = nodes_of(alloc, labels, movable, targets)?;
    let least = refine(rt, alloc, &nodes, workers, gate)?;
    Ok(least)
}
