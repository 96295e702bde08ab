//! The nodes that a round looks at: those of a class with others, of which one has a target whose class isn't that before.
//!
//! No other node can get another class. One that is alone stays so. And nodes of one class had the same classes of targets before: where
//! these are still the same, they have one key again. So only nodes whose class had others are gone over, a list that gets shorter.
ghost use Rattle.std.specs.Prelude.{◌≡◌, ℕ, ◌<◌, ◌≤◌, ◌^◌, All, IfOk, IsTrue, OnOk, length, slice_index};
ghost use Rattle.dwz_nodes.specs.Graph.{IsClosed};
ghost use Rattle.dwz_nodes.specs.Keys.{all_keys};
ghost use Rattle.dwz_rounds.specs.Open.{AreOfMarked, AreSteady, HasShared, MarksChanged, MarksMoved, MarksShared};
ghost use Rattle.dwz_rounds.specs.Rounds.{IsLevel, IsRound};
ghost use Rattle.dwz_rounds.specs.Settling.{IsPartly};

use dwz_model::NoMemory;
use dwz_nodes::Nodes;
use std::alloc::Global;

// Marks the classes of those of these nodes that aren't the least of their class.
fn mark_shared(classes: &[u32], live: &[u32], shared: &mut [bool])
    requires classes { All (λ c. c < length shared.old) classes.now }
    requires live { All (λ a. a < length classes.now) live.now }
    ensures len { length shared.new ≡ length shared.old }
    ensures marked { MarksShared classes.now live.now (length live.now) shared.new }
{
    for a in live {
        let class = classes[*a as usize];
        if class != *a {
            shared[class as usize] = true;
        }
    }
}

// Marks those of these nodes whose class isn't that before.
fn mark_moved(before: &[u32], classes: &[u32], live: &[u32], moved: &mut [bool])
    requires len { (length before.now ≡ length classes.now) × (length moved.old ≡ length classes.now) }
    requires live { All (λ a. a < length classes.now) live.now }
    ensures len { length moved.new ≡ length moved.old }
    ensures marked { MarksMoved before.now classes.now live.now (length live.now) moved.new }
{
    for a in live {
        let a = *a as usize;
        if before[a] != classes[a] {
            moved[a] = true;
        }
    }
}

// Whether none of these is marked.
fn are_kept(moved: &[bool], targets: &[u32]) -> bool
    requires { All (λ t. t < length moved.now) targets.now }
    ensures { IsTrue result → AreSteady moved.now targets.now }
{
    for target in targets {
        if moved[*target as usize] {
            return false;
        }
    }
    true
}

// Marks the classes of those of these nodes that have a target that is marked.
fn mark_changed(nodes: &Nodes, moved: &[bool], classes: &[u32], live: &[u32], changed: &mut [bool])
    requires closed { IsClosed nodes.now }
    requires len { (length moved.now ≡ length nodes.now) × (length classes.now ≡ length nodes.now) × (length changed.old ≡ length nodes.now) }
    requires classes { All (λ c. c < length nodes.now) classes.now }
    requires live { All (λ a. a < length nodes.now) live.now }
    ensures len { length changed.new ≡ length changed.old }
    ensures marked { MarksChanged nodes.now moved.now classes.now live.now (length live.now) changed.new }
{
    for a in live {
        let class = classes[*a as usize] as usize;
        if !changed[class] && !are_kept(moved, nodes.targets(*a)) {
            changed[class] = true;
        }
    }
}

// Those of these nodes whose class is marked.
fn of_marked(
    alloc: Global,
    classes: &[u32],
    live: &[u32],
    marks: &[bool],
) -> Result<Vec<u32>, NoMemory>
    requires classes { All (λ c. c < length marks.now) classes.now }
    requires live { All (λ a. a < length classes.now) live.now }
    ensures { IfOk result (λ kept. AreOfMarked classes.now marks.now live.now (length live.now) kept.items) }
{
    let mut kept = Vec::with_capacity(alloc, live.len())?;
    for a in live {
        if marks[classes[*a as usize] as usize] {
            kept.push(*a)?;
        }
    }
    Ok(kept)
}

/// The nodes whose class a round may change, where the classes are those of a round, after those before it. The list that is lent has all
/// nodes whose class had others before, and after the call all whose class has others still.
pub(crate) fn open_nodes(
    alloc: Global,
    nodes: &Nodes,
    before: &[u32],
    classes: &[u32],
    live: &mut Vec<u32>,
) -> Result<Vec<u32>, NoMemory>
    requires closed { IsClosed nodes.now }
    requires level { (k : ℕ) × IsLevel nodes.now k before.now }
    requires round { IsRound nodes.now before.now classes.now }
    requires live { HasShared before.now live.old.items }
    ensures partly { IfOk result (λ listed. IsPartly (all_keys nodes.now classes.now) classes.now listed.items) }
    ensures few { IfOk result (λ listed. length listed.items ≤ length nodes.now) }
    ensures live { OnOk result (HasShared classes.now live.new.items) }
{
    let count = nodes.len() as usize;
    let mut shared = vec![in alloc; false; count]?;
    mark_shared(classes, live.as_slice(), shared.as_mut_slice());
    let mut moved = vec![in alloc; false; count]?;
    mark_moved(before, classes, live.as_slice(), moved.as_mut_slice());
    let kept = of_marked(alloc, classes, live.as_slice(), shared.as_slice())?;
    let mut changed = vec![in alloc; false; count]?;
    mark_changed(
        nodes,
        moved.as_slice(),
        classes,
        kept.as_slice(),
        changed.as_mut_slice(),
    );
    let listed = of_marked(alloc, classes, kept.as_slice(), changed.as_slice())?;
    *live = kept;
    Ok(listed)
}
