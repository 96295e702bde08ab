//! The nodes of tops.
//!
//! The path of a target is in the label of the top, and the top that it is in among the node's targets. With a number of the target in
//! place of its path, only the limits of looks would agree.

ghost use Rattle.std.specs.Prelude.{◌≡◌, ◌-◌, ◌<◌, ◌^◌, [], length, slice_index_or, if◌then◌else◌, IfOk};
ghost use Rattle.dwz_label.specs.Shown.{AreMadeOf};

use dwz_groups::Groups;
use dwz_model::NoMemory;
use dwz_nodes::Nodes;
use std::alloc::Global;

// The targets of a top that may move; none of another one.
#[inline(always)]
fn targets_of(targets: &Groups, free: bool, n: usize) -> &[u32]
    requires { n < length targets.now }
    ensures { result.now ≡ (if free then slice_index_or targets.now n [] else []) }
{
    if free { targets.get(n) } else { &[] }
}

/// One node for each top, in order: its label is the number beside it in `firsts`; its targets are the top's if it may move, and
/// else none.
pub fn nodes(
    alloc: Global,
    firsts: &[u32],
    movable: &[bool],
    targets: &Groups,
) -> Result<Nodes, NoMemory>
    requires movable { length movable.now ≡ length firsts.now }
    requires targets { length targets.now ≡ length firsts.now }
    requires few { length firsts.now < 2 ^ 32 - 1 }
    ensures { IfOk result (λ nodes. AreMadeOf firsts.now movable.now targets.now nodes) }
{
    let mut nodes = Nodes::with_capacity(alloc, firsts.len(), targets.items().len())?;
    for (n, first) in firsts.iter().enumerate() {
        nodes.push(*first, targets_of(targets, movable[n], n))?;
    }
    Ok(nodes)
}
