//! Which tops have to stay in their units: of their kin, which are alike in one file, or of those of what they refer to, only some are
//! taken.

ghost use Rattle.std.specs.Prelude.{◌≡◌, ℕ, ◌<◌, ◌&&◌, IfOk, false, length, slice_index_or};
ghost use Rattle.dwz_model.specs.Lists.{In};
ghost use Rattle.dwz_takes.specs.Blocked.{AreBlocked, AreKin, AreKinMarks, AreSplit};

use crate::lists::turn;
use dwz_groups::{Groups, spread};
use dwz_model::{Flags, NoMemory};
use std::alloc::Global;

// Which numbers of kin have a top that is taken, or one that isn't.
fn kin_marks(
    alloc: Global,
    kin: &[u32],
    images: &[Option<u32>],
    taken: bool,
) -> Result<Vec<bool>, NoMemory>
    requires kin { (k : ℕ) → In k kin.now → k < length kin.now }
    requires images { length images.now ≡ length kin.now }
    ensures { IfOk result (λ flags. AreKinMarks kin.now images.now (length kin.now) taken flags.items) }
{
    let mut flags = vec![in alloc; false; kin.len()]?;
    for (top, number) in kin.iter().enumerate() {
        if images[top].is_some() == taken {
            flags[*number as usize] = true;
        }
    }
    Ok(flags)
}

fn is_in_both(some: &[bool], others: &[bool], number: usize) -> bool
    requires some { number < length some.now }
    requires others { number < length others.now }
    ensures { result ≡ (slice_index_or some.now number false && slice_index_or others.now number false) }
{
    some[number] && others[number]
}

// Which tops have kin that are taken, and kin that aren't.
fn split(alloc: Global, kin: &[u32], images: &[Option<u32>]) -> Result<Vec<bool>, NoMemory>
    requires kin { (k : ℕ) → In k kin.now → k < length kin.now }
    requires images { length images.now ≡ length kin.now }
    ensures { IfOk result (λ split. AreSplit kin.now images.now split.items) }
{
    let some = kin_marks(alloc, kin, images, true)?;
    let others = kin_marks(alloc, kin, images, false)?;
    let mut split = Vec::with_capacity(alloc, kin.len())?;
    for number in kin {
        split.push(is_in_both(some.as_slice(), others.as_slice(), *number as usize))?;
    }
    Ok(split)
}

/// For each top whether it has to stay. Of each are given a number that just its kin have, which are alike in one file; its image, if it is
/// taken; and the tops that it refers into.
pub fn blocked(
    alloc: Global,
    kin: &[u32],
    images: &[Option<u32>],
    targets: &Groups,
) -> Result<Flags, NoMemory>
    requires { AreKin kin.now images.now targets.now }
    ensures { IfOk result (λ blocked. AreBlocked kin.now images.now targets.now blocked) }
{
    let split = split(alloc, kin, images)?;
    let sources = turn(alloc, kin.len(), targets)?;
    let marks = spread(alloc, &sources, split.as_slice())?;
    Ok(Flags::new(marks))
}
