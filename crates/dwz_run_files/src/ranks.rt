//! The ranks of files among those that are written, and the numbers of their units.
//!
//! The rank of a file is kept for each file that was read, so that its order and its first unit are looked up and not searched. They stand
//! one further, since the common file has the first order.

ghost use Rattle.std.specs.Prelude.{◌≡◌, ◌<◌, ◌^◌, length, IfOk};
ghost use Rattle.dwz_law_layout.specs.Beside.{Beside};
ghost use Rattle.dwz_law_layout.specs.Facts.{RunFacts, written as written_of};
ghost use Rattle.dwz_run_files.specs.Prepared.{AreRanks, firsts_from};

use dwz_layout::{FileItems, behind};
use dwz_model::NoMemory;
use std::alloc::Global;

/// For each file its rank among those that are written, the first of which has rank 0, or none where it isn't written.
pub fn ranks_of(alloc: Global, written: &[bool]) -> Result<Vec<Option<u32>>, NoMemory>
    requires { length written.now < 2 ^ 32 }
    ensures many { IfOk result (λ ranks. length ranks.items ≡ length written.now) }
    ensures ranks { (beside : Beside) (f : RunFacts beside) → written.now ≡ written_of f → IfOk result (λ ranks. AreRanks f ranks.items) }
{
    let mut ranks = Vec::with_capacity(alloc, written.len())?;
    let mut next = 0;
    for is_written in written {
        if *is_written {
            ranks.push(Some(next))?;
            next += 1;
        } else {
            ranks.push(None)?;
        }
    }
    Ok(ranks)
}

/// For each order the number of its first unit among all units that are written. Numbers that have no 32 bits count as memory that there
/// is not.
pub fn firsts_of(alloc: Global, orders: &[FileItems]) -> Result<Vec<u32>, NoMemory>
    ensures { IfOk result (λ firsts. firsts.items ≡ firsts_from 0 orders.now) }
{
    firsts_over(alloc, 0, orders)
}

/// The same over a common file that stands, whose units, so many, have the first numbers.
pub(crate) fn firsts_over(
    alloc: Global,
    commons: u32,
    orders: &[FileItems],
) -> Result<Vec<u32>, NoMemory>
    ensures { IfOk result (λ firsts. firsts.items ≡ firsts_from commons orders.now) }
{
    let mut firsts = Vec::with_capacity(alloc, orders.len())?;
    let mut first = commons;
    for order in orders {
        firsts.push(first)?;
        first = behind(first, order.len())?;
    }
    Ok(firsts)
}
