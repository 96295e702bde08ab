//! The tops of the partial units of a common file, by its index.

ghost use Rattle.std.specs.Prelude.{◌≡◌, ℕ, ◌+◌, ◌<◌, ◌^◌, IfOk, List, length, map};
ghost use Rattle.dwz_check_index.specs.Both.{from_top};
ghost use Rattle.dwz_check_index.specs.Index.{IsCrossIndex};
ghost use Rattle.dwz_def_reading.specs.Documents.{Doc};
ghost use Rattle.dwz_def_taken.specs.Beside.{own_tops, reused_of};
ghost use Rattle.dwz_match.specs.Partial.{ArePartial};
ghost use Rattle.dwz_match.specs.Parts.{HavePartTops};

use crate::parts::part_tops;
use dwz_check_index::{CrossIndex, UnitStart};
use dwz_groups::Groups;
use dwz_model::NoMemory;
use std::alloc::Global;

// Where the tops of each unit begin.
fn starts_of(alloc: Global, units: &[UnitStart]) -> Result<Vec<u32>, NoMemory>
    ensures { IfOk result (λ starts. starts.items ≡ map (λ unit. unit.top) units.now) }
{
    let mut starts = Vec::with_capacity(alloc, units.len())?;
    for unit in units {
        starts.push(unit.top)?;
    }
    Ok(starts)
}

/// For each partial unit of a common file its tops, by their numbers behind those of the files: where the index of the common
/// file begins with these.
pub fn common_tops(alloc: Global, index: &CrossIndex) -> Result<Groups, NoMemory>
    requires units { length index.now.units < 2 ^ 32 }
    requires tops { index.now.starts.top + length index.now.tops < 2 ^ 32 }
    ensures { (docs : List (Doc ℕ)) (common : Doc ℕ) → ArePartial common.units
        → IsCrossIndex (from_top (own_tops (reused_of docs common))) common.units index.now
        → IfOk result (HavePartTops (reused_of docs common)) }
{
    let starts = starts_of(alloc, index.units())?;
    let end = index.starts().top + index.tops().len() as u32;
    let tops = part_tops(alloc, starts.as_slice(), end)?;
    Ok(tops)
}
