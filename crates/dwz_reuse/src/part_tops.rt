//! The tops of the partial units of a finished common file.

ghost use Rattle.std.specs.Prelude.{◌≡◌, ◌≤◌, ◌^◌, ℕ, List, IfOk};
ghost use Rattle.dwz_def_reading.specs.Documents.{Doc};
ghost use Rattle.dwz_def_taken.specs.Beside.{own_tops, reused_of};
ghost use Rattle.dwz_match.specs.Parts.{HavePartTops};
ghost use Rattle.dwz_reuse.specs.Read.{IsCommonRead};

use dwz_check_index::{CrossIndex, CrossStarts};
use dwz_graph::File;
use dwz_groups::Groups;
use dwz_match::common_tops;
use dwz_model::NoMemory;
use std::alloc::Global;

/// For each partial unit of a common file its tops, by their numbers behind those of the files, of which there are so many.
pub(crate) fn tops_of_parts(alloc: Global, common: &File, first: u32) -> Result<Groups, NoMemory>
    requires said { (doc : Doc ℕ) × IsCommonRead common.now doc }
    requires few { first ≤ 2 ^ 31 }
    ensures { (docs : List (Doc ℕ)) (doc : Doc ℕ) → IsCommonRead common.now doc → own_tops (reused_of docs doc) ≡ first
        → IfOk result (HavePartTops (reused_of docs doc)) }
{
    let index = CrossIndex::read(
        alloc,
        &common.units,
        &CrossStarts {
            top: first,
            lone: 0,
        },
    )?;
    common_tops(alloc, &index)
}
