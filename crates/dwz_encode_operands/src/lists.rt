//! Location lists whose operands name what stands elsewhere (DWARF 5, 2.6.2 and 7.7.3).

ghost use Rattle.std.specs.Prelude.{◌≡◌, ℕ, ◌+◌, ◌<◌, ◌^◌, All, IfOk, List, length};
ghost use Rattle.dwz_def_tops.specs.Spots.{EntryName};
ghost use Rattle.dwz_def_reading.specs.Documents.{Doc};
ghost use Rattle.dwz_def_plan.specs.Moves.{Move};
ghost use Rattle.dwz_layout_numbers.specs.Images.{IsFile, IsPlanned};
ghost use Rattle.dwz_encode_sections.specs.Numbers.{EndIn};
ghost use Rattle.dwz_encode_operands.specs.Operands.{HasNewNumbers};

use crate::operands::operand_numbers;
use dwz_encode_sections::lists;
use dwz_graph::{Index, ListOperand};
use dwz_model::NoMemory;
use dwz_plan::Plan;
use std::alloc::Global;

/// `.debug_loclists` of a file with the new numbers of its operands, as `operand_numbers` has them; all other bytes are as they were.
pub fn lists_section(
    alloc: Global,
    section: &[u8],
    operands: &[ListOperand],
    index: &Index,
    plan: &Plan,
    tops: &[u32],
    start: u32,
    places: &[u64],
    units_at: &[u64],
) -> Result<Vec<u8>, NoMemory>
    requires within { EndIn (length section.now) operands.now }
    requires there { All (λ o. o.entry < length index.now.steps) operands.now }
    requires few { start + length index.now.steps < 2 ^ 32 }
    requires plan { length plan.now.stand_ins ≡ length tops.now }
    ensures { (docs : List (Doc ℕ)) (m : Move) (names : List EntryName) → IsPlanned docs m plan.now tops.now
        → IsFile docs names index.now start → IfOk result
        (λ out. HasNewNumbers docs m names places.now units_at.now operands.now section.now out.items) }
{
    let numbers = operand_numbers(alloc, operands, index, plan, tops, start, places, units_at)?;
    lists(alloc, section, operands, numbers.as_slice())
}
