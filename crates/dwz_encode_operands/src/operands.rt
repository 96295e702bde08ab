//! New numbers of the operands of location lists (DWARF 5, 2.6.2).

ghost use Rattle.std.specs.Prelude.{◌≡◌, ℕ, ◌+◌, ◌<◌, ◌^◌, All, IfOk, List, length, slice_index};
ghost use Rattle.dwz_def_tops.specs.Spots.{EntryName};
ghost use Rattle.dwz_def_reading.specs.Documents.{Doc};
ghost use Rattle.dwz_def_plan.specs.Moves.{Move};
ghost use Rattle.dwz_layout_numbers.specs.Images.{IsFile, IsPlanned};
ghost use Rattle.dwz_def_encoding.specs.Writing.{base_place};
ghost use Rattle.dwz_encode_operands.specs.Operands.{AreNewNumbers, new_number_by};

use dwz_graph::{Index, ListOperand};
use dwz_layout_numbers::image;
use dwz_model::{Base, NoMemory};
use dwz_plan::Plan;
use std::alloc::Global;

/// The number at a place, and 0 behind the last one.
#[inline(always)]
pub(crate) fn at_or_zero(numbers: &[u64], i: u32) -> u64
    ensures { result ≡ slice_index numbers.now i }
{
    match numbers.get(i as usize) {
        Some(number) => *number,
        None => 0,
    }
}

// What a number is counted from, in a unit that begins there.
#[inline(always)]
fn base_of(base: Base, unit: u64) -> u64
    ensures { result ≡ base_place unit base }
{
    match base {
        Base::Unit => unit,
        Base::Info => 0,
    }
}

// The number of an operand, where the entry that stands for its own has that number among all.
#[inline(always)]
fn number_of(operand: &ListOperand, image: u32, places: &[u64], units_at: &[u64]) -> u64
    ensures { result ≡ new_number_by places.now units_at.now operand.now image }
{
    let unit = at_or_zero(units_at, operand.unit);
    at_or_zero(places, image).saturating_sub(base_of(operand.base, unit))
}

/// The new number of each operand of a file's location lists, in order: where what stands for its entry stands after, counted from the
/// operand's unit where that stands after, or from the first byte of `.debug_info`, as its operator counts.
///
/// The file's entries begin with the number `start`; `tops` has for each top the number of its entry. `places` says for each entry of
/// all files, by its number, where it stands after, if it stands for itself; `units_at` for each unit of the file where it begins after.
pub fn operand_numbers(
    alloc: Global,
    operands: &[ListOperand],
    index: &Index,
    plan: &Plan,
    tops: &[u32],
    start: u32,
    places: &[u64],
    units_at: &[u64],
) -> Result<Vec<u64>, NoMemory>
    requires there { All (λ o. o.entry < length index.now.steps) operands.now }
    requires few { start + length index.now.steps < 2 ^ 32 }
    requires plan { length plan.now.stand_ins ≡ length tops.now }
    ensures many { IfOk result (λ v. length v.items ≡ length operands.now) }
    ensures numbers { (docs : List (Doc ℕ)) (m : Move) (names : List EntryName) → IsPlanned docs m plan.now tops.now
        → IsFile docs names index.now start → IfOk result
        (λ v. AreNewNumbers docs m names places.now units_at.now operands.now v.items) }
{
    let mut numbers = Vec::with_capacity(alloc, operands.len())?;
    for operand in operands {
        let number = image(index, plan, tops, start, operand.entry);
        numbers.push(number_of(operand, number, places, units_at))?;
    }
    Ok(numbers)
}
