//! Which operands of lists have new numbers.

ghost use Rattle.std.specs.Prelude.{◌≡◌, ◌++◌, ◌∷◌, ◌<◌, ◌≤◌, [], ℕ, IfOk, IfSome, List, Some, length, slice_get};
ghost use Rattle.std.specs.List.Sorted.{IsNonDecreasingBy, IsPartitionPoint};
ghost use Rattle.dwz_def_expand.specs.OneFile.{OneFile, ReadsOne};
ghost use Rattle.dwz_def_reading.specs.declared.exprs.Operand.{Operand};
ghost use Rattle.dwz_graph.specs.ListOperand.{ListOperand};
ghost use Rattle.dwz_expand_sections.specs.ListLaws.{AreListed};
ghost use Rattle.dwz_expand_sections.specs.NumberLaws.{GivesNumbers};
ghost use Rattle.dwz_expand.specs.Rows.{AreNumbered, Rise};
ghost use Rattle.dwz_expand.specs.Listed.{AreTold};

use dwz_def_reading::Operand;
use dwz_expand_sections::list_laws;
use dwz_graph::ListOperand;
use dwz_model::NoMemory;
use std::alloc::Global;

// Before which operands those are that begin at a place or behind it.
fn from_place(operands: &[ListOperand], at: u64) -> usize
    ensures within { result ≤ length operands.now }
    ensures begin { IsNonDecreasingBy (λ o. o.at) operands.now → IsPartitionPoint (λ o. o.at < at) (λ o. at ≤ o.at) operands.now result }
{
    operands.partition_point(|operand| (operand.at as u64) < at)
}

// Which of the operands begins at a place.
fn row_at(operands: &[ListOperand], at: u64) -> Option<usize>
    ensures within { IfSome result (λ i. i < length operands.now) }
    ensures there { IfSome result (λ i. (row : ListOperand) → slice_get operands.now i ≡ Some row → row.at ≡ at) }
    ensures found { Rise operands.now → (i : ℕ) (row : ListOperand) → slice_get operands.now i ≡ Some row → row.at ≡ at → result ≡ Some i }
{
    let i = from_place(operands, at);
    if i == operands.len() {
        return None;
    }
    if operands[i].at as u64 == at {
        Some(i)
    } else {
        None
    }
}

// Gives the operand that begins where this one does its number.
fn note(numbers: &mut Vec<Option<u64>>, operands: &[ListOperand], operand: &Operand)
    requires { length numbers.old.items ≡ length operands.now }
    ensures many { length numbers.new.items ≡ length numbers.old.items }
    ensures noted { (told : List Operand) → AreNumbered operands.now told numbers.old.items
        → AreNumbered operands.now (told ++ operand.now ∷ []) numbers.new.items }
{
    if let Some(i) = row_at(operands, operand.at) {
        numbers[i] = Some(operand.number);
    }
}

/// The new numbers of the operands of a file's lists. `told` are those of the lists that values of the new file name, with their new numbers.
pub(crate) fn row_numbers(
    alloc: Global,
    operands: &[ListOperand],
    told: &[Operand],
) -> Result<Vec<Option<u64>>, NoMemory>
    ensures many { IfOk result (λ numbers. length numbers.items ≡ length operands.now) }
    ensures gives { (f : OneFile) → ReadsOne f → AreListed f operands.now → AreTold f told.now
        → IfOk result (λ numbers. GivesNumbers f operands.now numbers.items) }
{
    list_laws();
    let mut numbers = vec![in alloc; None; operands.len()]?;
    for operand in told {
        note(&mut numbers, operands, operand);
    }
    Ok(numbers)
}
