//! Where what references name stands after.

ghost use Rattle.std.specs.Prelude.{◌≡◌, IfOk, map, slice_index};

use crate::operands::at_or_zero;
use dwz_model::NoMemory;
use std::alloc::Global;

/// For each reference of a file, in order, where what stands for its target stands after. `references` has the numbers of these entries
/// among those of all files, and `places` says for each entry by its number where it stands after.
pub fn entry_places(alloc: Global, references: &[u32], places: &[u64]) -> Result<Vec<u64>, NoMemory>
    ensures { IfOk result (λ v. v.items ≡ map (λ n. slice_index places.now n) references.now) }
{
    references
        .iter()
        .map(|n| at_or_zero(places, *n))
        .collect(alloc)
}
