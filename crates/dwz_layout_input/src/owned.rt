//! The units in which the entries of all files are written.

ghost use Rattle.std.specs.Prelude.{◌≡◌, ◌++◌, length, IfOk};
ghost use Rattle.dwz_law_layout.specs.Beside.{Beside, Over, Standing};
ghost use Rattle.dwz_law_layout.specs.Facts.{RunFacts, owners_beside};
ghost use Rattle.dwz_law_layout.specs.Listed.{AreAllOwners};
ghost use Rattle.dwz_layout_input.specs.Needs.{AreMade, IsFit};
ghost use Rattle.dwz_unit.specs.Rows.{rows_of, units_of};

use dwz_graph::{File, Index};
use dwz_layout_numbers::{UnitNumbers, put_own_units, put_owners};
use dwz_model::NoMemory;
use dwz_plan::Plan;
use dwz_unit::Units;
use std::alloc::Global;

/// For each entry of files, by its number among those of all, the unit in which it is written. `tops` has for each top the number of its
/// entry.
pub(crate) fn owners_of(
    alloc: Global,
    files: &[File<'_>],
    indexes: &[Index],
    plan: &Plan,
    tops: &[u32],
    numbers: &UnitNumbers,
) -> Result<Vec<u32>, NoMemory>
    requires fit { IsFit files.now indexes.now plan.now (length tops.now) }
    ensures { (beside : Beside) (f : RunFacts beside) → AreMade f files.now indexes.now plan.now numbers.now
        → IfOk result (λ owners. AreAllOwners f files.now indexes.now (owners.items ++ owners_beside f)) }
{
    let mut owners = Vec::new(alloc);
    for (number, file) in files.iter().enumerate() {
        put_owners(
            &mut owners,
            &file.units,
            &indexes[number],
            plan,
            tops,
            numbers,
        )?;
    }
    Ok(owners)
}

/// The same, and behind them the units in which the entries of a common file stand that has these units.
pub(crate) fn owners_over(
    alloc: Global,
    files: &[File<'_>],
    indexes: &[Index],
    common: &Units,
    plan: &Plan,
    tops: &[u32],
    numbers: &UnitNumbers,
) -> Result<Vec<u32>, NoMemory>
    requires fit { IsFit files.now indexes.now plan.now (length tops.now) }
    ensures { (s : Standing) (f : RunFacts (Over s)) → AreMade f files.now indexes.now plan.now numbers.now
        → rows_of (units_of common.now) ≡ rows_of s.file.raw
        → IfOk result (λ owners. AreAllOwners f files.now indexes.now owners.items) }
{
    let mut owners = owners_of(alloc, files, indexes, plan, tops, numbers)?;
    put_own_units(&mut owners, common)?;
    Ok(owners)
}
