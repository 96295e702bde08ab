//! The indexes of two files and of their common one, numbered together.

ghost use Rattle.std.specs.Prelude.{◌≡◌, ℕ, ◌≤◌, ◌<◌, ◌^◌, List, Ok, length, IfOk};
ghost use Rattle.std.specs.Option.{option_map};
ghost use Rattle.dwz_def_reading.specs.Documents.{DwUnit};
ghost use Rattle.dwz_def_reading.specs.Meanings.{Around};
ghost use Rattle.dwz_def_reading.specs.Meant.{units_meaning};
ghost use Rattle.dwz_def_reading.specs.Units.{entries_in};
ghost use Rattle.dwz_check_index.specs.Both.{AreCrossIndexes, IsBeside, raw_beside, tops_beside};
ghost use Rattle.dwz_check_index.specs.Building.{HasRoom};
ghost use Rattle.dwz_unit.specs.Rows.{units_of};

use crate::{CrossIndex, CrossStarts};
use dwz_model::NoMemory;
use dwz_unit::Units;
use std::alloc::Global;

/// The indexes of an old file and a new one, and of the common file beside which they were read, if there is one. Tops have the first
/// numbers: those of the old file, of the new one, and of the common one. Behind them come the roots and spaces of the old file, and of
/// the new one; in the indexes these are counted from 0 in each file.
#[derive(Drop)]
pub struct CrossIndexes {
    pub old: CrossIndex,
    pub new: CrossIndex,
    pub common: Option<CrossIndex>,
    /// The number of the first root of the old file.
    pub old_lone: u32,
    /// The number of the first root of the new file.
    pub new_lone: u32,
}

// The numbers of a file whose first top has that one.
fn from_top(top: u32) -> CrossStarts
    ensures { result ≡ record { top = top; lone = 0 } }
{
    CrossStarts { top, lone: 0 }
}

// The index of the common file, if there is one, the first top of which has that number.
fn read_common(
    alloc: Global,
    common: Option<&Units>,
    top: u32,
) -> Result<Option<CrossIndex>, NoMemory>
    requires room { HasRoom (record { top = top; lone = 0 }) (entries_in (raw_beside (option_map (λ u. u.now) common))) }
    ensures few { IfOk result (λ x. tops_beside x ≤ entries_in (raw_beside (option_map (λ u. u.now) common.entry))) }
    ensures names { (around : Around ℕ) (said : List (DwUnit ℕ))
        → units_meaning around (raw_beside (option_map (λ u. u.now) common.entry)) ≡ Ok said → IfOk result (λ x. IsBeside top said x) }
{
    match common {
        None => Ok(None),
        Some(units) => Ok(Some(CrossIndex::read(alloc, units, &from_top(top))?)),
    }
}

// How many tops the common file has.
fn common_tops(common: &Option<CrossIndex>) -> u32
    requires { tops_beside common.now < 2 ^ 32 }
    ensures { result ≡ tops_beside common.now }
{
    match common {
        None => 0,
        Some(index) => index.top_count(),
    }
}

impl CrossIndexes {
    /// The indexes of two files and of their common one, if there is one, in one pass over the entries of each.
    pub fn read(
        alloc: Global,
        old: &Units,
        new: &Units,
        common: Option<&Units>,
    ) -> Result<CrossIndexes, NoMemory>
        requires old { entries_in (units_of old.now) ≤ 2 ^ 28 }
        requires new { entries_in (units_of new.now) ≤ 2 ^ 28 }
        requires common { entries_in (raw_beside (option_map (λ u. u.now) common)) ≤ 2 ^ 28 }
        ensures { (around others beside : Around ℕ) (a b c : List (DwUnit ℕ)) → units_meaning around (units_of old.now) ≡ Ok a
            → units_meaning others (units_of new.now) ≡ Ok b → units_meaning beside (raw_beside (option_map (λ u. u.now) common.entry)) ≡ Ok c
            → IfOk result (λ x. AreCrossIndexes a b c x) }
    {
        let old = CrossIndex::read(alloc, old, &from_top(0))?;
        let new = CrossIndex::read(alloc, new, &from_top(old.top_count()))?;
        let before = old.top_count() + new.top_count();
        let common = read_common(alloc, common, before)?;
        let old_lone = before + common_tops(&common);
        let new_lone = old_lone + old.lone_count();
        Ok(CrossIndexes {
            old,
            new,
            common,
            old_lone,
            new_lone,
        })
    }
}
