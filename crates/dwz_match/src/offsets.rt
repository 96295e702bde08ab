//! Where the roots of a common file stand.

ghost use Rattle.std.specs.Prelude.{◌≡◌, ℕ, List, Ok, IfOk, map};
ghost use Rattle.dwz_def_reading.specs.Documents.{DwUnit};
ghost use Rattle.dwz_def_reading.specs.Meanings.{Around};
ghost use Rattle.dwz_def_reading.specs.Meant.{units_meaning};
ghost use Rattle.dwz_def_reading.specs.Places.{Place};
ghost use Rattle.dwz_unit.specs.Rows.{units_of};

use dwz_model::{NoMemory, Numbers};
use dwz_unit::Units;
use std::alloc::Global;

/// The offsets of the roots of units, in order: where places have offsets.
pub fn roots(alloc: Global, units: &Units) -> Result<Numbers, NoMemory>
    ensures { (around : Around Place) (said : List (DwUnit Place)) → ((n : ℕ) → (around.place n).at ≡ n)
        → units_meaning around (units_of units.now) ≡ Ok said → IfOk result (λ roots. roots ≡ map (λ u. u.root.at.at) said) }
{
    let mut offsets = Vec::new(alloc);
    for n in 0..units.len() {
        let unit = units.unit(n);
        offsets.push(units.entry(unit.first).at)?;
    }
    Ok(Numbers::new(offsets))
}
