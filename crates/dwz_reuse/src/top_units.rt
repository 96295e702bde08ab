//! The units of tops.

ghost use Rattle.std.specs.Prelude.{◌≡◌, ℕ, List, IfOk, map};
ghost use Rattle.dwz_def_reading.specs.Documents.{Doc};
ghost use Rattle.dwz_def_tops.specs.Spots.{tops_of, units_of};
ghost use Rattle.dwz_plan.specs.Shows.{ShowsTops};

use dwz_groups::Tops;
use dwz_model::NoMemory;
use std::alloc::Global;

/// The number of the unit of each top of files, in order.
pub(crate) fn top_units(alloc: Global, tops: &Tops) -> Result<Vec<u32>, NoMemory>
    ensures { (docs : List (Doc ℕ)) → ShowsTops (units_of docs) tops.now
        → IfOk result (λ units. units.items ≡ map (λ t. t.unit) (tops_of (units_of docs))) }
{
    let mut units = Vec::new(alloc);
    for row in tops.rows.as_slice() {
        units.push(row.unit)?;
    }
    Ok(units)
}
