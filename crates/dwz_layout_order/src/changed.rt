//! Of which files something moves.

ghost use Rattle.std.specs.Prelude.{◌≡◌, ℕ, ◌<◌, ◌^◌, List, length, map, not, slice_get, IfOk};
ghost use Rattle.dwz_def_tops.specs.Spots.{file_numbers, units_of};
ghost use Rattle.dwz_def_reading.specs.Documents.{Doc};
ghost use Rattle.dwz_def_images.specs.Moves.{Move};
ghost use Rattle.dwz_layout_order.specs.Behind.{ArePlannedFirst};
ghost use Rattle.dwz_layout_order.specs.Marks.{stays_in};
ghost use Rattle.dwz_def_images.specs.Units.{changes};

use dwz_groups::Tops;
use dwz_model::NoMemory;
use dwz_move::mark;
use dwz_plan::{Home, Plan};
use std::alloc::Global;

// Whether a top leaves its unit.
#[inline(always)]
fn goes(home: Home) -> bool
    ensures { result ≡ not (stays_in home) }
{
    match home {
        Home::Common(_) => true,
        Home::Local(_) => true,
        Home::Stay => false,
    }
}

/// The file of a unit, if there is such a unit.
#[inline(always)]
pub(crate) fn file_of(files_of_units: &[u32], unit: u32) -> Option<u32>
    ensures { result ≡ slice_get files_of_units.now unit }
{
    files_of_units.get(unit as usize).copied()
}

/// For each file whether something of it moves, by the tops of all files and their plan. Tops of others may stand behind these.
pub fn changed_files(
    alloc: Global,
    tops: &Tops,
    plan: &Plan,
    files: u32,
) -> Result<Vec<bool>, NoMemory>
    requires homes { length plan.now.homes ≡ length tops.now.rows }
    requires few { length tops.now.rows < 2 ^ 32 }
    ensures { (docs : List (Doc ℕ)) (m : Move) → length docs ≡ files → ArePlannedFirst m (units_of docs) (length docs) tops.now plan.now
        → IfOk result (λ flags. flags.items ≡ map (changes m (units_of docs)) (file_numbers 0 docs)) }
{
    let files_of_units = tops.files_of_units.as_slice();
    let mut flags = vec![in alloc; false; files as usize]?;
    for (top, row) in tops.rows.as_slice().iter().enumerate() {
        let home = plan.home(top as u32);
        mark(&mut flags, goes(home), file_of(files_of_units, row.unit));
    }
    Ok(flags)
}
