//! Which files import from the common file.

ghost use Rattle.std.specs.Prelude.{◌≡◌, ℕ, List, length, map, slice_get, IfOk};
ghost use Rattle.dwz_def_tops.specs.Spots.{file_numbers, units_of};
ghost use Rattle.dwz_def_readback.specs.Files.{imports_common};
ghost use Rattle.dwz_def_reading.specs.Documents.{Doc};
ghost use Rattle.dwz_def_images.specs.Moves.{Move};
ghost use Rattle.dwz_layout_order.specs.Behind.{ArePlannedFirst};
ghost use Rattle.dwz_move.specs.Marked.{Marks};

use crate::changed::file_of;
use dwz_groups::Tops;
use dwz_model::NoMemory;
use dwz_move::mark;
use dwz_plan::Plan;
use std::alloc::Global;

// Marks the files of these units.
fn mark_files(flags: &mut Vec<bool>, files_of_units: &[u32], units: &[u32])
    ensures { Marks (map (slice_get files_of_units.now) units.now) flags.old.items flags.new.items }
{
    for unit in units {
        mark(flags, true, file_of(files_of_units, *unit));
    }
}

/// For each file whether it imports from the common file (DWARF 5, 3.2.5): whether one of its units is a user of a partial unit there.
/// The common file's number is that of the files.
pub fn importing_files(
    alloc: Global,
    tops: &Tops,
    plan: &Plan,
    files: u32,
) -> Result<Vec<bool>, NoMemory>
    ensures { (docs : List (Doc ℕ)) (m : Move) → length docs ≡ files → ArePlannedFirst m (units_of docs) (length docs) tops.now plan.now
        → IfOk result (λ flags. flags.items ≡ map (imports_common m (units_of docs)) (file_numbers 0 docs)) }
{
    let files_of_units = tops.files_of_units.as_slice();
    let mut flags = vec![in alloc; false; files as usize]?;
    for part in plan.partials() {
        if part.file == files {
            mark_files(&mut flags, files_of_units, part.users.as_slice());
        }
    }
    Ok(flags)
}
