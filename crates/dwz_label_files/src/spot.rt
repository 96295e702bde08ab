//! Where a top stands, by its number.

ghost use Rattle.std.specs.Prelude.{◌≡◌, ◌<◌, Some, length, slice_get};
ghost use Rattle.dwz_def_tops.specs.Spots.{Top, tops_of, units_of};
ghost use Rattle.dwz_label_files.specs.Run.{IsRun, IsSpot};
ghost use Rattle.dwz_graph.specs.Files.{docs_of};

use crate::run::{Run, file_at, index_at};
use crate::search::{entry_of, file_of};
use crate::unit::{UnitRow, unit_row};
use dwz_graph::TopEntry;

/// Where a top stands.
#[derive(Clone, Copy)]
pub(crate) struct Spot {
    /// The number of its file.
    pub file: usize,
    /// What the file's index gives it.
    pub entry: TopEntry,
    /// What is kept of its unit.
    pub row: UnitRow,
}

/// Where the top with a number among those of all files stands.
pub(crate) fn spot_of(run: &Run, top: u32) -> Spot
    requires run { IsRun run.now }
    requires there { top < length (tops_of (units_of (docs_of run.now.graph.now.given))) }
    ensures spot { IsSpot run.now top result }
    ensures language { (t : Top) → slice_get (tops_of (units_of (docs_of run.now.graph.now.given))) top ≡ Some t
        → result.row.language ≡ t.language }
{
    let file = file_of(run, top as usize);
    let entry = entry_of(run, file, top as usize);
    let first = index_at(run, file).starts().unit;
    let row = unit_row(&file_at(run, file).units, entry.unit - first);
    Spot { file, entry, row }
}
