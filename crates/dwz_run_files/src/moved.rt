//! A file of which something moves.

ghost use Rattle.std.specs.Prelude.{◌≡◌, Some, slice_get, true};
ghost use Rattle.dwz_law_layout.specs.Beside.{Beside};
ghost use Rattle.dwz_law_layout.specs.Facts.{RunFacts, files_written, move, units};
ghost use Rattle.dwz_def_images.specs.Units.{changes};
ghost use Rattle.dwz_run_files.specs.Works.{HasRank, IsMoved, IsWork};

use crate::work::LaidRun;
use dwz_graph::{File, Index};
use dwz_layout::{FileLayout, UnitItems};

/// A file of which something moves.
#[derive(Clone, Copy)]
pub(crate) struct FileAfter<'w, 'a> {
    /// Its number among the files that were read.
    pub(crate) number: usize,
    /// The file, as it was read.
    pub(crate) file: &'w File<'a>,
    /// What its entries are.
    pub(crate) index: &'w Index,
    /// The number of its first entry among those of all files.
    pub(crate) start: u32,
    /// The number of its first unit among all units that are written.
    pub(crate) first: u32,
    /// Its units, with their entries in order.
    pub(crate) units: &'w [UnitItems],
    /// Where they are laid.
    pub(crate) laid: &'w FileLayout,
}

/// The file with a number, which has that rank among those that are written.
pub(crate) fn moved_file<'w, 'u, 'a>(
    work: &LaidRun<'w, 'u, 'a>,
    number: usize,
    rank: u32,
) -> FileAfter<'w, 'a>
    requires { (beside : Beside) × (f : RunFacts beside) × IsWork f work.now × HasRank f number rank }
    ensures number { result.number ≡ number }
    ensures moved { (beside : Beside) (f : RunFacts beside) → IsWork f work.now → HasRank f number rank → IsMoved f work.now result }
{
    let prepared = work.prepared;
    let indexes = prepared.run.indexes;
    let ordered = &prepared.ordered;
    let place = rank as usize + 1;
    FileAfter {
        number,
        file: &prepared.files[number],
        index: &indexes[number],
        start: work.starts[number],
        first: ordered.firsts[place],
        units: ordered.orders[place].as_slice(),
        laid: work.layout.file(place),
    }
}
