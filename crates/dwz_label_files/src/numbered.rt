//! The label of a top by its number among those of all files.

ghost use Rattle.std.specs.Prelude.{◌≡◌, ◌<◌, ◌++◌, OnOk, length};
ghost use Rattle.dwz_def_tops.specs.Spots.{tops_of, units_of};
ghost use Rattle.dwz_label_files.specs.Run.{AreReady, labels_of};
ghost use Rattle.dwz_graph.specs.Files.{docs_of};
ghost use Rattle.dwz_label.specs.Shown.{nth_label};

use crate::run::Run;
use crate::search::{entry_of, file_of};
use crate::top::{TopScratch, put_top_of};
use crate::unit::UnitRow;
use dwz_model::NoMemory;

/// Appends the label of the top with a number among those of all files. `rows` has what is kept of each unit of all files.
pub(crate) fn put_numbered(
    run: &Run,
    rows: &[UnitRow],
    n: usize,
    room: &mut TopScratch,
    out: &mut Vec<u8>,
) -> Result<(), NoMemory>
    requires ready { AreReady run.now rows.now }
    requires there { n < length (tops_of (units_of (docs_of run.now.graph.now.given))) }
    ensures { OnOk result (out.new.items ≡ out.old.items ++ nth_label (labels_of run.now.graph.now.given) n) }
{
    let file = file_of(run, n);
    let entry = entry_of(run, file, n);
    let row = rows[entry.unit as usize];
    put_top_of(run, file, &entry, &row, room, out)
}
