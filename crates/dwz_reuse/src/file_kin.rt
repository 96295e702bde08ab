//! The kin of the tops of files.

ghost use Rattle.std.specs.Prelude.{◌≡◌, ℕ, ◌<◌, ◌≤◌, ◌^◌, List, IfOk, length, map};
ghost use Rattle.dwz_def_reading.specs.Documents.{Doc};
ghost use Rattle.dwz_def_tops.specs.Deciding.{AreMovable};
ghost use Rattle.dwz_def_tops.specs.Spots.{EntryName, FileUnit, tops_of, units_of};
ghost use Rattle.dwz_graph.specs.Files.{docs_of};
ghost use Rattle.dwz_match.specs.MatchRows.{AreSameKin};
ghost use Rattle.dwz_model.specs.Lists.{In};
ghost use Rattle.dwz_move_files.specs.Outlines.{AreTops};
ghost use Rattle.dwz_plan.specs.Shows.{ShowsTops};

use dwz_gate::Gate;
use dwz_graph::Graph;
use dwz_groups::Tops;
use dwz_label_files::least;
use dwz_match::kin_of;
use dwz_model::{NoMemory, Numbers};
use std::alloc::Global;
use std::thread::Threads;

// The number of the file of each top.
fn files_of(alloc: Global, tops: &Tops) -> Result<Vec<u32>, NoMemory>
    requires { (docs : List (Doc ℕ)) × ShowsTops (units_of docs) tops.now }
    ensures { (docs : List (Doc ℕ)) → ShowsTops (units_of docs) tops.now
        → IfOk result (λ files. files.items ≡ map (λ t. t.file) (tops_of (units_of docs))) }
{
    let units = tops.files_of_units.as_slice();
    let mut files = Vec::new(alloc);
    for row in tops.rows.as_slice() {
        files.push(units[row.unit as usize])?;
    }
    Ok(files)
}

/// For each of so many tops the first one of its file that is alike to it, where `movable` says which tops of the files may move; those
/// behind the tops of the files stand for themselves. It is the same for every number of workers and every gate.
pub fn kin<R: Threads + Sync, G: Gate>(
    rt: &R,
    alloc: Global,
    graph: &Graph,
    tops: &Tops,
    movable: &[bool],
    count: usize,
    workers: u32,
    gate: &G,
) -> Result<Numbers, NoMemory>
    requires tops { AreTops (docs_of graph.now.given) tops.now }
    requires flags { AreMovable (units_of (docs_of graph.now.given)) movable.now }
    requires count { length (tops_of (units_of (docs_of graph.now.given))) ≤ count }
    requires few { count < 2 ^ 32 }
    requires workers { (0 < workers) × (workers ≤ 64) }
    ensures same { IfOk result (AreSameKin (units_of (docs_of graph.now.given))) }
    ensures len { IfOk result (λ kin. length kin ≡ count) }
    ensures below { IfOk result (λ kin. (k : ℕ) → In k kin → k < count) }
{
    let least = least(rt, alloc, graph, tops, movable, workers, gate)?;
    let files = files_of(alloc, tops)?;
    kin_of(alloc, least.as_slice(), files.as_slice(), count)
}
