//! Where tops stand, and the entries at paths below an entry.

ghost use Rattle.std.specs.Prelude.{◌≡◌, ◌<◌, ◌-◌, Some, [], length, slice_get};
ghost use Rattle.dwz_def_explain.specs.Texts.{entry_along, place_of_name};
ghost use Rattle.dwz_def_explain.specs.What.{Subtree, whole_top};
ghost use Rattle.dwz_def_reading.specs.Lists.{In};
ghost use Rattle.dwz_def_tops.specs.Spots.{Top, tops_of, units_of};
ghost use Rattle.dwz_explain.specs.Reached.{HasEntry, HoldsTop, IsAsked, Shows};
ghost use Rattle.dwz_graph.specs.Files.{docs_of};
ghost use Rattle.dwz_graph.specs.Index.{Index};

use crate::asked::{Asked, Spot, units_at};
use crate::children::find_entry;
use dwz_graph::TopEntry;
use dwz_model::Place;

/// Where the top with a number begins.
pub(crate) fn place_of_top(run: &Asked, top: u32) -> Place
    requires asked { IsAsked run.now }
    requires there { top < length (tops_of (units_of (docs_of run.now.graph.now.given))) }
    ensures file { HoldsTop run.now.files.now run.now.indexes.now result.file top }
    ensures offset { (t : Top) → In t (tops_of (units_of (docs_of run.now.graph.now.given))) → t.number ≡ top
        → place_of_name (docs_of run.now.graph.now.given) t.node.at ≡ result.offset }
{
    run.tops.rows.as_slice()[top as usize].place
}

// What the file's index gives the top.
fn entry_of(run: &Asked, file: u32, top: u32) -> TopEntry
    requires { HoldsTop run.now.files.now run.now.indexes.now file top }
    ensures { (x : Index) → slice_get run.now.indexes.now file ≡ Some x → slice_get x.tops (top - x.starts.top) ≡ Some result }
{
    let index = &run.indexes[file as usize];
    let first = index.starts().top;
    index.tops()[(top - first) as usize]
}

/// The entry of the top with a number.
pub(crate) fn spot_of_top(run: &Asked, top: u32) -> Spot
    requires asked { IsAsked run.now }
    requires there { top < length (tops_of (units_of (docs_of run.now.graph.now.given))) }
    ensures has { HasEntry run.now.files.now result }
    ensures shows { (t : Top) → In t (tops_of (units_of (docs_of run.now.graph.now.given))) → t.number ≡ top
        → Shows run.now.graph.now.given run.now.files.now result (whole_top t) }
{
    let file = place_of_top(run, top).file;
    let entry = entry_of(run, file, top).entry;
    Spot { file, entry }
}

/// The entry at a path below an entry; where a child isn't there, what was reached last.
pub(crate) fn spot_along(run: &Asked, spot: Spot, path: &[u32]) -> Spot
    requires { HasEntry run.now.files.now spot }
    ensures has { HasEntry run.now.files.now result }
    ensures shows { (x : Subtree) → Shows run.now.graph.now.given run.now.files.now spot x
        → Shows run.now.graph.now.given run.now.files.now result (entry_along path.now x) }
{
    let units = units_at(run, spot.file);
    let entry = find_entry(units, spot.entry, path);
    Spot {
        file: spot.file,
        entry,
    }
}
