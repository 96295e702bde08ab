//! The top that begins at a place.

ghost use Rattle.std.specs.Prelude.{MatchOption};
ghost use Rattle.dwz_def_explain.specs.Places.{IsMovableAt, NoneMovableAt};
ghost use Rattle.dwz_def_reading.specs.Places.{at_file};
ghost use Rattle.dwz_graph.specs.Files.{docs_of};
ghost use Rattle.dwz_move_files.specs.Outlines.{IsOutline};

use crate::found::find_row;
use dwz_graph::Graph;
use dwz_groups::Tops;
use dwz_model::Place;

/// The number of the top that begins at a place and may move, among the tops of all files, whose outline is `tops`. None where there is
/// no such top.
pub fn movable_at(graph: &Graph, tops: &Tops, place: Place) -> Option<u32>
    requires { IsOutline (docs_of graph.now.given) tops.now }
    ensures { MatchOption result (NoneMovableAt (docs_of graph.now.given) (at_file place.file place.offset))
        (IsMovableAt (docs_of graph.now.given) (at_file place.file place.offset)) }
{
    let _files = graph.files();
    match find_row(tops.rows.as_slice(), place) {
        None => None,
        Some(number) => Some(number as u32),
    }
}
