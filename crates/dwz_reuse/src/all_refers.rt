//! What the tops of all files refer into.

ghost use Rattle.std.specs.Prelude.{◌≡◌, ℕ, ◌≤◌, ◌<◌, IfOk, length};
ghost use Rattle.dwz_def_tops.specs.Spots.{tops_of, units_of};
ghost use Rattle.dwz_graph.specs.Files.{docs_of};
ghost use Rattle.dwz_match.specs.MatchRows.{ShowRefers};
ghost use Rattle.dwz_takes.specs.Takes.{AreBelow};

use crate::file_refers::put_refers;
use dwz_graph::Graph;
use dwz_groups::{Groups, group};
use dwz_model::NoMemory;
use std::alloc::Global;

/// For each of so many tops those that it refers into, by their numbers among those of all files; those behind the tops of the files refer
/// into none.
pub fn refers(alloc: Global, graph: &Graph, count: usize) -> Result<Groups, NoMemory>
    requires { length (tops_of (units_of (docs_of graph.now.given))) ≤ count }
    ensures shows { IfOk result (ShowRefers (units_of (docs_of graph.now.given))) }
    ensures len { IfOk result (λ targets. length targets ≡ count) }
    ensures below { IfOk result (AreBelow count) }
{
    let indexes = graph.indexes();
    let mut edges = Vec::new(alloc);
    for (number, file) in graph.files().iter().enumerate() {
        put_refers(alloc, file, indexes[number].starts().top, &mut edges)?;
    }
    group(alloc, count, edges.as_slice())
}
