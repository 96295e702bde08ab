//! What is read of files.

ghost use Rattle.std.specs.Prelude.{◌≡◌, ℕ, ◌<◌, List, Some, length, slice_get};
ghost use Rattle.dwz_show_entries.specs.Counting.{AreCounted};

use dwz_graph::Graph;

/// How many units and entries a file has.
#[derive(Clone, Copy, Debug, PartialEq, Eq)]
pub(crate) struct Counts {
    pub(crate) units: u32,
    pub(crate) entries: u32,
}

/// Counts the units and the entries of the first of files that were read.
pub(crate) fn counts_of(graph: &Graph) -> Counts
    requires { 0 < length graph.now.given }
    ensures { (bytes : List ℕ) → slice_get graph.now.given 0 ≡ Some bytes → AreCounted bytes result }
{
    let file = graph.file(0);
    Counts {
        units: file.units.len(),
        entries: file.units.entries(),
    }
}
