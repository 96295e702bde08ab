//! What is known of the spaces of all files.

ghost use Rattle.std.specs.Prelude.{List, IfOk};
ghost use Rattle.dwz_graph.specs.Files.{docs_of};
ghost use Rattle.dwz_graph.specs.Index.{Index};
ghost use Rattle.dwz_graph.specs.Indexed.{AreIndexes};
ghost use Rattle.dwz_layout_input.specs.Known.{AreSpaces};

use crate::names::space_texts;
use dwz_graph::Graph;
use dwz_layout_items::{SpaceRow, TopSpaces};
use dwz_layout_order::{number_lists, space_rows, top_spaces};
use dwz_model::NoMemory;
use std::alloc::Global;

/// What is known of the spaces of all files.
#[derive(Drop)]
pub struct Spaces {
    /// For each space, by its number, the one that it stands in.
    pub rows: Vec<SpaceRow>,
    /// For each top, by its number, the spaces that it stands in.
    pub of_tops: Vec<TopSpaces>,
}

/// The spaces of all files (DWARF 5, 3.2.2): which stands in which, and in which each top stands. Name lists have equal numbers where
/// their names are equal.
pub fn spaces_of_files(alloc: Global, graph: &Graph) -> Result<Spaces, NoMemory>
    ensures { (indexes : List Index) → AreIndexes (docs_of graph.now.given) indexes → IfOk result (AreSpaces (docs_of graph.now.given) indexes) }
{
    let indexes = graph.indexes();
    let texts = space_texts(alloc, graph)?;
    let rows = space_rows(alloc, indexes)?;
    let lists = number_lists(alloc, rows.as_slice(), texts.as_slice())?;
    let of_tops = top_spaces(alloc, indexes, lists.as_slice())?;
    Ok(Spaces { rows, of_tops })
}
