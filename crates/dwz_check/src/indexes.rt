//! The indexes of the two files of a graph and of their common one.

ghost use Rattle.std.specs.Prelude.{◌≡◌, length, IfOk};
ghost use Rattle.std.specs.Option.{option_map};
ghost use Rattle.dwz_check_index.specs.Both.{raw_beside};
ghost use Rattle.dwz_check_labels.specs.Graph.{AreIndexesOf};

use dwz_check_index::CrossIndexes;
use dwz_graph::{File, Graph, placed_laws};
use dwz_model::NoMemory;
use dwz_unit::Units;
use std::alloc::Global;

// The units of a file, if there is one.
fn units_of<'f, 'a>(file: Option<&'f File<'a>>) -> Option<&'f Units<'a>>
    ensures { option_map (λ u. u.now) result ≡ option_map (λ f. f.now.units) file.entry }
{
    match file {
        None => None,
        Some(file) => Some(&file.units),
    }
}

/// What each entry of both files and of their common one is called, and the numbers of tops, roots and spaces.
pub(crate) fn indexes_of(alloc: Global, graph: &Graph) -> Result<CrossIndexes, NoMemory>
    requires two { length graph.now.back ≡ 2 }
    ensures { IfOk result (AreIndexesOf graph.now) }
{
    placed_laws();
    let files = graph.back();
    let shared = graph.common();
    CrossIndexes::read(alloc, &files[0].units, &files[1].units, units_of(shared))
}
