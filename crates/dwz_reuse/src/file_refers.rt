//! What the tops of a file refer into.

ghost use Rattle.std.specs.Prelude.{◌≡◌, ℕ, ◌+◌, ◌<◌, ◌^◌, List, None, IfOk, OnOk, length, map};
ghost use Rattle.dwz_def_reading.specs.Documents.{DwUnit};
ghost use Rattle.dwz_def_check.specs.CrossLists.{numbered_units};
ghost use Rattle.dwz_def_check.specs.CrossNames.{cross_tops};
ghost use Rattle.dwz_def_images.specs.After.{ArePlaced};
ghost use Rattle.dwz_def_tops.specs.Spots.{in_file, named, tops_among, tops_from};
ghost use Rattle.dwz_check_index.specs.Both.{from_top};
ghost use Rattle.dwz_check_index.specs.Index.{IsCrossIndex};
ghost use Rattle.dwz_check_labels.specs.FilesSaid.{IsFileSaid};
ghost use Rattle.dwz_check_sides.specs.Units.{nodes_of};
ghost use Rattle.dwz_reuse.specs.Refers.{PutsRefers};

use crate::own::{own_numbers, put_edges};
use dwz_check_index::{CrossIndex, CrossStarts};
use dwz_check_labels::labels_by_itself;
use dwz_check_rows::UnitNodes;
use dwz_check_sides::{Side, put_units};
use dwz_graph::File;
use dwz_groups::Edge;
use dwz_model::NoMemory;
use std::alloc::Global;

// The nodes of the units of a file that was read by itself.
fn nodes_in<'f, 'a>(
    alloc: Global,
    file: &'f File<'a>,
    index: &'f CrossIndex,
) -> Result<Vec<UnitNodes>, NoMemory>
    requires { (said : List (DwUnit ℕ)) × IsFileSaid file.now None said × IsCrossIndex (from_top 0) said index.now }
    ensures { (said : List (DwUnit ℕ)) → IsFileSaid file.now None said → IsCrossIndex (from_top 0) said index.now
        → IfOk result (λ nodes. nodes.items ≡ map (nodes_of 0) (numbered_units 0 0 said)) }
{
    let side = Side {
        file,
        common: None,
        index,
    };
    let mut nodes = Vec::new(alloc);
    put_units(&side, 0, &mut nodes)?;
    Ok(nodes)
}

/// Adds an edge from each top of a file to each top that it refers into, by their numbers among those of all files, where the first top of
/// the file has that one. The file was read by itself.
pub(crate) fn put_refers(
    alloc: Global,
    file: &File,
    first: u32,
    edges: &mut Vec<Edge>,
) -> Result<(), NoMemory>
    requires { (said : List (DwUnit ℕ)) × IsFileSaid file.now None said × ArePlaced said × (first + length (cross_tops said) < 2 ^ 32) }
    ensures { (number unit : ℕ) (said : List (DwUnit ℕ)) → IsFileSaid file.now None said → ArePlaced said
        → OnOk result (PutsRefers (tops_from unit first (map (in_file number) (named unit first said))) (first + tops_among said)
        edges.old.items edges.new.items) }
{
    let index = CrossIndex::read(alloc, &file.units, &CrossStarts { top: 0, lone: 0 })?;
    let labels = labels_by_itself(alloc, file, &index)?;
    let nodes = nodes_in(alloc, file, &index)?;
    let own = own_numbers(alloc, nodes.as_slice(), first)?;
    put_edges(edges, own.as_slice(), &labels.targets)?;
    Ok(())
}
