//! The name lists of the spaces of the units of files, and of those of a finished common file.

ghost use Rattle.std.specs.Prelude.{◌≡◌, ◌≤◌, ℕ, None, IfOk, length};
ghost use Rattle.dwz_def_reading.specs.Documents.{Doc};
ghost use Rattle.dwz_def_taken.specs.Beside.{reused_of};
ghost use Rattle.dwz_def_tops.specs.Spots.{units_of};
ghost use Rattle.dwz_check_labels.specs.FilesSaid.{IsFileSaid};
ghost use Rattle.dwz_graph.specs.Files.{docs_of};
ghost use Rattle.dwz_match.specs.Partial.{ArePartial};
ghost use Rattle.dwz_takes.specs.Takes.{AreBelow};
ghost use Rattle.dwz_reuse.specs.SpaceNames.{ShowNames};
ghost use Rattle.dwz_unit.specs.Rows.{units_of as raw_units};

use crate::file_spaces::{file_names, put_file_spaces, side_of};
use crate::spaces::put_spaces;
use dwz_check_index::{CrossIndex, CrossStarts};
use dwz_check_sides::{NameLists, list_number_laws};
use dwz_graph::{File, Graph};
use dwz_groups::{Groups, group};
use dwz_model::NoMemory;
use std::alloc::Global;

/// The numbers of name lists of spaces: of each unit of the files, and of each partial unit of the common file.
#[derive(Drop)]
pub struct SpaceNames {
    pub units: Groups,
    pub parts: Groups,
    /// More than each of the numbers.
    pub names: u32,
}

/// The numbers of the name lists of the spaces of so many units of the files of a graph, and of so many partial units of the common file.
pub fn space_names(
    alloc: Global,
    graph: &Graph,
    common: &File,
    count: usize,
    parts: usize,
) -> Result<SpaceNames, NoMemory>
    requires said { (doc : Doc ℕ) × IsFileSaid common.now None doc.units }
    requires count { length (units_of (docs_of graph.now.given)) ≤ count }
    requires parts { length (raw_units common.now.units) ≤ parts }
    ensures names { (doc : Doc ℕ) → IsFileSaid common.now None doc.units → ArePartial doc.units
        → IfOk result (λ s. ShowNames (reused_of (docs_of graph.now.given) doc) s.units s.parts) }
    ensures len { IfOk result (λ s. (length s.units ≡ count) × (length s.parts ≡ parts)) }
    ensures below { IfOk result (λ s. AreBelow s.names s.units × AreBelow s.names s.parts) }
{
    list_number_laws();
    graph.indexes();
    let files = graph.files();
    let indexes = file_names(alloc, files)?;
    let index = CrossIndex::read(alloc, &common.units, &CrossStarts { top: 0, lone: 0 })?;
    let mut known = NameLists::new(alloc);
    let mut edges = Vec::new(alloc);
    let next = put_file_spaces(alloc, files, indexes.as_slice(), &mut known, &mut edges)?;
    let mut more = Vec::new(alloc);
    let side = side_of(common, &index);
    put_spaces(alloc, &side, &mut known, next, 0, &mut more)?;
    Ok(SpaceNames {
        units: group(alloc, count, edges.as_slice())?,
        parts: group(alloc, parts, more.as_slice())?,
        names: next + common.units.entries(),
    })
}
