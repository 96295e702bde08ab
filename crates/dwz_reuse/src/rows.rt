//! Rows of files and of a finished common file.

ghost use Rattle.std.specs.Prelude.{◌≡◌, ℕ, IfOk};
ghost use Rattle.dwz_def_reading.specs.Documents.{Doc};
ghost use Rattle.dwz_def_taken.specs.Beside.{look_units, reused_of};
ghost use Rattle.dwz_def_tops.specs.Deciding.{AreMovable};
ghost use Rattle.dwz_def_tops.specs.Spots.{units_of};
ghost use Rattle.dwz_graph.specs.Files.{docs_of};
ghost use Rattle.dwz_label.specs.Nodes.{AreLeast};
ghost use Rattle.dwz_reuse.specs.Beside.{IsReadBeside};
ghost use Rattle.dwz_reuse.specs.Matching.{AreLookRows};
ghost use Rattle.dwz_move_files.specs.Outlines.{AreTops};
ghost use Rattle.dwz_takes.specs.Images.{AreApart};
ghost use Rattle.dwz_takes.specs.Takes.{AreRows};

use crate::part_tops::tops_of_parts;
use crate::parts::part_targets;
use crate::space_names;
use crate::top_units::top_units;
use dwz_graph::{File, Graph};
use dwz_groups::Tops;
use dwz_match::unit_tops;
use dwz_model::{NoMemory, Numbers};
use dwz_takes::Rows;
use std::alloc::Global;

/// Rows of the units of a graph and of the partial units of a finished common file beside it, from the classes of their tops, and the tops of
/// the files with what may move of these.
pub(crate) fn look_rows(
    alloc: Global,
    graph: &Graph,
    common: &File,
    tops: &Tops,
    movable: &[bool],
    classes: Numbers,
) -> Result<Rows, NoMemory>
    requires tops { AreTops (docs_of graph.now.given) tops.now }
    requires flags { AreMovable (units_of (docs_of graph.now.given)) movable.now }
    requires beside { (doc : Doc ℕ) × IsReadBeside graph.now.given common.now doc
        × AreLeast (look_units (reused_of (docs_of graph.now.given) doc)) classes }
    ensures rows { IfOk result AreRows }
    ensures apart { IfOk result AreApart }
    ensures classes { IfOk result (λ rows. rows.classes ≡ classes) }
    ensures shown { (doc : Doc ℕ) → IsReadBeside graph.now.given common.now doc
        → AreLeast (look_units (reused_of (docs_of graph.now.given) doc)) classes
        → IfOk result (AreLookRows (docs_of graph.now.given) doc movable.now) }
{
    graph.files();
    graph.indexes();
    let parts = common.units.len() as usize;
    let units = tops.files_of_units.len() + parts;
    let of_tops = top_units(alloc, tops)?;
    let unit_tops = unit_tops(alloc, of_tops.as_slice(), movable, units)?;
    let names = space_names(alloc, graph, common, units, parts)?;
    let part_tops = tops_of_parts(alloc, common, tops.rows.len() as u32)?;
    let part_targets = part_targets(alloc, common, parts)?;
    Ok(Rows {
        classes,
        unit_tops,
        unit_names: names.units,
        part_tops,
        part_names: names.parts,
        part_targets,
        names: names.names,
    })
}
