//! The line tables of partial units.
//!
//! Whether an entry names a path is told by names and forms alone: a file that reads has a path for each number of a file that its line
//! table numbers, and without a table there is only 0.

ghost use Rattle.std.specs.Prelude.{◌≡◌, ◌⊎◌, ℕ, ◌<◌, List, length, slice_get, IfOk};
ghost use Rattle.dwz_def_tops.specs.Spots.{units_of};
ghost use Rattle.dwz_graph.specs.Files.{docs_of};
ghost use Rattle.dwz_def_images.specs.Homes.{Common, Local};
ghost use Rattle.dwz_def_images.specs.Moves.{Move, line_attrs};
ghost use Rattle.dwz_def_images.specs.Plan.{PartialUnit};
ghost use Rattle.dwz_layout_order.specs.Behind.{ArePlannedFirst};
ghost use Rattle.dwz_layout_order.specs.Orders.{ShowsLine};
ghost use Rattle.dwz_layout.specs.declared.order.Sort.TheVariants.{Partial as PartialSort};
ghost use Rattle.dwz_plan.specs.Shows.{shown_part};
ghost use Rattle.dwz_layout_input.specs.Roots.{AreLines, IsOfOneUnit};
ghost use Rattle.dwz_layout_input.specs.Steps.{KnowsTops};

use crate::tops_beside::{any_top_numbers_file, line_of_top};
use dwz_graph::{File, Graph, Index};
use dwz_groups::Tops;
use dwz_model::NoMemory;
use dwz_plan::{Partial, Plan};
use std::alloc::Global;

// The first of numbers.
#[inline(always)]
fn first_of(list: &[u32]) -> Option<u32>
    ensures { result ≡ slice_get list.now 0 }
{
    list.first().copied()
}

// The line table that the root of a partial unit names: none, where no entry of its tops has a path as its file; 0 in the common file; and
// else that of the unit of its tops. All of these are of one unit.
fn part_line(files: &[File], indexes: &[Index], tops: &Tops, part: &Partial) -> Option<u32>
    ensures { (contents : List (List ℕ)) (p : PartialUnit) → KnowsTops contents files.now indexes.now tops.now
        → IsOfOneUnit (units_of (docs_of contents)) p
        → (p.home ≡ Common) ⊎ ((file : ℕ) × (file < length (docs_of contents)) × (p.home ≡ Local file))
        → part.now ≡ shown_part (length (docs_of contents)) p
        → ShowsLine (PartialSort result) (line_attrs (units_of (docs_of contents)) p) }
{
    let list = part.tops.as_slice();
    let first = first_of(list)?;
    let line = line_of_top(files, indexes, tops, first)?;
    if !any_top_numbers_file(files, indexes, tops, list) {
        return None;
    }
    if part.file as usize == files.len() {
        return Some(0);
    }
    Some(line)
}

/// For each partial unit of a plan the offset of the line table that its root names, if it names one.
pub fn part_lines(
    alloc: Global,
    graph: &Graph,
    tops: &Tops,
    plan: &Plan,
) -> Result<Vec<Option<u32>>, NoMemory>
    ensures { (m : Move)
        → ArePlannedFirst m (units_of (docs_of graph.now.given)) (length (docs_of graph.now.given)) tops.now plan.now
        → IfOk result (λ lines. AreLines m (units_of (docs_of graph.now.given)) lines.items) }
{
    let files = graph.files();
    let indexes = graph.indexes();
    let partials = plan.partials();
    let mut lines = Vec::with_capacity(alloc, partials.len())?;
    for part in partials {
        lines.push(part_line(files, indexes, tops, part))?;
    }
    Ok(lines)
}
