//! From a graph to new sections.

ghost use Rattle.std.specs.Prelude.{◌≡◌, length};
ghost use Rattle.dwz_expand.specs.Expanded.{AnswersExpand};

use crate::files::{SourceFiles, UnitHeres};
use crate::laws::{known_laws, listed_laws};
use crate::new_file::new_file;
use crate::plan::Plan;
use crate::refusal::first_refusal;
use crate::sections::sections_of;
use dwz_graph::Graph;
use dwz_model::{GraphErr, Sections};
use std::alloc::Global;

/// The new sections of the one file of a graph that was read back, with its common file or without one, as it is written without its
/// partial units (DWARF 5, 3.2.5). None stands for a section that isn't there or keeps its bytes.
///
/// Refused with the first of these, in the file with the number 0, or in its common file, which has the number 1: the first value that
/// can't be copied, as `NotImported` where it names an entry of which the new file has no copy, and as `NoRow` where the line table of the
/// new unit has no row for a file; else the first operand whose new number needs more bytes than it has, as `OperandWidth`, in the values
/// of the file, in its location lists, or in the values of its common file; else the first new section that has 2^32 - 16 bytes or more, as
/// `TooLarge`.
pub fn expand(alloc: Global, graph: &Graph) -> Result<Sections, GraphErr>
    requires one { length graph.now.back ≡ 1 }
    ensures { AnswersExpand graph.now result }
{
    known_laws();
    listed_laws();
    let own = &graph.back()[0];
    let common = graph.common();
    let heres = UnitHeres::of(alloc, own, common)?;
    let files = SourceFiles::of(own, common, &heres);
    let plan = Plan::of(alloc, own, common, &files)?;
    first_refusal(alloc, &files, &plan)?;
    let file = new_file(alloc, &files, &plan);
    sections_of(own, &file)
}
