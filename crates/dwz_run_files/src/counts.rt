//! The numbers of the units of planned files.

ghost use Rattle.std.specs.Prelude.{◌≡◌, ◌+◌, ◌<◌, ◌^◌, length, map, IfOk};
ghost use Rattle.dwz_def_tops.specs.Spots.{units_of};
ghost use Rattle.dwz_graph.specs.Files.{docs_of};
ghost use Rattle.dwz_unit.specs.Rows.{units_of as raw_units};
ghost use Rattle.dwz_run_files.specs.Numbered.{AreNumbersOf};

use dwz_graph::{File, Graph};
use dwz_layout_numbers::UnitNumbers;
use dwz_model::NoMemory;
use dwz_plan::Plan;
use std::alloc::Global;

// How many units each file has.
fn counts(alloc: Global, files: &[File]) -> Result<Vec<u32>, NoMemory>
    ensures { IfOk result (λ v. v.items ≡ map (λ file. length (raw_units file.units)) files.now) }
{
    files.iter().map(|file| file.units.len()).collect(alloc)
}

/// The numbers of the units that are written, by the plan of the files, with a flag for each file whether it is written: those of the
/// common file come first, and then those of each file that is written, its partial units (DWARF 5, 3.1.2) before its old ones. The only
/// error is that memory ran out.
pub fn number_units(
    alloc: Global,
    graph: &Graph,
    plan: &Plan,
    written: &[bool],
) -> Result<UnitNumbers, NoMemory>
    requires few { length graph.now.given < 2 ^ 32 }
    requires flags { length written.now ≡ length graph.now.given }
    requires numbers { length plan.now.partials + length (units_of (docs_of graph.now.given)) < 2 ^ 32 }
    ensures { IfOk result (λ n. AreNumbersOf (docs_of graph.now.given) plan.now written.now n) }
{
    let counts = counts(alloc, graph.files())?;
    UnitNumbers::make(alloc, plan.partials(), counts.as_slice(), written)
}
