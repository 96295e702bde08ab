//! The first value that can't be copied.

ghost use Rattle.std.specs.Prelude.{ℕ, Option};
ghost use Rattle.dwz_def_cross.specs.Tops.{WithCommon};
ghost use Rattle.dwz_expand.specs.OneKnown.{CanBeLookedUp, IsOneKnown};
ghost use Rattle.dwz_expand.specs.Plans.{AnswersSites, IsPlanOf};
ghost use Rattle.dwz_graph.specs.declared.file.File.{File};
ghost use Rattle.dwz_graph.specs.Files.{FilesRead};

use crate::files::SourceFiles;
use crate::plan::{Plan, entries_of};
use dwz_expand_passes::first_fault;
use dwz_expand_sources::Copies;
use dwz_model::GraphErr;
use std::alloc::Global;

/// The first value that can't be copied into the new units of a file that was read back (DWARF 5, 3.2.5), in the order of units, of entries
/// and of values.
///
/// Refused with the first, in the file with the number 0, or in its common file, which has the number 1. Answers nothing where each can be
/// copied.
pub(crate) fn first_refusal(alloc: Global, files: &SourceFiles, plan: &Plan) -> Result<(), GraphErr>
    requires ready { CanBeLookedUp files.now }
    requires plan { (w : WithCommon ℕ) × IsPlanOf files.now w plan.now }
    ensures { (r : FilesRead) (own : File) (common : Option File) (k : IsOneKnown r own common files.now) → IsPlanOf files.now k.w plan.now
        → AnswersSites k.f result }
{
    let entries = entries_of(files) as usize;
    let mut copies = Copies::of(alloc, &plan.sources, &plan.numbers, entries)?;
    first_fault(
        alloc,
        &files.own,
        &files.common,
        &plan.sources,
        &plan.numbers,
        &mut copies,
    )
}
