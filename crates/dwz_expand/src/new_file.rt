//! A file whose new units are written.

ghost use Rattle.dwz_expand.specs.OneKnown.{AreSourceFiles, IsOneKnown};
ghost use Rattle.dwz_expand.specs.Plans.{IsPlanOf};
ghost use Rattle.dwz_expand.specs.Units.{IsOfOne};
ghost use Rattle.dwz_graph.specs.declared.file.File.{File};
ghost use Rattle.dwz_graph.specs.Files.{FilesRead, HasCommon};
ghost use Rattle.std.specs.Prelude.{◌≡◌, ℕ, Option};

use crate::files::SourceFiles;
use crate::laws::known_laws;
use crate::plan::Plan;
use dwz_expand_passes::NewFile;
use dwz_graph::placed_laws;
use std::alloc::Global;

/// What is kept of a file and of its common one, with the sources of its new units.
pub(crate) fn new_file<'s, 'a>(
    alloc: Global,
    files: &SourceFiles<'s, 'a>,
    plan: &'s Plan,
) -> NewFile<'s, 'a>
    ensures own { result.own ≡ files.now.own }
    ensures of { (r : FilesRead) (number : ℕ) (own : File) (common : Option File) (k : IsOneKnown r own common files.now)
        → IsPlanOf files.now k.w plan.now → HasCommon number r.common common → AreSourceFiles own common files.now → IsOfOne k.f result }
{
    known_laws();
    placed_laws();
    NewFile {
        alloc,
        own: files.own,
        common: files.common,
        sources: &plan.sources,
    }
}
