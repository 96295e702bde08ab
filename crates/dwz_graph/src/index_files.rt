//! The indexes of all files of a run.

ghost use Rattle.std.specs.Prelude.{ℕ, List, IfOk};
ghost use Rattle.dwz_graph.specs.Files.{AreKept, docs_of};
ghost use Rattle.dwz_graph.specs.Indexed.{AreIndexes};

use crate::file::File;
use crate::{Index, Starts};
use dwz_model::NoMemory;
use std::alloc::Global;

/// What the entries of each file are, file by file. Units, tops and spaces are numbered from 0 over all files.
pub(crate) fn indexes_of(alloc: Global, files: &[File<'_>]) -> Result<Vec<Index>, NoMemory>
    requires { (contents : List (List ℕ)) × AreKept contents files.now }
    ensures { (contents : List (List ℕ)) → AreKept contents files.now → IfOk result (λ v. AreIndexes (docs_of contents) v.items) }
{
    let mut starts = Starts {
        unit: 0,
        top: 0,
        space: 0,
    };
    let mut indexes = Vec::new(alloc);
    for file in files {
        let index = Index::read(alloc, &file.units, &starts)?;
        starts = index.behind(&file.units);
        indexes.push(index)?;
    }
    Ok(indexes)
}
