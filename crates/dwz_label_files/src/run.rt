//! The files of a run, with their indexes.

ghost use Rattle.std.specs.Prelude.{◌≡◌, ◌<◌, Some, length, slice_get};
ghost use Rattle.dwz_label_files.specs.Run.{IsRun};

use dwz_graph::{File, Graph, Index};
use std::alloc::Global;

/// The files of a run, as they are kept, with their indexes.
#[derive(Clone, Copy)]
pub(crate) struct Run<'g, 'a> {
    pub alloc: Global,
    /// Clauses see what the files say.
    pub graph: &'g Graph<'a>,
    pub files: &'g [File<'a>],
    pub indexes: &'g [Index],
}

/// The files of a graph, with their indexes.
pub(crate) fn run_of<'g, 'a>(alloc: Global, graph: &'g Graph<'a>) -> Run<'g, 'a>
    ensures run { IsRun result }
    ensures graph { result.graph.now.given ≡ graph.now.given }
{
    let files = graph.files();
    let indexes = graph.indexes();
    Run {
        alloc,
        graph,
        files,
        indexes,
    }
}

/// The file with a number.
#[inline(always)]
pub(crate) fn file_at<'g, 'a>(run: &Run<'g, 'a>, file: usize) -> &'g File<'a>
    requires { file < length run.now.files.now }
    ensures { slice_get run.now.files.now file ≡ Some result.now }
{
    &run.files[file]
}

/// Its index.
#[inline(always)]
pub(crate) fn index_at<'g>(run: &Run<'g, '_>, file: usize) -> &'g Index
    requires { file < length run.now.indexes.now }
    ensures { slice_get run.now.indexes.now file ≡ Some result.now }
{
    &run.indexes[file]
}
