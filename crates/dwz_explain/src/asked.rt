//! The files of which something is asked, and entries of them.

ghost use Rattle.std.specs.Prelude.{◌≡◌, ◌<◌, Some, length, slice_get};
ghost use Rattle.dwz_explain.specs.Reached.{IsAsked};
ghost use Rattle.dwz_graph.specs.declared.file.File.{File};
ghost use Rattle.dwz_graph.specs.Files.{docs_of};
ghost use Rattle.dwz_move_files.specs.Outlines.{IsOutline};

use dwz_graph::{File, Graph, Index};
use dwz_groups::Tops;
use dwz_unit::Units;
use std::alloc::Global;

/// The files of a run, as they are kept, with their indexes and the outline of their tops.
#[derive(Clone, Copy)]
pub(crate) struct Asked<'g, 'a> {
    pub alloc: Global,
    /// Clauses see what the files say.
    pub graph: &'g Graph<'a>,
    pub files: &'g [File<'a>],
    pub indexes: &'g [Index],
    pub tops: &'g Tops,
}

/// An entry of one of the files.
#[derive(Clone, Copy)]
pub(crate) struct Spot {
    /// The number of the file.
    pub file: u32,
    /// The number of the entry in the file.
    pub entry: u32,
}

/// The files of a graph, with their indexes and the outline of their tops.
pub(crate) fn asked_of<'g, 'a>(alloc: Global, graph: &'g Graph<'a>, tops: &'g Tops) -> Asked<'g, 'a>
    requires { IsOutline (docs_of graph.now.given) tops.now }
    ensures asked { IsAsked result }
    ensures graph { result.graph.now.given ≡ graph.now.given }
{
    let files = graph.files();
    let indexes = graph.indexes();
    Asked {
        alloc,
        graph,
        files,
        indexes,
        tops,
    }
}

/// The units of the file with a number.
#[inline(always)]
pub(crate) fn units_at<'g, 'a>(run: &Asked<'g, 'a>, file: u32) -> &'g Units<'a>
    requires { file < length run.now.files.now }
    ensures { (f : File) → slice_get run.now.files.now file ≡ Some f → f.units ≡ result.now }
{
    &run.files[file as usize].units
}
