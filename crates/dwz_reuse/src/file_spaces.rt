//! The spaces of the units of all files.

ghost use Rattle.std.specs.Prelude.{◌≡◌, ℕ, ◌+◌, List, None, IfOk, OnOk, [], length};
ghost use Rattle.dwz_def_tops.specs.Spots.{units_of};
ghost use Rattle.dwz_check_sides.specs.Names.{AreApart, Keeps};
ghost use Rattle.dwz_graph.specs.Files.{AreKept, docs_of};
ghost use Rattle.dwz_graph.specs.Index.{Index};
ghost use Rattle.dwz_graph.specs.Indexed.{AreIndexes};
ghost use Rattle.dwz_graph.specs.Few.{entries_in_files};
ghost use Rattle.dwz_reuse.specs.FileSpaces.{AreUnitSpaces, HaveIndexes};

use crate::spaces::put_spaces;
use dwz_check_index::{CrossIndex, CrossStarts};
use dwz_check_sides::{NameLists, Side, list_number_laws};
use dwz_graph::File;
use dwz_groups::Edge;
use dwz_model::NoMemory;
use std::alloc::Global;

/// What the entries of each file are called, where its first top and its first root have the number 0.
pub(crate) fn file_names(alloc: Global, files: &[File]) -> Result<Vec<CrossIndex>, NoMemory>
    requires { (contents : List (List ℕ)) × AreKept contents files.now }
    ensures { IfOk result (λ indexes. HaveIndexes files.now (length files.now) indexes.items) }
{
    let starts = CrossStarts { top: 0, lone: 0 };
    let mut indexes = Vec::new(alloc);
    for file in files {
        indexes.push(CrossIndex::read(alloc, &file.units, &starts)?)?;
    }
    Ok(indexes)
}

// The side of a file that was read by itself.
pub(crate) fn side_of<'f, 'a>(file: &'f File<'a>, index: &'f CrossIndex) -> Side<'f, 'a>
    ensures { (result.file.now ≡ file.now) × (result.common ≡ None) × (result.index.now ≡ index.now) }
{
    Side {
        file,
        common: None,
        index,
    }
}

/// Adds the numbers of the name lists of the spaces of all units of files, each under the number that its unit has among those of all
/// files; those of type units aren't added. The first new number is 1; gives the one behind the last.
pub(crate) fn put_file_spaces<'f>(
    alloc: Global,
    files: &'f [File<'_>],
    indexes: &'f [CrossIndex],
    known: &mut NameLists<'f>,
    edges: &mut Vec<Edge>,
) -> Result<u32, NoMemory>
    requires { (contents : List (List ℕ)) × (all : List Index) × AreKept contents files.now × AreIndexes (docs_of contents) all
        × HaveIndexes files.now (length files.now) indexes.now }
    ensures next { IfOk result (λ next. next ≡ 1 + entries_in_files files.now) }
    ensures apart { AreApart known.old 1 → IfOk result (λ next. AreApart known.new next) }
    ensures spaces { (contents : List (List ℕ)) (all : List Index) → AreKept contents files.now → AreIndexes (docs_of contents) all
        → AreApart known.old 1 → edges.old.items ≡ []
        → OnOk result (AreUnitSpaces known.new (units_of (docs_of contents)) (length (units_of (docs_of contents))) edges.new.items) }
{
    list_number_laws();
    let mut next = 1;
    let mut first = 0;
    for (number, file) in files.iter().enumerate() {
        let side = side_of(file, &indexes[number]);
        put_spaces(alloc, &side, known, next, first, edges)?;
        next += file.units.entries();
        first += file.units.len();
    }
    Ok(next)
}
