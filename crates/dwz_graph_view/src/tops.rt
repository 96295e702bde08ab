//! The tops in which entries stand, by the places of these, and the ways down to them.

ghost use Rattle.std.specs.Prelude.{◌≡◌, ◌<◌, List, IfOk, IfSome, None, Some, length, reverse, slice_get};
ghost use Rattle.dwz_def_tops.specs.UnitNames.{name_of_place};
ghost use Rattle.dwz_def_reading.specs.Places.{at_file};
ghost use Rattle.dwz_def_tops.specs.Spots.{EntryName};
ghost use Rattle.dwz_graph.specs.Files.{docs_of};
ghost use Rattle.dwz_graph.specs.Index.{IsIndex};
ghost use Rattle.dwz_graph.specs.Names.{path_in, top_in};
ghost use Rattle.dwz_graph_view.specs.TopPaths.{IsNamedBy, path_from_top};

use crate::entry_views::find_entry;
use dwz_graph::{Graph, Index};
use dwz_model::{NoMemory, Numbers, Place};
use std::alloc::Global;

// The index of the file of a place, and the number there of the entry that begins at the place.
fn indexed_at<'a>(graph: &'a Graph<'_>, place: Place) -> Option<(&'a Index, u32)>
    ensures found { IfSome result (λ found. IsNamedBy found.0.now found.1
        (name_of_place (docs_of graph.now.given) (at_file place.file place.offset))) }
    ensures none { result ≡ None → top_in (name_of_place (docs_of graph.now.given) (at_file place.file place.offset)) ≡ None }
{
    let files = graph.files();
    let indexes = graph.indexes();
    if place.file as usize >= files.len() {
        return None;
    }
    let number = find_entry(&files[place.file as usize].units, place.offset)?;
    Some((&indexes[place.file as usize], number))
}

/// The number of the top, among those of all files, in which the entry stands that begins at a place. None exactly where no entry begins
/// there, or where it is a root, a space, or an entry of a type unit.
pub fn top_of(graph: &Graph, place: Place) -> Option<u32>
    ensures { result ≡ top_in (name_of_place (docs_of graph.now.given) (at_file place.file place.offset)) }
{
    let (index, entry) = indexed_at(graph, place)?;
    index.top_of(entry)
}

// The child indexes down to the entry with a number, from its top or from the root of its unit.
fn path_to(alloc: Global, index: &Index, entry: u32) -> Result<Numbers, NoMemory>
    requires { entry < length index.now.steps }
    ensures { (names : List EntryName) (s : EntryName) → IsIndex names index.now → slice_get names entry ≡ Some s
        → IfOk result (λ path. path ≡ reverse (path_in s)) }
{
    let mut path = Vec::new(alloc);
    index.put_path(entry, &mut path)?;
    path.reverse();
    Ok(Numbers::new(path))
}

/// The child indexes from its top down to the entry that begins at a place: the first is one among the children of the top. A top has none.
/// None exactly where `top_of` is.
pub fn path_of(alloc: Global, graph: &Graph, place: Place) -> Result<Option<Numbers>, NoMemory>
    ensures { IfOk result (λ path. path ≡ path_from_top (name_of_place (docs_of graph.now.given) (at_file place.file place.offset))) }
{
    let Some((index, entry)) = indexed_at(graph, place) else {
        return Ok(None);
    };
    if index.top_of(entry).is_none() {
        return Ok(None);
    }
    Ok(Some(path_to(alloc, index, entry)?))
}
