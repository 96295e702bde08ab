//! What the references of a common file go into.

ghost use Rattle.std.specs.Prelude.{◌≡◌, ℕ, ◌<◌, List, IfOk, Some, drop, length, slice_get, slice_index};
ghost use Rattle.dwz_check_index.specs.Both.{from_top};
ghost use Rattle.dwz_check_index.specs.Index.{Called, IsCrossIndex, ListedEntry, ShowNames};
ghost use Rattle.dwz_def_reading.specs.Documents.{Doc};
ghost use Rattle.dwz_def_reading.specs.Units.{entries_in};
ghost use Rattle.dwz_def_taken.specs.Beside.{own_tops, reused_of};
ghost use Rattle.dwz_graph.specs.Resolved.{AreEntries};
ghost use Rattle.dwz_reuse.specs.Read.{IsCommonRead};
ghost use Rattle.dwz_reuse.specs.Into.{common_name, top_called};
ghost use Rattle.dwz_move.specs.Known.{tops_of_refs};
ghost use Rattle.dwz_unit.specs.Rows.{units_of};

use dwz_check_index::{CrossIndex, Stands};
use dwz_graph::File;
use dwz_model::NoMemory;
use std::alloc::Global;

// The top that an entry is in, by its number.
fn top_of(index: &CrossIndex, entry: u32) -> Option<u32>
    requires { entry < length index.now.steps }
    ensures { (names : List Called) (entries : List (ListedEntry ℕ)) (name : Called) → ShowNames names entries index.now.steps
        → slice_get names entry ≡ Some name → result ≡ top_called name.1 }
{
    match index.stands(entry) {
        Stands::InTop(top) => Some(top),
        _ => None,
    }
}

/// For each of these entries of a common file the top that it is in, by the file's index, which has the numbers of its tops.
pub(crate) fn tops_into(
    alloc: Global,
    common: &File,
    index: &CrossIndex,
    refs: &[u32],
) -> Result<Vec<Option<u32>>, NoMemory>
    requires steps { length index.now.steps ≡ entries_in (units_of common.now.units) }
    requires entries { AreEntries (units_of common.now.units) refs.now }
    ensures { (docs : List (Doc ℕ)) (doc : Doc ℕ) → IsCommonRead common.now doc
        → IsCrossIndex (from_top (own_tops (reused_of docs doc))) doc.units index.now → IfOk result (λ into. into.items
        ≡ tops_of_refs (common_name docs doc) (units_of common.now.units) refs.now) }
{
    let mut into = Vec::with_capacity(alloc, refs.len())?;
    for entry in refs {
        into.push(top_of(index, *entry))?;
    }
    Ok(into)
}

/// Into what references go, from those of the entry with a number on: where the references of each entry begin is given.
pub(crate) fn from_entry<'a>(into: &'a [Option<u32>], starts: &[u32], i: usize) -> &'a [Option<u32>]
    ensures { result.now ≡ drop (slice_index starts.now i) into.now }
{
    let start = match starts.get(i) {
        Some(start) => *start as usize,
        None => 0,
    };
    match into.get(start..) {
        Some(rest) => rest,
        None => &[],
    }
}
