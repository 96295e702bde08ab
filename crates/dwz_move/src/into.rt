//! The tops that references go into.

ghost use Rattle.std.specs.Prelude.{◌≡◌, ℕ, ◌<◌, ◌^◌, List, Some, length, slice_get, IfOk};
ghost use Rattle.dwz_def_tops.specs.Spots.{EntryName};
ghost use Rattle.dwz_def_reading.specs.Units.{RawUnit, entries_in};
ghost use Rattle.dwz_graph.specs.Index.{IsIndex};
ghost use Rattle.dwz_graph.specs.Resolved.{AreEntries, place_at};
ghost use Rattle.dwz_graph.specs.Names.{top_in};
ghost use Rattle.dwz_move.specs.Known.{tops_of_refs};
ghost use Rattle.dwz_graph.specs.Standing.{NamesEntries};

use dwz_graph::Index;
use dwz_model::NoMemory;
use std::alloc::Global;

// The top that an entry is in, by its number; none where there is no such entry.
#[inline(always)]
fn top_of(index: &Index, entry: u32) -> Option<u32>
    requires { length index.now.steps < 2 ^ 32 }
    ensures { (names : List EntryName) (s : EntryName) → IsIndex names index.now → entry < length index.now.steps
        → slice_get names entry ≡ Some s
        → result ≡ top_in s }
{
    if entry < index.len() {
        index.top_of(entry)
    } else {
        None
    }
}

/// For each reference of a file, by the number of the entry that it names, the top that it goes into.
pub fn tops_of(alloc: Global, index: &Index, refs: &[u32]) -> Result<Vec<Option<u32>>, NoMemory>
    requires { length index.now.steps < 2 ^ 32 }
    ensures { (raw : List RawUnit) (names : List EntryName) (name : ℕ → EntryName) → IsIndex names index.now
        → length index.now.steps ≡ entries_in raw
        → NamesEntries raw name names → AreEntries raw refs.now → IfOk result (λ into. into.items ≡ tops_of_refs name raw refs.now) }
{
    let mut into = Vec::with_capacity(alloc, refs.len())?;
    for entry in refs {
        into.push(top_of(index, *entry))?;
    }
    Ok(into)
}
