//! What operands of location lists name.

ghost use Rattle.std.specs.Prelude.{◌≡◌, ℕ, ◌<◌, ◌^◌, List, None, length, map, slice_index_or, IfOk, OnOk, true};
ghost use Rattle.dwz_def_tops.specs.Spots.{EntryName};
ghost use Rattle.dwz_def_reading.specs.Units.{RawUnit, entries_in};
ghost use Rattle.dwz_graph.specs.Index.{IsIndex};
ghost use Rattle.dwz_move_files.specs.Lists.{entries_of, uleb_tops};
ghost use Rattle.dwz_graph.specs.Resolved.{AreEntries};
ghost use Rattle.dwz_move.specs.Known.{tops_of_refs};
ghost use Rattle.dwz_graph.specs.Standing.{NamesEntries};
ghost use Rattle.dwz_move.specs.Marked.{Marks, if_asked};

use dwz_graph::{Index, ListOperand};
use dwz_model::NoMemory;
use dwz_move::{Named, mark, tops_of};
use std::alloc::Global;

// The numbers of the entries that operands name.
fn entries_of(alloc: Global, rows: &[ListOperand]) -> Result<Vec<u32>, NoMemory>
    ensures { IfOk result (λ entries. entries.items ≡ entries_of rows.now) }
{
    rows.iter().map(|row| row.entry).collect(alloc)
}

// The top that stands there, if one does.
#[inline(always)]
fn top_at(tops: &[Option<u32>], k: usize) -> Option<u32>
    ensures { result ≡ slice_index_or tops.now k None }
{
    match tops.get(k) {
        Some(top) => *top,
        None => None,
    }
}

// Marks the top that an operand names, and apart that of a ULEB128 number.
#[inline(always)]
fn mark_top(row: &ListOperand, top: Option<u32>, named: &mut Named)
    ensures any { Marks (if_asked true top) named.old.by_any.items named.new.by_any.items }
    ensures uleb { Marks (if_asked row.now.uleb top) named.old.by_uleb.items named.new.by_uleb.items }
{
    mark(&mut named.by_any, true, top);
    mark(&mut named.by_uleb, row.uleb, top);
}

// Marks these tops, one for each operand: all, and those of ULEB128 numbers.
pub(crate) fn mark_tops(rows: &[ListOperand], tops: &[Option<u32>], named: &mut Named)
    ensures any { length tops.now ≡ length rows.now → Marks tops.now named.old.by_any.items named.new.by_any.items }
    ensures uleb { length tops.now ≡ length rows.now → Marks (uleb_tops rows.now tops.now) named.old.by_uleb.items named.new.by_uleb.items }
{
    for (k, row) in rows.iter().enumerate() {
        mark_top(row, top_at(tops, k), named);
    }
}

// Marks the tops that operands of a file's location lists name.
pub(crate) fn mark_lists(
    alloc: Global,
    index: &Index,
    rows: &[ListOperand],
    named: &mut Named,
) -> Result<(), NoMemory>
    requires { length index.now.steps < 2 ^ 32 }
    ensures any { (raw : List RawUnit) (names : List EntryName) (name : ℕ → EntryName) → IsIndex names index.now
        → length index.now.steps ≡ entries_in raw → NamesEntries raw name names → AreEntries raw (entries_of rows.now)
        → OnOk result (Marks (tops_of_refs name raw (entries_of rows.now)) named.old.by_any.items named.new.by_any.items) }
    ensures uleb { (raw : List RawUnit) (names : List EntryName) (name : ℕ → EntryName) → IsIndex names index.now
        → length index.now.steps ≡ entries_in raw → NamesEntries raw name names → AreEntries raw (entries_of rows.now)
        → OnOk result (Marks (uleb_tops rows.now (tops_of_refs name raw (entries_of rows.now))) named.old.by_uleb.items
        named.new.by_uleb.items) }
{
    let entries = entries_of(alloc, rows)?;
    let tops = tops_of(alloc, index, entries.as_slice())?;
    mark_tops(rows, tops.as_slice(), named);
    Ok(())
}
