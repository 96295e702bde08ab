//! Entries counted over all files: those of a file begin where those before it end.

ghost use Rattle.std.specs.Prelude.{◌≡◌, ◌+◌, ◌<◌, ◌^◌, ◌++◌, All, length, min, sum_by, IfOk, OnOk};
ghost use Rattle.dwz_graph.specs.EntryCounts.{entry_count, starts_from, tops_from, tops_in};

use dwz_graph::{Index, TopEntry};
use dwz_model::NoMemory;
use std::alloc::Global;

/// For each file the number of its first entry among those of all.
pub fn starts(alloc: Global, indexes: &[Index]) -> Result<Vec<u32>, NoMemory>
    requires { entry_count indexes.now < 2 ^ 32 }
    ensures { IfOk result (λ v. v.items ≡ starts_from 0 indexes.now) }
{
    let mut starts = Vec::with_capacity(alloc, indexes.len())?;
    let mut start = 0;
    for index in indexes {
        starts.push(start)?;
        start += index.len();
    }
    Ok(starts)
}

// Adds the numbers of a file's tops, whose first entry has that number.
fn add_tops(tops: &mut Vec<u32>, start: u32, entries: &[TopEntry]) -> Result<(), NoMemory>
    requires { All (λ t. start + t.entry < 2 ^ 32) entries.now }
    ensures { OnOk result (tops.new.items ≡ tops.old.items ++ tops_in start entries.now) }
{
    for top in entries {
        tops.push(start + top.entry)?;
    }
    Ok(())
}

/// How many tops files have, as long as their number has eight bytes.
pub fn count_tops(indexes: &[Index]) -> usize
    ensures { result ≡ min (sum_by (λ x. length x.tops) indexes.now) usize.MAX }
{
    let mut count = 0usize;
    for index in indexes {
        count = count.saturating_add(index.tops().len());
    }
    count
}

/// How many entries files have.
pub fn count_entries(indexes: &[Index]) -> u32
    requires { entry_count indexes.now < 2 ^ 32 }
    ensures { result ≡ entry_count indexes.now }
{
    let mut count = 0;
    for index in indexes {
        count += index.len();
    }
    count
}

/// For each top the number of its entry among those of all files.
pub fn tops(alloc: Global, indexes: &[Index]) -> Result<Vec<u32>, NoMemory>
    requires few { entry_count indexes.now < 2 ^ 32 }
    requires inside { All (λ x. All (λ t. t.entry < length x.steps) x.tops) indexes.now }
    ensures { IfOk result (λ v. v.items ≡ tops_from 0 indexes.now) }
{
    let mut tops = Vec::with_capacity(alloc, count_tops(indexes))?;
    let mut start = 0;
    for index in indexes {
        add_tops(&mut tops, start, index.tops())?;
        start += index.len();
    }
    Ok(tops)
}
