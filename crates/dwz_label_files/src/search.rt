//! The file of a top, by its number.

ghost use Rattle.std.specs.Prelude.{◌≡◌, ℕ, ◌-◌, ◌<◌, ◌≤◌, ◌^◌, Some, length, slice_get};
ghost use Rattle.dwz_def_tops.specs.Spots.{tops_of, units_of};
ghost use Rattle.dwz_label_files.specs.Run.{IsInFile, IsRun};
ghost use Rattle.dwz_graph.specs.Files.{docs_of};
ghost use Rattle.dwz_graph.specs.Index.{Index};

use crate::run::{Run, index_at};
use dwz_graph::TopEntry;

/// The number of the file that a top is of, by the top's number among those of all files.
pub(crate) fn file_of(run: &Run, n: usize) -> usize
    requires run { IsRun run.now }
    requires there { n < length (tops_of (units_of (docs_of run.now.graph.now.given))) }
    ensures { IsInFile run.now.files.now run.now.indexes.now result n }
{
    let mut low = 0;
    let mut high = run.indexes.len();
    'halving: while high - low > 1 {
        let middle = low + (high - low) / 2;
        let starts = index_at(run, middle).starts();
        if starts.top as usize <= n {
            low = middle;
        } else {
            high = middle;
        }
    }
    low
}

/// What the file's index gives the top.
pub(crate) fn entry_of(run: &Run, file: usize, n: usize) -> TopEntry
    requires { IsInFile run.now.files.now run.now.indexes.now file n }
    ensures { (x : Index) → slice_get run.now.indexes.now file ≡ Some x → slice_get x.tops (n - x.starts.top) ≡ Some result }
{
    let index = index_at(run, file);
    let first = index.starts().top as usize;
    index.tops()[n - first]
}

/// The number behind that of the last top of a file, by the number of one of its tops.
pub(crate) fn end_of(run: &Run, file: usize, n: usize) -> usize
    requires run { IsRun run.now }
    requires there { IsInFile run.now.files.now run.now.indexes.now file n }
    ensures behind { n < result }
    ensures all { (m : ℕ) → n ≤ m → m < result → IsInFile run.now.files.now run.now.indexes.now file m }
{
    let index = index_at(run, file);
    index.starts().top as usize + index.tops().len()
}

/// How many tops all files have.
pub(crate) fn top_count(run: &Run) -> usize
    requires { IsRun run.now }
    ensures count { result ≡ length (tops_of (units_of (docs_of run.now.graph.now.given))) }
    ensures few { result ≤ 2 ^ 29 }
{
    let count = run.indexes.len();
    if count == 0 {
        return 0;
    }
    let last = index_at(run, count - 1);
    let first = last.starts().top as usize;
    first + last.tops().len()
}
