//! Labels of all tops that may move, which tell these apart.

ghost use Rattle.std.specs.Prelude.{◌≡◌, ℕ, ◌+◌, ◌*◌, ◌<◌, ◌≤◌, ◌^◌, Bool, List, IfOk, OnOk, length};
ghost use Rattle.dwz_def_tops.specs.Deciding.{AreMovable};
ghost use Rattle.dwz_def_tops.specs.Spots.{EntryName, FileUnit, tops_of, units_of};
ghost use Rattle.dwz_graph.specs.Files.{docs_of};
ghost use Rattle.dwz_label.specs.Stretches.{before};
ghost use Rattle.dwz_label_files.specs.Marked.{AreStretches, IsStretch, TellFrom};
ghost use Rattle.dwz_label_files.specs.Run.{AreReady, IsRun};
ghost use Rattle.dwz_label_join.specs.Joined.{AreNumbersIn};
ghost use Rattle.dwz_label_marks.specs.Shown.{TellApart};

use crate::run::{Run, run_of};
use crate::search::top_count;
use crate::stretch::{Stretch, stretch_of};
use crate::unit::{UnitRow, unit_rows};
use dwz_graph::Graph;
use dwz_label::Labels;
use dwz_label_join::{join, put_renumbered};
use dwz_label_marks::Names;
use dwz_model::NoMemory;
use rayon::prelude::*;
use std::alloc::Global;
use std::thread::Threads;

// Fewer labels cost less than a thread does.
const MANY: usize = 8192;

// How many labels a stretch has, for so many workers. The last ones may have fewer, or none.
fn stretch_len(count: usize, workers: usize) -> usize
    requires few { count < 2 ^ 32 }
    requires workers { (0 < workers) × (workers ≤ 64) }
    ensures { count ≤ workers * result }
{
    count / workers + 1
}

// Where the stretch with a number begins.
fn begin(count: usize, len: usize, number: usize) -> usize
    ensures { result ≡ before count len number }
{
    count.min(number.saturating_mul(len))
}

// The stretch with a number.
fn nth_stretch(
    run: &Run,
    rows: &[UnitRow],
    movable: &[bool],
    len: usize,
    number: usize,
) -> Result<Stretch, NoMemory>
    requires ready { AreReady run.now rows.now }
    requires movable { length movable.now ≡ length (tops_of (units_of (docs_of run.now.graph.now.given))) }
    requires number { number < 64 }
    ensures { IfOk result (IsStretch (units_of (docs_of run.now.graph.now.given)) movable.now (before (length movable.now) len number)
        (before (length movable.now) len (number + 1))) }
{
    let count = movable.len();
    let first = begin(count, len, number);
    let end = begin(count, len, number + 1);
    stretch_of(run, rows, movable, first, end)
}

// The stretches of the workers, each with names of its own.
fn stretches<R: Threads + Sync>(
    rt: &R,
    run: &Run,
    rows: &[UnitRow],
    movable: &[bool],
    len: usize,
    workers: usize,
) -> Result<Vec<Stretch>, NoMemory>
    requires ready { AreReady run.now rows.now }
    requires movable { length movable.now ≡ length (tops_of (units_of (docs_of run.now.graph.now.given))) }
    requires workers { workers ≤ 64 }
    ensures many { IfOk result (λ parts. length parts.items ≡ workers) }
    ensures each { IfOk result (λ parts. AreStretches (units_of (docs_of run.now.graph.now.given)) movable.now len parts.items) }
{
    let parts: Result<Vec<Stretch>, NoMemory> = (0..workers)
        .into_par_iter()
        .with_min_len(1)
        .map(
            |worker: usize| -> Result<Stretch, NoMemory>
                requires { AreReady run.now rows.now × (length movable.now ≡ length (tops_of (units_of (docs_of run.now.graph.now.given))))
                    × (worker < 64) }
                ensures { IfOk result (IsStretch (units_of (docs_of run.entry.now.graph.now.given)) movable.entry.now
                    (before (length movable.entry.now) len worker) (before (length movable.entry.now) len (worker + 1))) }
            { nth_stretch(run, rows, movable, len, worker) },
        )
        .collect(rt, run.alloc)?;
    parts
}

// Appends labels, told by other names, where their own have those numbers among them.
fn put_labels(
    alloc: Global,
    labels: &mut Labels,
    more: &Labels,
    numbers: &[u32],
) -> Result<(), NoMemory>
    requires { length numbers.now < 2 ^ 32 }
    ensures len { OnOk result (length labels.new ≡ length labels.old + length more.now) }
    ensures told { (units : List (FileUnit EntryName)) (names own : List (List ℕ)) (first : ℕ) → AreNumbersIn own names numbers.now
        → TellFrom units names first labels.old → TellFrom units own (first + length labels.old) more.now
        → OnOk result (TellFrom units names first labels.new) }
{
    let mut label = Vec::new(alloc);
    for n in 0..more.len() {
        label.clear();
        put_renumbered(&mut label, more.get(n), numbers)?;
        labels.push(label.as_slice())?;
    }
    Ok(())
}

// A stretch, and behind it the labels of another, told by the names of the first.
fn with_stretch(alloc: Global, all: Stretch, more: &Stretch) -> Result<Stretch, NoMemory>
    ensures { (units : List (FileUnit EntryName)) (movable : List Bool) (first middle end : ℕ) → IsStretch units movable first middle all
        → IsStretch units movable middle end more.now → IfOk result (IsStretch units movable first end) }
{
    let Stretch {
        mut names,
        mut labels,
    } = all;
    let numbers = join(alloc, &mut names, &more.names)?;
    put_labels(alloc, &mut labels, &more.labels, numbers.as_slice())?;
    Ok(Stretch { names, labels })
}

// All stretches, one behind the other.
fn joined(alloc: Global, parts: &[Stretch]) -> Result<Stretch, NoMemory>
    ensures { (units : List (FileUnit EntryName)) (movable : List Bool) (len : ℕ) → AreStretches units movable len parts.now
        → IfOk result (IsStretch units movable 0 (before (length movable) len (length parts.now))) }
{
    let mut all = Stretch {
        names: Names::new(alloc),
        labels: Labels::new(alloc),
    };
    for part in parts {
        all = with_stretch(alloc, all, part)?;
    }
    Ok(all)
}

// The labels of all tops, as one stretch.
fn whole<R: Threads + Sync>(
    rt: &R,
    run: &Run,
    movable: &[bool],
    count: usize,
    workers: u32,
) -> Result<Stretch, NoMemory>
    requires run { IsRun run.now }
    requires count { count ≡ length movable.now }
    requires few { count < 2 ^ 32 }
    requires movable { length movable.now ≡ length (tops_of (units_of (docs_of run.now.graph.now.given))) }
    requires workers { (0 < workers) × (workers ≤ 64) }
    ensures { IfOk result (IsStretch (units_of (docs_of run.now.graph.now.given)) movable.now 0 (length movable.now)) }
{
    let rows = unit_rows(run)?;
    if workers == 1 || count < MANY {
        return stretch_of(run, rows.as_slice(), movable, 0, count);
    }
    let len = stretch_len(count, workers as usize);
    let parts = stretches(rt, run, rows.as_slice(), movable, len, workers as usize)?;
    joined(run.alloc, parts.as_slice())
}

/// Labels that tell the tops of all files apart that may move, in order, and for each other top no bytes: where `movable` says of each top
/// whether it may move. By at most so many workers: how many there are makes no difference to which labels are equal. There are no more tops
/// than bytes in all files.
pub(crate) fn marked_labels<R: Threads + Sync>(
    rt: &R,
    alloc: Global,
    graph: &Graph,
    movable: &[bool],
    workers: u32,
) -> Result<Labels, NoMemory>
    requires movable { length movable.now ≡ length (tops_of (units_of (docs_of graph.now.given))) }
    requires workers { (0 < workers) × (workers ≤ 64) }
    ensures apart { AreMovable (units_of (docs_of graph.now.given)) movable.now
        → IfOk result (TellApart (units_of (docs_of graph.now.given))) }
    ensures len { IfOk result (λ labels. length labels ≡ length (tops_of (units_of (docs_of graph.now.given)))) }
    ensures few { IfOk result (λ labels. length labels ≤ 2 ^ 29) }
{
    let run = run_of(alloc, graph);
    let count = top_count(&run);
    let Stretch { labels, .. } = whole(rt, &run, movable, count, workers)?;
    Ok(labels)
}
