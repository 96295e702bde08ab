//! What is new in all files, by several threads. Files differ much in size, so each thread has every so many of them. Where there are more
//! workers than files, several make the units of a file.

ghost use Rattle.std.specs.Prelude.{◌≡◌, ◌<◌, ◌≤◌, None, length, map, slice_index_or, IfOk};
ghost use Rattle.std.specs.Thread.{IsSync};
ghost use Rattle.std.specs.Vec.Iter.{into_iter_items};
ghost use Rattle.dwz_def_readback.specs.Files.{CommonFile, Run};
ghost use Rattle.dwz_law_layout.specs.Beside.{Beside};
ghost use Rattle.dwz_law_layout.specs.Facts.{RunFacts, common, run};
ghost use Rattle.dwz_run_files.specs.Lanes.{AreEvery, AreLanes};
ghost use Rattle.dwz_run_files.specs.Works.{AreNewFiles, IsWork};

use crate::sections::new_or_old;
use crate::work::LaidRun;
use dwz_def_output::NewFile;
use dwz_model::NoMemory;
use std::alloc::Global;
use std::collections::VecDeque;
use std::thread;
use std::thread::Threads;
use std::vec::IntoIter;

// What one thread made of its files, in order.
type Lane = IntoIter<Option<NewFile>>;

// The rank of the file with a number, if it is written.
#[inline(always)]
fn rank_at(ranks: &[Option<u32>], number: usize) -> Option<u32>
    ensures { result ≡ slice_index_or ranks.now number None }
{
    match ranks.get(number) {
        Some(rank) => *rank,
        None => None,
    }
}

// What is new in the file with that number, and in every so many files behind it, each by at most so many workers.
fn every<R: Threads + Sync>(
    rt: &R,
    alloc: Global,
    work: &LaidRun,
    first: usize,
    step: usize,
    workers: u32,
) -> Result<Vec<Option<NewFile>>, NoMemory>
    requires work { (beside : Beside) × (f : RunFacts beside) × IsWork f work.now }
    requires step { (0 < step) × (step ≤ 64) }
    ensures { (beside : Beside) (f : RunFacts beside) → IsWork f work.now → IfOk result (λ made. AreEvery (common f) (run f) step first made.items) }
{
    let ranks = work.prepared.ordered.ranks.as_slice();
    let mut made = Vec::with_capacity(alloc, ranks.len().div_ceil(step))?;
    let mut number = first;
    while number < ranks.len() {
        let rank = rank_at(ranks, number);
        let new = new_or_old(rt, alloc, work, number, rank, workers)?;
        made.push(new)?;
        number += step;
    }
    Ok(made)
}

// What so many threads make: the first has the first file, the next the file behind, and each every so many files from there on, each by at
// most so many workers.
fn lanes<R: Threads + Sync>(
    rt: &R,
    alloc: Global,
    work: &LaidRun,
    step: usize,
    workers: u32,
) -> Result<VecDeque<Lane>, NoMemory>
    requires work { (beside : Beside) × (f : RunFacts beside) × IsWork f work.now }
    requires step { (0 < step) × (step ≤ 64) }
    ensures len { IfOk result (λ lanes. length lanes.items ≡ step) }
    ensures each { (beside : Beside) (f : RunFacts beside) → IsWork f work.now → IfOk result (λ lanes. AreLanes (common f) (run f) step 0 (map into_iter_items lanes.items)) }
{
    let each = |first: usize| -> Result<Vec<Option<NewFile>>, NoMemory>
        requires { IsSync R.row × ((beside : Beside) × (f : RunFacts beside) × IsWork f work.now) × ((0 < step) × (step ≤ 64)) }
        ensures { (beside : Beside) (f : RunFacts beside) → IsWork f work.entry.now → IfOk result (λ made. AreEvery (common f) (run f) step first made.items) }
    { every(rt, alloc, work, first, step, workers) };
    let made = thread::map_indices(rt, alloc, step, &each)?;
    let mut lanes = VecDeque::with_capacity(alloc, step)?;
    for lane in made {
        lanes.push_back(lane?.into_iter())?;
    }
    Ok(lanes)
}

// What lanes have of so many files, in order of the files: the lanes take turns.
fn take_turns(
    alloc: Global,
    mut lanes: VecDeque<Lane>,
    count: usize,
) -> Result<Vec<Option<NewFile>>, NoMemory>
    requires lanes { (k : CommonFile) × (r : Run) × AreLanes k r (length lanes.items) 0 (map into_iter_items lanes.items) × (count ≡ length r.files) }
    requires some { 0 < length lanes.items }
    ensures { (k : CommonFile) (r : Run) → AreLanes k r (length lanes.items) 0 (map into_iter_items lanes.items) → count ≡ length r.files
        → IfOk result (λ made. AreNewFiles k r made.items) }
{
    let mut made = Vec::with_capacity(alloc, count)?;
    for _number in 0..count {
        let Some(mut lane) = lanes.pop_front() else {
            unreachable!();
        };
        let Some(new) = lane.next() else {
            unreachable!();
        };
        made.push(new)?;
        lanes.push_back(lane)?;
    }
    Ok(made)
}

/// What is new in each file, by at most so many threads. With one file or one worker no thread is started.
pub(crate) fn new_files<R: Threads + Sync>(
    rt: &R,
    alloc: Global,
    work: &LaidRun,
    workers: u32,
) -> Result<Vec<Option<NewFile>>, NoMemory>
    requires work { (beside : Beside) × (f : RunFacts beside) × IsWork f work.now }
    requires workers { (0 < workers) × (workers ≤ 64) }
    ensures { (beside : Beside) (f : RunFacts beside) → IsWork f work.now → IfOk result (λ made. AreNewFiles (common f) (run f) made.items) }
{
    let count = work.prepared.ordered.ranks.len();
    let step = count.min(workers as usize);
    if step < 2 {
        return every(rt, alloc, work, 0, 1, workers);
    }
    let lanes = lanes(rt, alloc, work, step, workers / step as u32)?;
    take_turns(alloc, lanes, count)
}
