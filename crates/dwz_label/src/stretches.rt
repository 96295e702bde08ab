//! Labels by several workers: each writes stretches of them, and these are put one behind the other.

ghost use Rattle.std.specs.Prelude.{◌≡◌, ℕ, ◌+◌, ◌*◌, ◌<◌, ◌≤◌, length, map, slice_index_or, IfOk};
ghost use Rattle.std.specs.List.{range_with_len};
ghost use Rattle.dwz_label.specs.Stretches.{AreStretches, AreStretchesOf, front, stretch_of};

use crate::labels::Labels;
use crate::writer::LabelWriter;
use dwz_model::NoMemory;
use rayon::prelude::*;
use std::alloc::Global;
use std::thread::Threads;

// How many stretches each worker writes. Tops differ much in size, and those of one kind stand together: so each worker takes its
// stretches from all over.
const TURNS: usize = 16;

// Fewer labels cost less than a thread does.
const MANY: usize = 8192;

// How many labels a stretch has, for so many workers. The last ones may have fewer, or none.
fn stretch_len(count: usize, workers: usize) -> usize
    requires { (0 < workers) × (workers ≤ 64) }
    ensures { count ≤ 16 * workers * result }
{
    count / (TURNS * workers) + 1
}

// The labels of the stretch with a number.
fn stretch<W: LabelWriter>(
    alloc: Global,
    writer: &W,
    room: &mut W::Scratch,
    count: usize,
    len: usize,
    number: usize,
) -> Result<Labels, NoMemory>
    requires { count ≤ W.count writer.now }
    ensures { IfOk result (λ labels. labels ≡ stretch_of (W.label writer.now) count len number) }
{
    let first = count.min(number.saturating_mul(len));
    let end = count.min(first.saturating_add(len));
    Labels::from_writer(alloc, writer, room, first, end)
}

// The labels of the stretches of one worker, in order.
fn own_stretches<W: LabelWriter>(
    alloc: Global,
    writer: &W,
    count: usize,
    len: usize,
    workers: usize,
    worker: usize,
) -> Result<Vec<Labels>, NoMemory>
    requires within { count ≤ W.count writer.now }
    requires worker { (worker < workers) × (workers ≤ 64) }
    ensures { IfOk result (λ parts. AreStretchesOf (W.label writer.now) count len workers worker parts.items) }
{
    let mut room = writer.room();
    let mut parts = Vec::with_capacity(alloc, TURNS)?;
    for turn in 0..TURNS {
        let number = turn * workers + worker;
        parts.push(stretch(alloc, writer, &mut room, count, len, number)?)?;
    }
    Ok(parts)
}

// The labels of the stretches of each worker.
fn all_stretches<R: Threads + Sync, W: LabelWriter + Sync>(
    rt: &R,
    alloc: Global,
    writer: &W,
    count: usize,
    len: usize,
    workers: usize,
) -> Result<Vec<Vec<Labels>>, NoMemory>
    requires within { count ≤ W.count writer.now }
    requires workers { workers ≤ 64 }
    ensures many { IfOk result (λ parts. length parts.items ≡ workers) }
    ensures each { IfOk result (λ parts. AreStretches (W.label writer.now) count len parts.items) }
{
    let parts: Result<Vec<Vec<Labels>>, NoMemory> = (0..workers)
        .into_par_iter()
        .with_min_len(1)
        .map(
            |worker: usize| -> Result<Vec<Labels>, NoMemory>
                requires { (count ≤ W.count writer.now) × (worker < workers) × (workers ≤ 64) }
                ensures { IfOk result (λ parts. AreStretchesOf (W.label writer.entry.now) count len workers worker parts.items) }
            { own_stretches(alloc, writer, count, len, workers, worker) },
        )
        .collect(rt, alloc)?;
    parts
}

// How many bytes labels have together, where so many bytes can be.
fn size(parts: &[Vec<Labels>]) -> usize {
    let mut size = 0usize;
    for part in parts {
        for labels in part {
            size = size.saturating_add(labels.size());
        }
    }
    size
}

// Labels, and behind them those of one more stretch of each worker.
fn with_turn(labels: Labels, parts: &[Vec<Labels>], turn: usize) -> Result<Labels, NoMemory>
    requires turn { turn < 16 }
    requires turns { (k : ℕ) (d : _) → k < length parts.now → length (slice_index_or parts.now k d).items ≡ 16 }
    ensures { (label : ℕ → _) (count len : ℕ) → AreStretches label count len parts.now
        → labels ≡ front label count len (turn * length parts.now)
        → IfOk result (λ all. all ≡ front label count len ((turn + 1) * length parts.now)) }
{
    let mut all = labels;
    for part in parts {
        all = all.with(&part[turn])?;
    }
    Ok(all)
}

// The labels of all stretches, in order: the first ones of each worker, the second ones, and so on.
fn join_stretches(alloc: Global, parts: &[Vec<Labels>], count: usize) -> Result<Labels, NoMemory>
    requires { (k : ℕ) (d : _) → k < length parts.now → length (slice_index_or parts.now k d).items ≡ 16 }
    ensures { (label : ℕ → _) (total len : ℕ) → AreStretches label total len parts.now
        → IfOk result (λ all. all ≡ front label total len (16 * length parts.now)) }
{
    let mut all = Labels::with_capacity(alloc, count, size(parts))?;
    for turn in 0..TURNS {
        all = with_turn(all, parts, turn)?;
    }
    Ok(all)
}

/// The first `count` labels of a writer, in order, by at most so many workers, each on a thread of its own. How many there are, and in
/// which order they work, makes no difference.
pub fn labels_by<R: Threads + Sync, W: LabelWriter + Sync>(
    rt: &R,
    alloc: Global,
    workers: u32,
    writer: &W,
    count: usize,
) -> Result<Labels, NoMemory>
    requires within { count ≤ W.count writer.now }
    requires workers { (0 < workers) × (workers ≤ 64) }
    ensures { IfOk result (λ labels. labels ≡ map (W.label writer.now) (range_with_len 0 count)) }
{
    if workers == 1 || count < MANY {
        return Labels::from_writer(alloc, writer, &mut writer.room(), 0, count);
    }
    let len = stretch_len(count, workers as usize);
    let parts = all_stretches(rt, alloc, writer, count, len, workers as usize)?;
    join_stretches(alloc, parts.as_slice(), count)
}
