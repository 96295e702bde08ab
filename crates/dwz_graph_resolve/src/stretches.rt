//! Units in stretches: what the values of each name is read as if it were alone, by a worker of its own, and is put together in order.
//!
//! Where one is refused, or numbers don't fit, all are read one after the other, which finds the first fault of all: only bad input is read
//! twice.

ghost use Rattle.std.specs.Prelude.{◌≡◌, ◌<◌, ◌≤◌, ◌^◌, All, IfErr, IfOk, IfSome, length, slice_range};
ghost use Rattle.dwz_def_reading.specs.Faults.{Fails};
ghost use Rattle.dwz_graph_resolve.specs.Named.{units_named};
ghost use Rattle.dwz_graph_resolve.specs.Stretches.{IsStretch, IsWhole};
ghost use Rattle.dwz_graph_resolve.specs.Surroundings.{around_in, common_view, entries_among};
ghost use Rattle.dwz_unit.specs.Rows.{units_of};

use crate::hints::Hints;
use crate::joining::joined;
use crate::lists::Lists;
use crate::named::add_units;
use crate::parts::Parts;
use crate::state::State;
use crate::surroundings::Surroundings;
use dwz_lines::TableRows;
use dwz_model::{NoMemory, ReadErr};
use dwz_unit::Units;
use std::alloc::Global;
use std::thread;
use std::thread::Threads;

// Fewer entries cost less than a thread does.
const MANY: u32 = 10_000;

/// What the values of units name that stand one behind the other.
#[derive(Drop)]
pub(crate) struct Stretch<'a> {
    /// The number of the first unit, and the number behind that of the last.
    pub first: u32,
    pub end: u32,
    /// The numbers of the entries that they name.
    pub refs: Vec<u32>,
    /// Where the references of each entry begin, and behind the last one where they end.
    pub starts: Vec<u32>,
    /// The line tables whose files are numbered, each once.
    pub tables: Vec<TableRows<'a>>,
    /// For each unit the number of its line table.
    pub lines: Vec<Option<usize>>,
    /// The location lists that they name.
    pub lists: Lists,
}

/// What the values of the units from one number to before another name. Refused with the first fault of what they mean.
pub(crate) fn read_stretch<'a>(
    alloc: Global,
    file: u32,
    units: &Units,
    around: &Surroundings<'a, '_>,
    first: u32,
    end: u32,
) -> Result<Stretch<'a>, ReadErr>
    requires units { (first ≤ end) × (end ≤ length (units_of units.now)) }
    requires room { entries_among (common_view around.now.common) (units_of units.now) < 2 ^ 32 }
    ensures first { IfOk result (λ x. x.first ≡ first) }
    ensures end { IfOk result (λ x. x.end ≡ end) }
    ensures ok { IfOk result (IsStretch around.now (units_of units.now) file) }
    ensures err { IfErr result (λ e. Fails e (units_named (around_in around.now (units_of units.now)) (slice_range (units_of units.now) first end))) }
{
    let hints = Hints::new(alloc)?;
    let mut state = State::new(alloc, file, hints);
    let mut parts = Parts::new(alloc)?;
    add_units(units, around, first, end, &mut state, &mut parts)?;
    let files = state.files;
    Ok(Stretch {
        first,
        end,
        refs: state.refs,
        starts: parts.starts,
        tables: files.tables,
        lines: parts.lines,
        lists: state.lists,
    })
}

// Where the stretch with a number begins, of so many of about equal numbers of entries.
fn cut(units: &Units, number: usize, workers: usize) -> u32
    requires { 0 < workers }
    ensures { result ≤ length (units_of units.now) }
{
    let before = units.entries() as u128 * number as u128 / workers as u128;
    let mut low = 0;
    let mut high = units.len();
    while low < high {
        let middle = low + (high - low) / 2;
        if (units.unit(middle).first as u128) < before {
            low = middle + 1;
        } else {
            high = middle;
        }
    }
    low
}

// The stretch of a worker.
fn own_stretch<'a>(
    alloc: Global,
    file: u32,
    units: &Units,
    around: &Surroundings<'a, '_>,
    worker: usize,
    workers: usize,
) -> Result<Stretch<'a>, ReadErr>
    requires worker { worker < workers }
    requires room { entries_among (common_view around.now.common) (units_of units.now) < 2 ^ 32 }
    ensures { IfOk result (IsStretch around.now (units_of units.now) file) }
{
    let end = cut(units, worker + 1, workers);
    let first = cut(units, worker, workers).min(end);
    read_stretch(alloc, file, units, around, first, end)
}

// The stretches of all workers.
fn all_stretches<'a, R: Threads + Sync>(
    rt: &R,
    alloc: Global,
    file: u32,
    units: &Units,
    around: &Surroundings<'a, '_>,
    workers: usize,
) -> Result<Vec<Result<Stretch<'a>, ReadErr>>, NoMemory>
    requires { entries_among (common_view around.now.common) (units_of units.now) < 2 ^ 32 }
    ensures { IfOk result (λ all. All (λ one. IfOk one (IsStretch around.now (units_of units.now) file)) all.items) }
{
    let each = |worker: usize| -> Result<Stretch, ReadErr>
        requires { (worker < workers) × (entries_among (common_view around.now.common) (units_of units.now) < 2 ^ 32) }
        ensures { IfOk result (IsStretch around.entry.now (units_of units.entry.now) file) }
    { own_stretch(alloc, file, units, around, worker, workers) };
    thread::map_indices(rt, alloc, workers, &each)
}

// A stretch behind those that were put together before it.
fn behind<'a>(
    front: Option<Stretch<'a>>,
    next: Stretch<'a>,
) -> Result<Option<Stretch<'a>>, NoMemory>
    ensures { (s : _) (raw : _) (file : _) → IfSome front.entry (IsStretch s raw file) → IsStretch s raw file next.entry
        → IfOk result (λ both. IfSome both (IsStretch s raw file)) }
{
    match front {
        None => Ok(Some(next)),
        Some(front) => joined(front, next),
    }
}

// Stretches as one, if none was refused, and each begins where the one before it ends.
fn together<'a>(all: Vec<Result<Stretch<'a>, ReadErr>>) -> Result<Option<Stretch<'a>>, NoMemory>
    ensures { (s : _) (raw : _) (file : _) → All (λ one. IfOk one (IsStretch s raw file)) all.entry.items
        → IfOk result (λ whole. IfSome whole (IsStretch s raw file)) }
{
    let mut whole = None;
    for one in all {
        let Ok(next) = one else {
            return Ok(None);
        };
        let Some(both) = behind(whole, next)? else {
            return Ok(None);
        };
        whole = Some(both);
    }
    Ok(whole)
}

// What the values of all units name, read by so many workers; or nothing, where that is to be read by one.
fn read_whole<'a, R: Threads + Sync>(
    rt: &R,
    alloc: Global,
    file: u32,
    units: &Units,
    around: &Surroundings<'a, '_>,
    workers: usize,
) -> Result<Option<Stretch<'a>>, NoMemory>
    requires { entries_among (common_view around.now.common) (units_of units.now) < 2 ^ 32 }
    ensures { IfOk result (λ whole. IfSome whole (IsWhole around.now (units_of units.now) file)) }
{
    let all = all_stretches(rt, alloc, file, units, around, workers)?;
    let Some(whole) = together(all)? else {
        return Ok(None);
    };
    if whole.first != 0 || whole.end != units.len() {
        return Ok(None);
    }
    Ok(Some(whole))
}

/// What the values of all units name, read by so many workers where there are many entries. Refused with the first fault of what they mean.
pub(crate) fn read_by_workers<'a, R: Threads + Sync>(
    rt: &R,
    alloc: Global,
    file: u32,
    units: &Units,
    around: &Surroundings<'a, '_>,
    workers: u32,
) -> Result<Stretch<'a>, ReadErr>
    requires { entries_among (common_view around.now.common) (units_of units.now) < 2 ^ 32 }
    ensures ok { IfOk result (IsWhole around.now (units_of units.now) file) }
    ensures err { IfErr result (λ e. Fails e (units_named (around_in around.now (units_of units.now)) (units_of units.now))) }
{
    let workers = workers.min(units.len());
    if workers > 1 && units.entries() >= MANY {
        if let Ok(Some(whole)) = read_whole(rt, alloc, file, units, around, workers as usize) {
            return Ok(whole);
        }
    }
    read_all(alloc, file, units, around)
}

/// What the values of all units name. Refused with the first fault of what they mean.
pub(crate) fn read_all<'a>(
    alloc: Global,
    file: u32,
    units: &Units,
    around: &Surroundings<'a, '_>,
) -> Result<Stretch<'a>, ReadErr>
    requires { entries_among (common_view around.now.common) (units_of units.now) < 2 ^ 32 }
    ensures ok { IfOk result (IsWhole around.now (units_of units.now) file) }
    ensures err { IfErr result (λ e. Fails e (units_named (around_in around.now (units_of units.now)) (units_of units.now))) }
{
    read_stretch(alloc, file, units, around, 0, units.len())
}
