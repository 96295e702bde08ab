//! Units in stretches: those of each are read as if they were the first of a file, by a worker of its own, and are put together in order.
//!
//! All tables that headers name are read before. Where one is refused, or a unit is, or numbers don't fit, all are read one after the other,
//! which finds the first fault of all: only bad input is read twice.

ghost use Rattle.std.specs.Prelude.{◌≡◌, ◌<◌, ◌≤◌, ◌^◌, ℕ, All, IfOk, IfSome, List, length};
ghost use Rattle.dwz_bytes.specs.Input.{input};
ghost use Rattle.dwz_def_reading.specs.Faults.{Answers};
ghost use Rattle.dwz_def_reading.specs.Units.{units_at};
ghost use Rattle.dwz_unit.specs.Modes.{mode_of};
ghost use Rattle.dwz_unit.specs.Rows.{units_of};
ghost use Rattle.dwz_unit.specs.Stretches.{IsReadWhole, IsStretch, IsWhole};
ghost use Rattle.dwz_unit.specs.Tables.{Stored};

use crate::ahead::offsets_in;
use crate::header::u32_at;
use crate::joining::joined;
use crate::mode::{FileKind, Mode};
use crate::reading::unit_by;
use crate::rows::{RawUnit, Row};
use crate::tables::Tables;
use crate::units::Units;
use dwz_model::{NoMemory, ReadErr};
use std::alloc::{AllocError, Global};
use std::thread;
use std::thread::Threads;

// Fewer bytes cost less than threads do.
const MANY: usize = 200_000;

/// Units that stand one behind the other, as if they were the first of a file.
#[derive(Drop)]
pub(crate) struct Stretch {
    /// Where the first of them begins, and the place behind the last.
    pub first: usize,
    pub end: usize,
    pub units: Vec<RawUnit>,
    /// Their entries.
    pub entries: Vec<Row>,
}

// The tables that units name, or nothing, where one isn't a table.
fn all_tables<'a>(
    alloc: Global,
    info: &[u8],
    abbrevs: &'a [u8],
) -> Result<Option<Tables<'a>>, NoMemory>
    ensures { IfOk result (λ all. IfSome all (λ tables. tables.section ≡ abbrevs.now)) }
{
    let offsets = offsets_in(alloc, info)?;
    let mut tables = Tables::new(alloc, info, abbrevs)?;
    for offset in &offsets {
        match tables.number_of(alloc, *offset) {
            Ok(_) => {}
            Err(ReadErr::NoMemory) => return Err(AllocError),
            Err(ReadErr::Refused(_)) => return Ok(None),
        }
    }
    Ok(Some(tables))
}

// Where the first unit begins that doesn't stand before the part with a number, of so many equal parts, as far as lengths of units lead.
fn cut(info: &[u8], number: usize, parts: usize) -> usize
    requires { 0 < parts }
    ensures { result ≤ length info.now }
{
    let place = info.len() as u128 * number as u128 / parts as u128;
    let mut at = 0;
    while (at as u128) < place {
        let rest = info.len() - at;
        if rest < 4 {
            return at;
        }
        let size = u32_at(info, at) as usize + 4;
        if rest < size {
            return at;
        }
        at += size;
    }
    at
}

// The units that begin from one place on, up to another.
fn read_stretch(
    alloc: Global,
    info: &[u8],
    tables: &Tables,
    mode: Mode,
    first: usize,
    end: usize,
) -> Result<Option<Stretch>, NoMemory>
    requires info { length info.now < 2 ^ 32 }
    requires first { first ≤ length info.now }
    requires end { end ≤ length info.now }
    ensures { IfOk result (λ read. IfSome read (IsStretch info.now mode tables.now)) }
{
    let mut units = Vec::new(alloc);
    let mut entries = Vec::new(alloc);
    let mut at = first;
    while at < end {
        let Some(unit) = unit_by(info, at, mode, units.len(), tables, &mut entries) else {
            return Ok(None);
        };
        at = unit.end as usize;
        units.push(unit)?;
    }
    Ok(Some(Stretch {
        first,
        end: at,
        units,
        entries,
    }))
}

// The stretch of a worker, of so many.
fn own_stretch(
    alloc: Global,
    info: &[u8],
    tables: &Tables,
    mode: Mode,
    worker: usize,
    workers: usize,
) -> Result<Option<Stretch>, NoMemory>
    requires info { length info.now < 2 ^ 32 }
    requires worker { worker < workers }
    ensures { IfOk result (λ read. IfSome read (IsStretch info.now mode tables.now)) }
{
    let first = cut(info, worker, workers);
    let end = cut(info, worker + 1, workers);
    read_stretch(alloc, info, tables, mode, first, end)
}

// The stretches of all workers.
fn all_stretches<R: Threads + Sync>(
    rt: &R,
    alloc: Global,
    info: &[u8],
    tables: &Tables,
    mode: Mode,
    workers: usize,
) -> Result<Vec<Result<Option<Stretch>, NoMemory>>, NoMemory>
    requires { length info.now < 2 ^ 32 }
    ensures { IfOk result (λ all. All (λ one. IfOk one (λ read. IfSome read (IsStretch info.now mode tables.now))) all.items) }
{
    let each = |worker: usize| -> Result<Option<Stretch>, NoMemory>
        requires { (worker < workers) × (length info.now < 2 ^ 32) }
        ensures { IfOk result (λ read. IfSome read (IsStretch info.entry.now mode tables.entry.now)) }
    { own_stretch(alloc, info, tables, mode, worker, workers) };
    thread::map_indices(rt, alloc, workers, &each)
}

// A stretch behind those that were put together before it.
fn behind(front: Option<Stretch>, next: Stretch, mode: Mode) -> Result<Option<Stretch>, NoMemory>
    ensures { (info : List ℕ) (s : Stored) → IfSome front (IsStretch info mode s) → IsStretch info mode s next
        → IfOk result (λ both. IfSome both (IsStretch info mode s)) }
{
    match front {
        None => Ok(Some(next)),
        Some(front) => joined(front, next, mode),
    }
}

// Stretches as one, if all were read, and each begins where the one before it ends.
fn together(
    all: Vec<Result<Option<Stretch>, NoMemory>>,
    mode: Mode,
) -> Result<Option<Stretch>, NoMemory>
    ensures { (info : List ℕ) (s : Stored) → All (λ one. IfOk one (λ read. IfSome read (IsStretch info mode s))) all.items
        → IfOk result (λ whole. IfSome whole (IsStretch info mode s)) }
{
    let mut whole = None;
    for one in all {
        let Ok(read) = one else {
            return Ok(None);
        };
        let Some(next) = read else {
            return Ok(None);
        };
        let Some(both) = behind(whole, next, mode)? else {
            return Ok(None);
        };
        whole = Some(both);
    }
    Ok(whole)
}

// The stretch of all units, read by so many workers; or nothing, where they are to be read by one.
fn whole_stretch<R: Threads + Sync>(
    rt: &R,
    alloc: Global,
    info: &[u8],
    tables: &Tables,
    mode: Mode,
    workers: usize,
) -> Result<Option<Stretch>, NoMemory>
    requires { length info.now < 2 ^ 32 }
    ensures { IfOk result (λ whole. IfSome whole (IsWhole info.now mode tables.now)) }
{
    let all = all_stretches(rt, alloc, info, tables, mode, workers)?;
    let Some(whole) = together(all, mode)? else {
        return Ok(None);
    };
    if whole.first != 0 || whole.end != info.len() {
        return Ok(None);
    }
    Ok(Some(whole))
}

// All units, read by so many workers; or nothing, where they are to be read by one.
fn read_whole<'a, R: Threads + Sync>(
    rt: &R,
    alloc: Global,
    info: &'a [u8],
    abbrevs: &'a [u8],
    mode: Mode,
    workers: usize,
) -> Result<Option<Units<'a>>, NoMemory>
    requires info { length info.now < 2 ^ 32 }
    requires abbrevs { length abbrevs.now < 2 ^ 32 }
    ensures { IfOk result (λ whole. IfSome whole (IsReadWhole info.now abbrevs.now mode)) }
{
    let Some(tables) = all_tables(alloc, info, abbrevs)? else {
        return Ok(None);
    };
    let Some(whole) = whole_stretch(rt, alloc, info, &tables, mode, workers)? else {
        return Ok(None);
    };
    let Stretch { units, entries, .. } = whole;
    let all = Units::kept(alloc, info, abbrevs, mode, tables, units, entries)?;
    Ok(Some(all))
}

impl<'a> Units<'a> {
    /// Reads all units of a file of that kind, by so many workers where there are many bytes. Refused with the first fault, as `read`,
    /// `read_common` and `read_back` are, for any number of workers.
    pub fn read_by<R: Threads + Sync>(
        rt: &R,
        alloc: Global,
        info: &'a [u8],
        abbrevs: &'a [u8],
        kind: FileKind,
        room: u32,
        workers: u32,
    ) -> Result<Units<'a>, ReadErr>
        requires info { length info.now < 2 ^ 32 }
        requires abbrevs { length abbrevs.now < 2 ^ 32 }
        ensures answers { Answers units_of result (units_at abbrevs.now (mode_of kind room) 0 (input info.now 0)) }
        ensures source { IfOk result (λ units. units ≡ record { info = info.now; abbrevs = abbrevs.now; kind = kind; room = room }) }
    {
        let mode = Mode { kind, room };
        if workers > 1 && info.len() >= MANY {
            if let Ok(Some(units)) = read_whole(rt, alloc, info, abbrevs, mode, workers as usize) {
                return Ok(units);
            }
        }
        Units::read_all(alloc, info, abbrevs, mode)
    }
}
