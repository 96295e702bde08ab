//! Files that are read ahead of their turn, by several workers.
//!
//! What the files before it leave of the limits isn't known yet, so a file is read as if all entries were left to it. What it says doesn't
//! depend on that where enough is left. One for which too little is left, or that is refused, is read again in its turn, so that each fault
//! is that of its turn: only bad input is read twice.

ghost use Rattle.std.specs.Thread.{IsSync};
ghost use Rattle.std.specs.Prelude.{◌≡◌, ℕ, ◌<◌, ◌^◌, true, All, IfOk, IfSome, length, map};
ghost use Rattle.dwz_def_reading.specs.ElfReading.{elf_of};
ghost use Rattle.dwz_graph.specs.Ahead.{AreAhead, IsAhead, IsEnough, IsFound};
ghost use Rattle.dwz_graph.specs.Files.{ReadsFile, limits_view};
ghost use Rattle.dwz_unit.specs.Rows.{units_of};

use crate::file::{
    Budget, File, LONGEST_FILES, MOST_ENTRIES, is_other_machine, is_too_long, read_file,
};
use dwz_model::{NoMemory, ReadErr};
use std::alloc::Global;
use std::sync::atomic::{AtomicU64, Ordering};
use std::thread;
use std::thread::Threads;

// A file that is to be read: its number, its length, and how many bytes the files before it leave.
#[derive(Clone, Copy)]
struct Job {
    number: u32,
    len: usize,
    left: usize,
}

// A file that was read, and its number.
#[derive(Drop)]
pub(crate) struct Found<'a> {
    number: u32,
    file: File<'a>,
}

// There are fewer jobs.
const MANY_JOBS: u64 = 1 << 32;

// How many jobs the workers have drawn, and how many entries they have read.
#[derive(Drop)]
struct Progress {
    drawn: AtomicU64,
    entries: AtomicU64,
}

impl Progress {
    fn new() -> Progress {
        Progress {
            drawn: AtomicU64::new(0),
            entries: AtomicU64::new(0),
        }
    }

    // The place of one of so many jobs, which no other worker draws, until there are too many entries.
    fn draw(&self, jobs: usize) -> Option<usize>
        ensures { IfSome result (λ at. at < jobs) }
    {
        let drawn = self.drawn.fetch_add(1, Ordering::SeqCst);
        let entries = self.entries.load(Ordering::SeqCst);
        if drawn < jobs as u64 && entries <= MOST_ENTRIES as u64 {
            Some(drawn as usize)
        } else {
            None
        }
    }

    fn count(&self, entries: u32) {
        self.entries.fetch_add(entries as u64, Ordering::SeqCst);
    }

    // From here on nothing is drawn.
    fn end(&self) {
        self.drawn.fetch_add(MANY_JOBS, Ordering::SeqCst);
    }
}

// All files, the longest first: the shorter ones then even out what the workers do.
fn jobs_of(alloc: Global, files: &[Vec<u8>]) -> Result<Vec<Job>, NoMemory>
    requires { length files.now < 2 ^ 32 }
    ensures { IfOk result (λ jobs. All (λ job. job.number < length files.now) jobs.items) }
{
    let mut left = LONGEST_FILES;
    let mut jobs = Vec::new(alloc);
    for (number, content) in files.iter().enumerate() {
        jobs.push(Job {
            number: number as u32,
            len: content.len(),
            left,
        })?;
        left = left.saturating_sub(content.len());
    }
    jobs.sort_by_key(|job| usize::MAX - job.len)?;
    Ok(jobs)
}

// Reads a file as if it were for any machine, and all entries were left to it, by so many workers.
fn read_job<'a, R: Threads + Sync>(
    rt: &R,
    alloc: Global,
    files: &'a [Vec<u8>],
    job: &Job,
    inside: u32,
) -> Result<Found<'a>, ReadErr>
    requires { job.now.number < length files.now }
    ensures { IfOk result (IsFound (map (λ v. v.items) files.now)) }
{
    let number = job.number;
    let left = Budget {
        bytes: job.left,
        entries: MOST_ENTRIES,
        machine: None,
    };
    let file = read_file(
        rt,
        alloc,
        number,
        files[number as usize].as_slice(),
        &left,
        inside,
    )?;
    Ok(Found { number, file })
}

// Reads files until none is left to be drawn. One that is refused ends that, since no run goes past it.
fn read_drawn<'a, R: Threads + Sync>(
    rt: &R,
    alloc: Global,
    files: &'a [Vec<u8>],
    jobs: &[Job],
    progress: &Progress,
    inside: u32,
) -> Vec<Found<'a>>
    requires { All (λ job. job.number < length files.now) jobs.now }
    ensures { All (IsFound (map (λ v. v.items) files.now)) result.items }
{
    let mut found = Vec::new(alloc);
    for _draw in 0..jobs.len() {
        let Some(at) = progress.draw(jobs.len()) else {
            break;
        };
        let Ok(one) = read_job(rt, alloc, files, &jobs[at], inside) else {
            progress.end();
            break;
        };
        progress.count(one.file.units.entries());
        if found.push(one).is_err() {
            break;
        }
    }
    found
}

// What each of so many workers reads, by so many others inside a file.
fn read_by<'a, R: Threads + Sync>(
    rt: &R,
    alloc: Global,
    files: &'a [Vec<u8>],
    jobs: &[Job],
    workers: usize,
    inside: u32,
) -> Result<Vec<Vec<Found<'a>>>, NoMemory>
    requires { All (λ job. job.number < length files.now) jobs.now }
    ensures { IfOk result (λ found. All (λ some. All (IsFound (map (λ v. v.items) files.now)) some.items) found.items) }
{
    let progress = Progress::new();
    let each = |_worker: usize| -> Vec<Found>
        requires { IsSync R.row × All (λ job. job.number < length files.now) jobs.now }
        ensures { All (IsFound (map (λ v. v.items) files.entry.now)) result.items }
    { read_drawn(rt, alloc, files, jobs, &progress, inside) };
    thread::map_indices(rt, alloc, workers, &each)
}

// A place for each file, with nothing in it.
fn places<'a>(alloc: Global, files: &'a [Vec<u8>]) -> Result<Vec<Option<File<'a>>>, NoMemory>
    ensures len { IfOk result (λ ahead. length ahead.items ≡ length files.now) }
    ensures none { IfOk result (λ ahead. AreAhead (map (λ v. v.items) files.now) ahead.items) }
{
    let mut ahead = Vec::with_capacity(alloc, files.len())?;
    for _file in files {
        ahead.push(None)?;
    }
    Ok(ahead)
}

// Puts files at their places.
fn put_all<'a>(files: &[Vec<u8>], mut found: Vec<Found<'a>>, ahead: &mut [Option<File<'a>>])
    requires len { length ahead.old ≡ length files.now }
    requires ahead { AreAhead (map (λ v. v.items) files.now) ahead.old }
    requires found { All (IsFound (map (λ v. v.items) files.now)) found.items }
    ensures { AreAhead (map (λ v. v.items) files.now) ahead.new }
{
    let _files = files;
    while let Some(Found { number, file }) = found.pop() {
        ahead[number as usize] = Some(file);
    }
}

/// What is read ahead of files, each at its place, by so many workers, with so many inside each file. It need not be all of them: one worker
/// reads none.
pub(crate) fn read_ahead<'a, R: Threads + Sync>(
    rt: &R,
    alloc: Global,
    files: &'a [Vec<u8>],
    workers: u32,
    inside: u32,
) -> Result<Vec<Option<File<'a>>>, NoMemory>
    requires { length files.now < 2 ^ 32 }
    ensures len { IfOk result (λ ahead. length ahead.items ≡ length files.now) }
    ensures ahead { IfOk result (λ ahead. AreAhead (map (λ v. v.items) files.now) ahead.items) }
{
    let mut ahead = places(alloc, files)?;
    let workers = files.len().min(workers as usize);
    if workers < 2 {
        return Ok(ahead);
    }
    let jobs = jobs_of(alloc, files)?;
    let mut found = read_by(rt, alloc, files, &jobs, workers, inside)?;
    while let Some(some) = found.pop() {
        put_all(files, some, &mut ahead);
    }
    Ok(ahead)
}

// Whether what other files leave is enough for a file that was read.
fn is_enough(left: &Budget, bytes: &[u8], file: &File<'_>) -> bool
    ensures { result ≡ true → file.now.elf ≡ elf_of bytes.now → IsEnough (limits_view left.now) bytes.now (units_of file.now.units) }
{
    if is_too_long(left, bytes) {
        return false;
    }
    if is_other_machine(left.machine, file.elf.machine()) {
        return false;
    }
    file.units.entries() <= left.entries
}

/// The file with a number, behind others: what was read of it ahead where what they leave is enough for that, and else it is read
/// now, by so many workers. Refused with its first fault.
pub(crate) fn file_behind<'a, R: Threads + Sync>(
    rt: &R,
    alloc: Global,
    number: u32,
    bytes: &'a [u8],
    left: &Budget,
    ahead: Option<File<'a>>,
    workers: u32,
) -> Result<File<'a>, ReadErr>
    requires { IfSome ahead (IsAhead number bytes.now) }
    ensures { ReadsFile (limits_view left.now) number bytes.now result }
{
    if let Some(file) = ahead {
        if is_enough(left, bytes, &file) {
            return Ok(file);
        }
    }
    read_file(rt, alloc, number, bytes, left, workers)
}
