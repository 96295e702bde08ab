//! Rows of tables: runs over files, and what comes of them.

use crate::compare::{check_content, check_ending};
use crate::content::{Content, put_content};
use crate::disk::run_on_disk;
use crate::spelling::key_and_value;
use crate::wrong::Wrong;
use dwz_gate::OpenGate;
use dwz_outside::{MemConsole, MemFiles};
use dwz_run::run;
use std::alloc::Global;
use std::rt::Files;
use std::thread::Threads;

// How many bytes there is room for.
const ROOM: u64 = 1_000_000;

// How a run ends that lacks memory.
const NO_MEMORY: &str = "NoMemory\ndwz: out of memory\n";

/// A row, for a number of workers.
#[derive(Clone, Copy)]
struct Row<'a> {
    contents: &'a [Content<'a>],
    /// The lines before the first run.
    head: &'a str,
    workers: &'a str,
}

impl Row<'_> {
    // How many puts it tells.
    fn puts(&self) -> u32 {
        let mut puts = 0u32;
        for line in self.head.lines() {
            if line.starts_with("put: ") {
                puts = puts.saturating_add(1);
            }
        }
        puts
    }

    fn may_lack_memory(&self) -> bool {
        value_of(self.head, "memory").is_some()
    }
}

/// What is wanted of a run.
#[derive(Drop)]
struct Wanted {
    /// The status, and below it what is written on the console.
    ending: String,
    /// How many puts of the row are done after it.
    done: u32,
}

/// The value of the first line with this key.
pub(crate) fn value_of<'a>(lines: &'a str, key: &str) -> Option<&'a str> {
    for line in lines.lines() {
        if let Some((other, value)) = line.split_once(": ") {
            if other == key {
                return Some(value);
            }
        }
    }
    None
}

/// How many runs a row takes, if all come out as they should.
pub(crate) fn check_row<R: Files + Print + AllocGlobal + Threads + Sync>(
    rt: &R,
    alloc: Global,
    contents: &[Content<'_>],
    text: &str,
) -> Result<usize, Wrong> {
    let Some((head, steps)) = text.split_once("\nrun:") else {
        return Err(Wrong("no run"));
    };
    let (_, head) = head.split_once('\n').unwrap_or((head, ""));
    let mut runs = 0usize;
    for workers in value_of(head, "workers").unwrap_or("none").split(' ') {
        let row = Row {
            contents,
            head,
            workers,
        };
        runs = runs.saturating_add(check_steps(rt, alloc, &row, steps)?);
    }
    Ok(runs)
}

// How many runs these are, one after the other, over the same files and the same console.
fn check_steps<R: Files + Print + AllocGlobal + Threads + Sync>(
    rt: &R,
    alloc: Global,
    row: &Row<'_>,
    steps: &str,
) -> Result<usize, Wrong> {
    let mut files = MemFiles::new(alloc)?;
    let mut console = MemConsole::new(alloc)?;
    prepare(alloc, row, &mut files, &mut console)?;
    check_over(rt, alloc, row, steps, &mut files, &mut console)
}

fn check_over<R: Files + Print + AllocGlobal + Threads + Sync>(
    rt: &R,
    alloc: Global,
    row: &Row<'_>,
    steps: &str,
    files: &mut MemFiles,
    console: &mut MemConsole,
) -> Result<usize, Wrong> {
    let mut runs = 0usize;
    for step in steps.split("\nrun:") {
        check_step(rt, alloc, row, step, files, console)?;
        runs = runs.saturating_add(1);
    }
    Ok(runs)
}

// Does what the lines before the first run say.
fn prepare(
    alloc: Global,
    row: &Row<'_>,
    files: &mut MemFiles,
    console: &mut MemConsole,
) -> Result<(), Wrong> {
    fill(alloc, row, files, 0)?;
    let mut room = row.puts();
    for line in row.head.lines() {
        match key_and_value(line)? {
            ("room", number) => room = number.parse::<u32>()?,
            ("fails", told) => set_failing(files, console, told)?,
            ("put", told) => drop(bytes_told(alloc, row, told)?),
            ("held" | "workers" | "each", _) | ("memory", "may run out") | ("on", "disk") => {}
            _ => return Err(Wrong("a line says nothing of a row")),
        }
    }
    files.reserve(room, ROOM)?;
    console.reserve(ROOM)?;
    Ok(())
}

// Makes a call fail, as told by `get 0`. A say is a put on the console.
fn set_failing(files: &mut MemFiles, console: &mut MemConsole, told: &str) -> Result<(), Wrong> {
    let (call, number) = told.split_once(' ').unwrap_or((told, ""));
    let number = number.parse::<u32>()?;
    match call {
        "get" => files.fail(true, number)?,
        "put" => files.fail(false, number)?,
        "say" => console.fail(number)?,
        _ => return Err(Wrong("no call is called so")),
    }
    Ok(())
}

// The bytes that are told by `NAME CONTENT`.
fn bytes_told(alloc: Global, row: &Row<'_>, told: &str) -> Result<Vec<u8>, Wrong> {
    let (_, content) = told.split_once(' ').unwrap_or((told, ""));
    let mut bytes = Vec::new(alloc);
    put_content(alloc, &mut bytes, row.contents, content)?;
    Ok(bytes)
}

// Stores a content under its name, as told by `NAME CONTENT`.
fn add(alloc: Global, row: &Row<'_>, files: &mut MemFiles, told: &str) -> Result<(), Wrong> {
    let (name, _) = told.split_once(' ').unwrap_or((told, ""));
    let bytes = bytes_told(alloc, row, told)?;
    files.add(name.as_bytes(), &bytes)?;
    Ok(())
}

// What the lines below a run want of it.
fn wanted_of(alloc: Global, row: &Row<'_>, told: &str) -> Result<Wanted, Wrong> {
    let puts = row.puts();
    let mut wanted = Wanted {
        ending: String::new(alloc),
        done: puts,
    };
    for line in told.lines() {
        put_wanted(&mut wanted, line)?;
    }
    if puts < wanted.done {
        return Err(Wrong("more puts are done than there are"));
    }
    Ok(wanted)
}

fn put_wanted(wanted: &mut Wanted, line: &str) -> Result<(), Wrong> {
    match key_and_value(line)? {
        ("status" | "text", value) => {
            wanted.ending.push_str(value)?;
            wanted.ending.push_str("\n")?;
        }
        ("done", number) => wanted.done = number.parse::<u32>()?,
        _ => return Err(Wrong("a line says nothing of a run")),
    }
    Ok(())
}

// The words between the spaces, behind those for a number of workers.
fn words_of(alloc: Global, workers: &str, text: &str) -> Result<Vec<Vec<u8>>, Wrong> {
    if !text.is_empty() && !text.starts_with(" ") {
        return Err(Wrong("a line says nothing of a run"));
    }
    let mut words = Vec::new(alloc);
    if workers != "none" {
        words.push(Vec::from_slice(alloc, b"-j")?)?;
        words.push(Vec::from_slice(alloc, workers.as_bytes())?)?;
    }
    for word in text.split(' ').skip(1) {
        words.push(Vec::from_slice(alloc, word.as_bytes())?)?;
    }
    Ok(words)
}

// Checks that a run comes out as it should.
fn check_step<R: Files + Print + AllocGlobal + Threads + Sync>(
    rt: &R,
    alloc: Global,
    row: &Row<'_>,
    step: &str,
    files: &mut MemFiles,
    console: &mut MemConsole,
) -> Result<(), Wrong> {
    let (words, told) = step.split_once('\n').unwrap_or((step, ""));
    let wanted = wanted_of(alloc, row, told)?;
    let came = ending_of(rt, alloc, row, words, files, console)?;
    let lacks_memory = row.may_lack_memory() && came.as_str() == NO_MEMORY;
    if lacks_memory {
        return check_files(rt, alloc, row, files, 0);
    }
    check_ending(rt, wanted.ending.as_str(), came.as_str())?;
    check_files(rt, alloc, row, files, wanted.done)
}

// Runs, and answers how that ended.
fn ending_of<R: Files + Print + AllocGlobal + Threads + Sync>(
    rt: &R,
    alloc: Global,
    row: &Row<'_>,
    words: &str,
    files: &mut MemFiles,
    console: &mut MemConsole,
) -> Result<String, Wrong> {
    let words = words_of(alloc, row.workers, words)?;
    let before = console.text().len();
    let status = if value_of(row.head, "on") == Some("disk") {
        run_on_disk(rt, alloc, row.head, &words, files)?
    } else {
        run(rt, alloc, &words, files, console, &OpenGate)
    };
    let text = console.text().get(before..).unwrap_or(&[]);
    match str::from_utf8(text) {
        Ok(text) => Ok(format!(in alloc; "{status:?}\n{text}")?),
        Err(_) => Err(Wrong("a text is not UTF-8")),
    }
}

// Checks that all names hold what they should where so many puts are done.
fn check_files(
    rt: &impl Print,
    alloc: Global,
    row: &Row<'_>,
    files: &MemFiles,
    done: u32,
) -> Result<(), Wrong> {
    let mut wanted = MemFiles::new(alloc)?;
    fill(alloc, row, &mut wanted, done)?;
    for line in row.head.lines() {
        if let Some(name) = name_of(line) {
            let held = wanted.content(name.as_bytes());
            let came = files.content(name.as_bytes());
            check_content(rt, alloc, name, held, came)?;
        }
    }
    Ok(())
}

// Stores what is held, and then what is put by the first so many puts.
fn fill(alloc: Global, row: &Row<'_>, files: &mut MemFiles, puts: u32) -> Result<(), Wrong> {
    for line in row.head.lines() {
        if let Some(told) = line.strip_prefix("held: ") {
            add(alloc, row, files, told)?;
        }
    }
    let mut left = puts;
    for line in row.head.lines() {
        match line.strip_prefix("put: ") {
            Some(told) if 0 < left => {
                left -= 1;
                add(alloc, row, files, told)?;
            }
            _ => {}
        }
    }
    Ok(())
}

/// The name in a line that says what is held or put.
pub(crate) fn name_of(line: &str) -> Option<&str> {
    let (key, told) = line.split_once(": ")?;
    let (name, _) = told.split_once(' ')?;
    match key {
        "held" | "put" => Some(name),
        _ => None,
    }
}
