//! Tables: blocks with an empty line between them.
//!
//! A block begins with its title, and below it stand lines `KEY: VALUE`. Above the title may stand lines that begin with `#`, which say
//! nothing. `{folder}` in it is a folder for files on a disk.
//!
//! A block `content NAME` has the lines of a content (`content.rt`).
//!
//! A block `row SHOWS` has these lines; the first two may be repeated, and those in brackets may be left out.
//!
//! - `held: NAME CONTENT`: what a name holds before. The content is one of the blocks above, and what is done with it (`put_content`).
//! - `put: NAME CONTENT`: what is put, in order.
//! - [`workers: N N`]: the row is for each of these numbers of workers, by `-j N`, or without it (`none`).
//! - [`each: 0x0 0x3f`]: the row stands for as many rows, in which `{n}` is a number of these, from the first to the last.
//! - [`fails: get N`], `put N` or `say N`: that call fails. [`room: N`]: there is room for so many puts, if not for just the ones that are told.
//! - [`memory: may run out`]: then nothing is put. [`on: disk`]: the names are files on the disk, and a run has no text.
//! - `run: WORDS`: the words of a run, with spaces between them. Below it `status: STATUS`, a line `text: LINE` for each line that it writes,
//!   and [`done: N`], how many puts are done then, if not all. Further runs go on over the same files and the same console.
//!
//! A block `fault TEXT` has the lines of a content, or `of: CONTENT`: `dwz a` refuses this file with that text, and there is no room for a put.

use crate::content::{Content, named, put_content};
use crate::row::{check_row, value_of};
use crate::spelling::number_of;
use crate::wrong::Wrong;
use std::alloc::Global;
use std::rt::Files;
use std::thread::Threads;

/// The name of the content of a fault that spells one.
const FAULTY: &str = "of a fault";

/// The contents of a table so far, how many rows it has, how many hold, how many runs that took, and how many blocks are wrong.
#[derive(Drop)]
pub(crate) struct Table<'a> {
    contents: Vec<Content<'a>>,
    pub(crate) rows: usize,
    pub(crate) held: usize,
    pub(crate) runs: usize,
    pub(crate) wrong: usize,
}

impl<'a> Table<'a> {
    /// Nothing stands above.
    pub(crate) fn new(alloc: Global) -> Table<'a> {
        Table {
            contents: Vec::new(alloc),
            rows: 0,
            held: 0,
            runs: 0,
            wrong: 0,
        }
    }
}

/// The block without the lines above its title.
pub(crate) fn below_remarks(block: &str) -> &str {
    let mut skipped = 0usize;
    for line in block.lines() {
        if !line.starts_with("#") {
            break;
        }
        skipped = skipped.saturating_add(line.len()).saturating_add(1);
    }
    block.get(skipped..).unwrap_or("")
}

/// Takes a content, or runs the rows of a block. A row that doesn't hold is told.
pub(crate) fn check_block<'a, R: Files + Print + AllocGlobal + Threads + Sync>(
    rt: &R,
    alloc: Global,
    table: &mut Table<'a>,
    block: &'a str,
) -> Result<(), Wrong> {
    let (title, lines) = block.split_once('\n').unwrap_or((block, ""));
    match title.split_once(' ') {
        Some(("content", name)) => add_content(alloc, table, Content { name, lines }),
        Some(("row", _)) => match value_of(lines, "each") {
            None => check(rt, alloc, table, block),
            Some(numbers) => check_each(rt, alloc, table, block, numbers),
        },
        Some(("fault", text)) => check_fault(rt, alloc, table, text, lines),
        _ if block.is_empty() => Ok(()),
        _ => Err(Wrong("no block is called so")),
    }
}

// Adds a content, if its lines spell one.
fn add_content<'a>(
    alloc: Global,
    table: &mut Table<'a>,
    content: Content<'a>,
) -> Result<(), Wrong> {
    if named(&table.contents, content.name).is_some() {
        return Err(Wrong("this content stands above"));
    }
    table.contents.push(content)?;
    let mut bytes = Vec::new(alloc);
    put_content(alloc, &mut bytes, &table.contents, content.name)
}

// Counts a row, and whether it holds.
fn check<R: Files + Print + AllocGlobal + Threads + Sync>(
    rt: &R,
    alloc: Global,
    table: &mut Table<'_>,
    text: &str,
) -> Result<(), Wrong> {
    table.rows = table.rows.saturating_add(1);
    let runs = check_row(rt, alloc, &table.contents, text)?;
    table.held = table.held.saturating_add(1);
    table.runs = table.runs.saturating_add(runs);
    Ok(())
}

fn check_each<R: Files + Print + AllocGlobal + Threads + Sync>(
    rt: &R,
    alloc: Global,
    table: &mut Table<'_>,
    text: &str,
    numbers: &str,
) -> Result<(), Wrong> {
    let (first, last) = numbers.split_once(' ').unwrap_or((numbers, ""));
    for number in number_of(first)?..=number_of(last)? {
        check_number(rt, alloc, table, text, number)?;
    }
    Ok(())
}

fn check_number<R: Files + Print + AllocGlobal + Threads + Sync>(
    rt: &R,
    alloc: Global,
    table: &mut Table<'_>,
    text: &str,
    number: usize,
) -> Result<(), Wrong> {
    let digits = format!(in alloc; "{number:x}")?;
    let text = text.replace(alloc, "{n}", digits.as_str())?;
    check(rt, alloc, table, text.as_str())
}

fn check_fault<'a, R: Files + Print + AllocGlobal + Threads + Sync>(
    rt: &R,
    alloc: Global,
    table: &mut Table<'a>,
    text: &str,
    lines: &'a str,
) -> Result<(), Wrong> {
    let told = match lines.strip_prefix("of: ") {
        Some(told) => told,
        None => {
            table.contents.push(Content {
                name: FAULTY,
                lines,
            })?;
            FAULTY
        }
    };
    let row = format!(in alloc;
        "fault\nheld: a {told}\nrun: a\nstatus: Refused\ntext: dwz: a: {text}"
    )?;
    check(rt, alloc, table, row.as_str())
}
