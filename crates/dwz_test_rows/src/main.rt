//! Tests of whole runs, as rows of tables: words, files, status, text, and what is put.
//!
//! Each word of the command line names a table, a file of text; `table.rt` says how it is written. For each table a line tells how many rows
//! it has, how many hold, and how many runs that took. A row that doesn't hold is told with what was wanted and what came, and then the
//! program fails; so it does at a line of a table that says nothing.
//!
//! A row is one run, or several, over files in memory; a table has the rows of one notion: forms, texts, spaces, what gains, common files,
//! refusals. Expected bytes and texts come from a model that was written independently. A new rule of what is written is a row.
#![tactic(auto)]

mod compare;
mod content;
mod disk;
mod elf;
mod row;
mod spelling;
mod table;
mod wrong;

use std::alloc::Global;
use std::process::ExitCode;
use std::rt::{Env, Files};
use std::thread::Threads;
use std::{env, fs, process};
use table::{Table, below_remarks, check_block};
use wrong::Wrong;

// Runs the rows of a table, and answers whether all hold.
fn check_table<R: Files + Print + AllocGlobal + Threads + Sync>(
    rt: &R,
    alloc: Global,
    folder: &str,
    name: &str,
) -> Result<bool, Wrong> {
    let Ok(text) = fs::read_to_string(rt, name) else {
        println!(rt; "{name}: not read")?;
        return Ok(false);
    };
    let text = text.as_str().replace(alloc, "{folder}", folder)?;
    check_text(rt, alloc, name, text.as_str())
}

fn check_text<R: Files + Print + AllocGlobal + Threads + Sync>(
    rt: &R,
    alloc: Global,
    name: &str,
    text: &str,
) -> Result<bool, Wrong> {
    let mut table = Table::new(alloc);
    let mut number = 1usize;
    for block in text.trim_ascii_end().split("\n\n") {
        let told = below_remarks(block);
        if let Err(Wrong(what)) = check_block(rt, alloc, &mut table, told) {
            table.wrong = table.wrong.saturating_add(1);
            tell(rt, name, number, told, what)?;
        }
        number = number
            .saturating_add(block.lines().count())
            .saturating_add(1);
    }
    let (rows, held, runs) = (table.rows, table.held, table.runs);
    println!(rt; "{name}: {held} of {rows} rows hold, {runs} runs")?;
    Ok(rows != 0 && table.wrong == 0)
}

// Tells what is wrong with the block in this line.
fn tell(rt: &impl Print, name: &str, number: usize, block: &str, what: &str) -> Result<(), Wrong> {
    let (title, _) = block.split_once('\n').unwrap_or((block, ""));
    println!(rt; "  {name}: line {number}: {title}: {what}")?;
    Ok(())
}

// Runs the rows of all tables, with this folder for files on a disk.
fn check_tables<R: Env + Files + Print + AllocGlobal + Threads + Sync>(
    rt: &R,
    alloc: Global,
    folder: &str,
) -> Result<bool, Wrong> {
    let mut hold = true;
    for name in env::args(rt)?.skip(1) {
        hold = check_table(rt, alloc, folder, name.as_str())? && hold;
    }
    Ok(hold)
}

fn check_all<R: Env + Files + Print + AllocGlobal + Threads + Sync>(
    rt: &R,
    alloc: Global,
    id: u32,
) -> Result<bool, Wrong> {
    let folder = format!(in alloc; "/tmp/dwz_test_rows_{id}")?;
    fs::create_dir(rt, folder.as_str())?;
    let hold = check_tables(rt, alloc, folder.as_str());
    fs::remove_dir_all(rt, folder.as_str())?;
    hold
}

fn main(rt: HostRuntime) -> ExitCode {
    match check_all(&rt, rt.alloc(), process::id(rt.process())) {
        Ok(true) => ExitCode::SUCCESS,
        Ok(false) => ExitCode::FAILURE,
        Err(Wrong(what)) => {
            let _ = println!(&rt; "{what}");
            ExitCode::FAILURE
        }
    }
}
