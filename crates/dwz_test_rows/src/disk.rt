//! Runs over files on a disk.

use crate::row::name_of;
use crate::wrong::Wrong;
use dwz_gate::OpenGate;
use dwz_outside::{DiskFiles, MemFiles, StdConsole};
use dwz_run::{Status, run};
use std::alloc::Global;
use std::fs;
use std::rt::Files;
use std::thread::Threads;

// How many bytes the name of a file has at most.
const LONGEST_NAME: usize = 256;

/// Runs where the names of a row are files on the disk, which hold what these do. Afterwards these hold what the disk does. The console is
/// the standard output.
pub(crate) fn run_on_disk<R: Files + Print + AllocGlobal + Threads + Sync>(
    rt: &R,
    alloc: Global,
    head: &str,
    words: &[Vec<u8>],
    files: &mut MemFiles,
) -> Result<Status, Wrong> {
    put_on_disk(rt, head, files)?;
    let mut disk = DiskFiles::new(rt, alloc, LONGEST_NAME)?;
    let mut console = StdConsole::new(rt);
    let status = run(rt, alloc, words, &mut disk, &mut console, &OpenGate);
    get_from_disk(rt, head, files)?;
    Ok(status)
}

fn put_on_disk(rt: &impl Files, head: &str, files: &MemFiles) -> Result<(), Wrong> {
    for line in head.lines() {
        if let Some(name) = name_of(line) {
            if let Some(bytes) = files.content(name.as_bytes()) {
                fs::write(rt, name, bytes)?;
            }
        }
    }
    Ok(())
}

fn get_from_disk(
    rt: &(impl Files + AllocGlobal),
    head: &str,
    files: &mut MemFiles,
) -> Result<(), Wrong> {
    for line in head.lines() {
        if let Some(name) = name_of(line) {
            let bytes = fs::read(rt, name)?;
            files.add(name.as_bytes(), &bytes)?;
        }
    }
    Ok(())
}
