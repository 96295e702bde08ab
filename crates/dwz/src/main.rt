//! The program: the words of the command line, the files on the disk, the standard output and threads, for one run.
#![tactic(auto)]

mod words;

use dwz_gate::OpenGate;
use dwz_outside::{DiskFiles, StdConsole};
use dwz_run::run;
use std::alloc::Global;
use std::process::ExitCode;
use std::rt::{Env, Files};
use std::thread::Threads;
use words::{WordsErr, longest, words_of};

// The statuses of a program that came to no run.
const NO_MEMORY: u8 = 5;

const NO_WORDS: u8 = 9;

// Runs with the words of the command line, and answers the status.
fn status<R: Env + Files + Print + Threads + Sync>(rt: &R, alloc: Global) -> u8 {
    let words = match words_of(rt, alloc) {
        Ok(words) => words,
        Err(WordsErr::NoMemory) => return NO_MEMORY,
        Err(WordsErr::Refused) => return NO_WORDS,
    };
    let Ok(mut files) = DiskFiles::new(rt, alloc, longest(&words)) else {
        return NO_MEMORY;
    };
    let mut console = StdConsole::new(rt);
    run(rt, alloc, &words, &mut files, &mut console, &OpenGate) as u8
}

fn main(rt: HostRuntime) -> ExitCode {
    ExitCode::from(status(&rt, rt.alloc()))
}
