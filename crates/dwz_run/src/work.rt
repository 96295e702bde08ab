//! The work of a run.
//!
//! What is made of files is no method of it but a closure (`written_files`): the toolchain proves no method of a trait that starts threads.
//! That at most one thing comes is a law of the trait, from which completeness follows.

ghost use Rattle.std.specs.Prelude.{map};
ghost use Rattle.dwz_gen.specs.Demo.{demo_files};
ghost use Rattle.dwz_run_course.specs.Answers.{IsAnswer};
ghost use Rattle.dwz_run.specs.Given.{Gives};

use crate::written::written_files;
use dwz_gate::Gate;
use dwz_gen::{Two, make};
use dwz_model::{GraphErr, NoMemory};
use dwz_run_course::{Output, Work};
use dwz_words::Options;
use std::alloc::Global;
use std::thread::Threads;

/// What is put and said of the files that options name, or the first refusal of these, as the work gives it.
pub(crate) fn given_files<R: Threads + Sync, G: Gate>(
    rt: &R,
    alloc: Global,
    options: &Options,
    contents: &[Vec<u8>],
    gate: &G,
) -> Result<Output, GraphErr>
    ensures { IsAnswer (Gives options.now (map (λ c. c.items) contents.now)) result }
{
    written_files(rt, alloc, options, contents, gate)
}

/// The work on files: what comes of them, and the two of a demonstration.
#[derive(Clone, Copy)]
pub(crate) struct FileWork;

impl Work for FileWork {
    ghost makes = { demo_files };

    ghost gives = { Gives };

    fn make(&self, alloc: Global, n: u32) -> Result<Vec<Vec<u8>>, NoMemory> {
        let Two { one, two } = make(alloc, n)?;
        let mut files = Vec::new(alloc);
        files.push(one.into_vec())?;
        files.push(two.into_vec())?;
        Ok(files)
    }

    ghost one = { λ o contents a b x y. x.1 o contents a b x.0 y.0 };
}
