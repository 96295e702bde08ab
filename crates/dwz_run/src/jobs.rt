//! FILEs over a finished common file, each of which is a job: it is written as if it were alone with that, by one worker.

ghost use Rattle.std.specs.Prelude.{◌≡◌, ◌<◌, ◌^◌, ℕ, List, IfOk, length, map};
ghost use Rattle.std.specs.Thread.{IsSync};
ghost use Rattle.dwz_words.specs.declared.options.Options.{Options as Asked};
ghost use Rattle.dwz_run_course.specs.Answers.{IsAnswer};
ghost use Rattle.dwz_run_course.specs.Outcome.{writes};
ghost use Rattle.dwz_def_run.specs.Comes.{reusing};
ghost use Rattle.dwz_def_run.specs.Reuses.{common_got};
ghost use Rattle.dwz_def_run.specs.Batches.{Alone, FileGot, options_alone};
ghost use Rattle.dwz_def_run.specs.Yields.{batching};
ghost use Rattle.dwz_law_batch.specs.Jobs.{IsOfJob, file_at, gives_of};
ghost use Rattle.dwz_run.specs.Batching.{IsOfSection};

use crate::contents::content_at;
use crate::names::{copied, copied_if, name_at};
use crate::reused::written_over;
use dwz_batch::{Job, Outcome};
use dwz_gate::OpenGate;
use dwz_model::{GraphErr, Names, NoMemory};
use dwz_outside::Put;
use dwz_run_course::Output;
use dwz_words::Options;
use std::alloc::{AllocError, Global};
use std::thread::Threads;

// The options that ask for a FILE of that name alone, with the common file of `--batch` as that of `--reuse`.
fn options_alone(alloc: Global, options: &Options, name: &[u8]) -> Result<Options, NoMemory>
    ensures { IfOk result (λ o. reusing o ≡ options_alone (batching options.now) name.now) }
{
    let mut files = Vec::new(alloc);
    files.push(copied(alloc, name)?)?;
    Ok(Options {
        quiet: false,
        common: None,
        name: copied_if(alloc, &options.name)?,
        out: None,
        workers: options.workers,
        files: Names::new(files),
        demo: None,
        explain: options.explain,
        check: options.check,
        expand: options.expand,
        reuse: copied_if(alloc, &options.batch)?,
        batch: None,
        sup: copied_if(alloc, &options.sup)?,
    })
}

// What comes of the FILE with that number alone. What wasn't got counts as empty.
fn written_alone<R: Threads + Sync>(
    rt: &R,
    alloc: Global,
    options: &Options,
    contents: &[Vec<u8>],
    number: usize,
) -> Result<Output, GraphErr>
    requires few { length contents.now < 2 ^ 32 }
    requires there { number < 2 ^ 32 }
    ensures { IsAnswer (Alone (batching options.now) (common_got (map (λ c. c.items) contents.now)) (file_at (batching options.now) (map (λ c. c.items) contents.now) number)) result }
{
    let alone = options_alone(alloc, options, name_at(options.files.as_slice(), number))?;
    let common = content_at(contents, 0);
    let place = number + 1;
    if place < contents.len() {
        let files = &contents[place..place + 1];
        written_over(rt, alloc, &alone, common, files, 1, &OpenGate)
    } else {
        let mut files = Vec::new(alloc);
        files.push(Vec::new(alloc))?;
        written_over(rt, alloc, &alone, common, &files, 1, &OpenGate)
    }
}

// The bytes that are put of one FILE, or nothing where none are.
fn outcome_of(output: Output) -> Outcome
    ensures job { (o : Asked) (common : List ℕ) (file : FileGot) → Alone o common file (writes output) → IsOfJob o common file result }
    ensures section { IsOfSection result }
{
    let Output {
        puts,
        said: _,
        differs: _,
        partly: _,
    } = output;
    let mut puts = puts.into_vec();
    match puts.pop() {
        Some(Put { name: _, bytes }) => Outcome::Bytes(bytes),
        None => Outcome::Nothing,
    }
}

/// FILEs by their numbers, of which there are so many, and what was got: the common file first.
#[derive(Clone, Copy)]
pub(crate) struct FileJobs<'a, R: Threads + Sync> {
    pub(crate) rt: &'a R,
    pub(crate) options: &'a Options,
    pub(crate) contents: &'a [Vec<u8>],
    pub(crate) count: u32,
}

impl<'a, R: Threads + Sync> Job for FileJobs<'a, R> {
    ghost many = { λ j. j.count };

    ghost ready = { λ j. IsSync R.row × (length j.contents.now < 2 ^ 32) };

    ghost gives = { λ j i outcome. gives_of (batching j.options.now) (map (λ c. c.items) j.contents.now) i outcome × IsOfSection outcome };

    fn count(&self) -> u32 {
        self.count
    }

    fn work(&self, alloc: Global, i: u32) -> Result<Outcome, NoMemory> {
        match written_alone(self.rt, alloc, self.options, self.contents, i as usize) {
            Ok(output) => Ok(outcome_of(output)),
            Err(GraphErr::Refused(refusal)) => Ok(Outcome::Refused(refusal)),
            Err(GraphErr::NoMemory) => Err(AllocError),
        }
    }
}
