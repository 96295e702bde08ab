//! Many files that are written over a finished common file, each as if it were alone with it (DWARF 5, 7.3.6), from contents to what is put
//! and said.
//!
//! Each FILE is a job (`jobs`), and as many are done at once as there are workers. What is wrong with one FILE refuses that FILE alone; what is
//! wrong with the common file refuses all, and so do too many bytes together.

ghost use Rattle.std.specs.Prelude.{◌≡◌, ◌++◌, ◌<◌, ◌≤◌, ◌^◌, ℕ, [], None, List, Ok, IfOk, IfSome, OnOk, length, map};
ghost use Rattle.std.specs.List.{flat_map, list_any, zip};
ghost use Rattle.dwz_def_reading.specs.Files.{longest_files};
ghost use Rattle.dwz_def_reading.specs.Finished.{BesideDocs, beside_meaning};
ghost use Rattle.dwz_graph.specs.Files.{HoldsOrFails};
ghost use Rattle.dwz_batch.specs.Jobs.{AreOutcomes};
ghost use Rattle.dwz_words.specs.declared.options.Options.{Options as Asked};
ghost use Rattle.dwz_run_course.specs.Answers.{IsAnswer};
ghost use Rattle.dwz_def_run.specs.Reuses.{common_got};
ghost use Rattle.dwz_def_run.specs.Batches.{IsCommonRead, IsCommonRefused, IsPast, all_got, bytes_together};
ghost use Rattle.dwz_def_run.specs.Yields.{Batched, batching, output_of_batch};
ghost use Rattle.dwz_law_batch.specs.Jobs.{batch_of_jobs, is_refused_job, job_part, job_puts};
ghost use Rattle.dwz_run.specs.Batching.{AreOfSections, HoldsOrRefused, IsOfSection, IsTooMany};

use crate::contents::content_at;
use crate::jobs::FileJobs;
use crate::names::{copied, name_at};
use crate::written::MANY_FILES;
use dwz_batch::{Outcome, Outcomes, batch, outcome_text};
use dwz_gate::Gate;
use dwz_graph::Graph;
use dwz_law_batch::job_laws;
use dwz_model::{GraphErr, NoMemory, Reason, Refusal, WHOLE_FILE};
use dwz_outside::Put;
use dwz_run_course::{Output, Puts, Said, TextPart, TextParts};
use dwz_words::Options;
use std::alloc::Global;
use std::thread::Threads;

// All files together may have so many bytes.
const LONGEST_FILES: usize = 1 << 29;

// ---- what refuses all

// Whether the finished common file reads with no file beside it.
fn reads_alone(alloc: Global, contents: &[Vec<u8>]) -> Result<(), GraphErr>
    ensures { HoldsOrFails (λ u. (said : BesideDocs) × (beside_meaning (common_got (map (λ c. c.items) contents.now)) [] ≡ Ok said)) result
        (beside_meaning (common_got (map (λ c. c.items) contents.now)) []) }
{
    let common = content_at(contents, 0);
    Graph::read_sup(alloc, &contents[..0], common)?;
    Ok(())
}

// Whether the finished common file reads. It has the number behind those of the files.
fn read_common(alloc: Global, options: &Options, contents: &[Vec<u8>]) -> Result<(), GraphErr>
    requires files { length options.now.files < 2 ^ 32 }
    ensures { HoldsOrRefused (IsCommonRead (batching options.now) (common_got (map (λ c. c.items) contents.now)))
        (IsCommonRefused (batching options.now) (common_got (map (λ c. c.items) contents.now))) result }
{
    let number = options.files.len() as u32;
    match reads_alone(alloc, contents) {
        Ok(()) => Ok(()),
        Err(GraphErr::Refused(refusal)) => Err(GraphErr::Refused(Refusal {
            file: number,
            section: refusal.section,
            at: refusal.at,
            reason: refusal.reason,
        })),
        Err(GraphErr::NoMemory) => Err(GraphErr::NoMemory),
    }
}

// The number of the first of so many files with which there are more bytes together than all may have, if there is one.
fn first_past(contents: &[Vec<u8>], count: u32) -> Option<u32>
    requires common { length (common_got (map (λ c. c.items) contents.now)) ≤ longest_files }
    ensures none { (o : Asked) → length o.files ≡ count → result ≡ None
        → bytes_together (common_got (map (λ c. c.items) contents.now)) (all_got o (map (λ c. c.items) contents.now)) ≤ longest_files }
    ensures some { (o : Asked) → length o.files ≡ count → IfSome result
        (IsPast (common_got (map (λ c. c.items) contents.now)) (all_got o (map (λ c. c.items) contents.now))) }
{
    let mut left = LONGEST_FILES.saturating_sub(content_at(contents, 0).len());
    for number in 0..count {
        let len = content_at(contents, number as usize + 1).len();
        if len > left {
            return Some(number);
        }
        left -= len;
    }
    None
}

// Refused where there are too many bytes together.
fn are_few(contents: &[Vec<u8>], count: u32) -> Result<(), GraphErr>
    requires common { length (common_got (map (λ c. c.items) contents.now)) ≤ longest_files }
    ensures { (o : Asked) → length o.files ≡ count → HoldsOrRefused
        (bytes_together (common_got (map (λ c. c.items) contents.now)) (all_got o (map (λ c. c.items) contents.now)) ≤ longest_files)
        (IsTooMany (common_got (map (λ c. c.items) contents.now)) (all_got o (map (λ c. c.items) contents.now))) result }
{
    match first_past(contents, count) {
        None => Ok(()),
        Some(number) => Err(GraphErr::Refused(Refusal {
            file: number,
            section: WHOLE_FILE,
            at: 0,
            reason: Reason::FileSize,
        })),
    }
}

// ---- what comes of each

fn is_refused(outcome: &Outcome) -> bool
    ensures { result ≡ is_refused_job outcome.now }
{
    match outcome {
        Outcome::Refused(_) => true,
        Outcome::Nothing => false,
        Outcome::Bytes(_) => false,
    }
}

fn is_partly(outcomes: &[Outcome]) -> bool
    ensures { result ≡ list_any is_refused_job outcomes.now }
{
    outcomes.iter().any(|outcome| is_refused(outcome))
}

// What is said of the FILE of a name, which had so many bytes before.
fn part_of(
    alloc: Global,
    name: &[u8],
    before: usize,
    outcome: &Outcome,
) -> Result<TextPart, NoMemory>
    requires { IsOfSection outcome.now }
    ensures { (content : List ℕ) → length content ≡ before
        → IfOk result (λ part. part ≡ job_part (record { name = name.now; content = content }) outcome.now) }
{
    Ok(TextPart {
        text: outcome_text(alloc, name, before as u64, outcome, false)?,
        is_summary: !is_refused(outcome),
    })
}

// What is said of each, in order.
fn parts_of(
    alloc: Global,
    options: &Options,
    contents: &[Vec<u8>],
    outcomes: &[Outcome],
) -> Result<Vec<TextPart>, NoMemory>
    requires sections { AreOfSections outcomes.now }
    requires many { length outcomes.now ≡ length options.now.files }
    ensures { IfOk result (λ parts. parts.items
        ≡ map (λ row. job_part row.0 row.1) (zip (all_got options.now (map (λ c. c.items) contents.now)) outcomes.now)) }
{
    let mut parts = Vec::new(alloc);
    for (number, outcome) in outcomes.iter().enumerate() {
        let name = name_at(options.files.as_slice(), number);
        let before = content_at(contents, number + 1).len();
        parts.push(part_of(alloc, name, before, outcome)?)?;
    }
    Ok(parts)
}

// Adds what is put of the FILE of a name.
fn add_put(
    alloc: Global,
    puts: &mut Vec<Put>,
    name: &[u8],
    outcome: Outcome,
) -> Result<(), NoMemory>
    ensures { OnOk result (puts.new.items ≡ puts.old.items ++ job_puts name.now outcome) }
{
    if let Outcome::Bytes(bytes) = outcome {
        let name = copied(alloc, name)?;
        puts.push(Put { name, bytes })?;
    }
    Ok(())
}

// What is put of all, in order.
fn puts_of(alloc: Global, options: &Options, outcomes: Outcomes) -> Result<Vec<Put>, NoMemory>
    requires many { length outcomes ≡ length options.now.files }
    ensures { (contents : List (List ℕ)) → IfOk result (λ puts. puts.items
        ≡ flat_map (λ row. job_puts row.0.name row.1) (zip (all_got options.now contents) outcomes)) }
{
    let mut puts = Vec::new(alloc);
    let mut number = 0usize;
    for outcome in outcomes.into_vec() {
        let name = name_at(options.files.as_slice(), number);
        add_put(alloc, &mut puts, name, outcome)?;
        number += 1;
    }
    Ok(puts)
}

// What is put and said of all.
fn output_of(
    alloc: Global,
    options: &Options,
    contents: &[Vec<u8>],
    outcomes: Outcomes,
) -> Result<Output, NoMemory>
    requires sections { AreOfSections outcomes }
    requires many { length outcomes ≡ length options.now.files }
    ensures { IfOk result (λ out. out ≡ output_of_batch (batch_of_jobs (all_got options.now (map (λ c. c.items) contents.now)) outcomes)) }
{
    let partly = is_partly(outcomes.as_slice());
    let parts = parts_of(alloc, options, contents, outcomes.as_slice())?;
    let puts = puts_of(alloc, options, outcomes)?;
    Ok(Output {
        puts: Puts::new(puts),
        said: Said::Parts(TextParts::new(parts)),
        differs: false,
        partly,
    })
}

/// What is put and said of the files that options name, each written as if it were alone with their common file, or the refusal of all.
pub(crate) fn batched_files<R: Threads + Sync, G: Gate>(
    rt: &R,
    alloc: Global,
    options: &Options,
    contents: &[Vec<u8>],
    workers: u32,
    gate: &G,
) -> Result<Output, GraphErr>
    requires few { length contents.now < 2 ^ 32 }
    requires workers { (0 < workers) × (workers ≤ 64) }
    ensures { IsAnswer (Batched (batching options.now) (map (λ c. c.items) contents.now)) result }
{
    if options.files.len() >= MANY_FILES {
        return Err(GraphErr::NoMemory);
    }
    let count = options.files.len() as u32;
    read_common(alloc, options, contents)?;
    are_few(contents, count)?;
    let jobs = FileJobs {
        rt,
        options,
        contents,
        count,
    };
    let outcomes = batch(rt, alloc, &jobs, workers, gate)?;
    job_laws();
    Ok(output_of(alloc, options, contents, outcomes)?)
}
