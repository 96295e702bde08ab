//! Two files that are compared, from contents to the line on them.
//!
//! Behind a content that is too long nothing was got. There the two files are copied, with nothing for what is missing, and the one that
//! is too long is refused.

ghost use Rattle.std.specs.Prelude.{◌≡◌, ◌<◌, ◌≤◌, [], ◌∷◌, IfOk, length, map};
ghost use Rattle.std.specs.Option.{option_map};
ghost use Rattle.dwz_run_course.specs.Answers.{IsAnswer};
ghost use Rattle.dwz_def_run.specs.Compares.{Compares, ComparesTwo, tells_apart};

use crate::contents::{common_in, content_at, first_of};
use dwz_check::check;
use dwz_check_rows::check_text;
use dwz_def_check::Same;
use dwz_gate::Gate;
use dwz_graph::Graph;
use dwz_model::{GraphErr, NoMemory};
use dwz_run_course::{Output, Puts, Said, TextPart, TextParts};
use dwz_words::Options;
use std::alloc::Global;
use std::thread::Threads;

// Whether files differ of which that is said.
fn tells_apart(same: &Same) -> bool
    ensures { result ≡ tells_apart same.now }
{
    match same {
        Same::Yes => false,
        Same::Units { .. } => true,
        Same::Unit(_) => true,
    }
}

fn copies(alloc: Global, old: &[u8], new: &[u8]) -> Result<Vec<Vec<u8>>, NoMemory>
    ensures { IfOk result (λ v. map (λ c. c.items) v.items ≡ old.now ∷ new.now ∷ []) }
{
    let mut files = Vec::new(alloc);
    files.push(Vec::from_slice(alloc, old)?)?;
    files.push(Vec::from_slice(alloc, new)?)?;
    Ok(files)
}

// What comes of two files that are read beside a common one, or without one.
fn answer_on<R: Threads + Sync, G: Gate>(
    rt: &R,
    alloc: Global,
    files: &[Vec<u8>],
    common: Option<&[u8]>,
    workers: u32,
    gate: &G,
) -> Result<Output, GraphErr>
    requires two { length files.now ≡ 2 }
    requires workers { (0 < workers) × (workers ≤ 64) }
    ensures { IsAnswer (ComparesTwo (option_map (λ c. c.now) common.entry) (map (λ c. c.items) files.now)) result }
{
    let graph = Graph::read_back(alloc, files, common)?;
    let same = check(rt, alloc, &graph, workers, gate)?;
    let text = check_text(alloc, &same)?;
    let mut parts = Vec::new(alloc);
    parts.push(TextPart {
        text,
        is_summary: false,
    })?;
    Ok(Output {
        puts: Puts::new(Vec::new(alloc)),
        said: Said::Parts(TextParts::new(parts)),
        differs: tells_apart(&same),
        partly: false,
    })
}

/// What is said of the two files that options name, or the first refusal of these and of their common file.
pub(crate) fn compared_files<R: Threads + Sync, G: Gate>(
    rt: &R,
    alloc: Global,
    options: &Options,
    contents: &[Vec<u8>],
    workers: u32,
    gate: &G,
) -> Result<Output, GraphErr>
    requires workers { (0 < workers) × (workers ≤ 64) }
    ensures { IsAnswer (Compares options.now (map (λ c. c.items) contents.now)) result }
{
    let common = common_in(options, contents);
    let first = first_of(options);
    if contents.len() == first + 2 {
        answer_on(rt, alloc, &contents[first..], common, workers, gate)
    } else {
        let old = content_at(contents, first);
        let new = content_at(contents, first + 1);
        let files = copies(alloc, old, new)?;
        answer_on(rt, alloc, &files, common, workers, gate)
    }
}
