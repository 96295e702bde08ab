//! What is said where all is done.

ghost use Rattle.std.specs.Prelude.{◌≡◌, IfOk};
ghost use Rattle.dwz_run_course.specs.Answers.{CanBeSaid};
ghost use Rattle.dwz_run_course.specs.Demo.{HasLengths};
ghost use Rattle.dwz_run_course.specs.Ends.{done_text, parts_text, slimmed_text};

use crate::demo::demo_line;
use crate::output::{Output, Said, TextPart};
use dwz_model::{Blob, NoMemory};
use dwz_report::{Summary, summary_text};
use dwz_words::Options;
use std::alloc::Global;

/// The text of a run that did all.
pub(crate) fn done_text(alloc: Global, options: &Options, output: &Output) -> Result<Blob, NoMemory>
    requires { CanBeSaid output.now.said }
    ensures { IfOk result (λ text. text ≡ done_text options.now output.now) }
{
    match &output.said {
        Said::Slimmed { summary, partials } => if options.quiet {
            Ok(Blob::new(Vec::new(alloc)))
        } else {
            slimmed_text(alloc, options.demo, summary, *partials)
        },
        Said::Parts(parts) => parts_text(alloc, options.quiet, parts.as_slice()),
    }
}

// A line for each file, or the one line of a demonstration.
fn slimmed_text(
    alloc: Global,
    demo: Option<u32>,
    summary: &Summary,
    partials: u32,
) -> Result<Blob, NoMemory>
    requires { HasLengths summary.now }
    ensures { IfOk result (λ text. text ≡ slimmed_text demo summary.now partials) }
{
    match demo {
        None => summary_text(alloc, summary),
        Some(n) => demo_line(alloc, n, summary, partials),
    }
}

// The parts, one behind the other, without summaries where the words ask for quiet.
fn parts_text(alloc: Global, quiet: bool, parts: &[TextPart]) -> Result<Blob, NoMemory>
    ensures { IfOk result (λ text. text ≡ parts_text quiet parts.now) }
{
    let mut text = Vec::new(alloc);
    for part in parts {
        if !(quiet && part.is_summary) {
            text.extend_from_slice(part.text.as_slice())?;
        }
    }
    Ok(Blob::new(text))
}
