//! What is said of an outcome.

ghost use Rattle.std.specs.Prelude.{◌≡◌, ◌≤◌, IfOk};
ghost use Rattle.dwz_report.specs.Texts.{file_text};
ghost use Rattle.dwz_batch.specs.Texts;

use crate::job::Outcome;
use dwz_model::{Blob, NoMemory};
use dwz_report::{Summary, SummaryLines, refusal_text, summary_text};
use std::alloc::Global;

// The line of one file, with its length in bytes, and its new length, or None where nothing of it moves.
fn file_line(alloc: Global, name: &[u8], before: u64, after: Option<u64>) -> Result<Blob, NoMemory>
    ensures { IfOk result (λ text. text ≡ file_text (name.now, before, after)) }
{
    let mut files = Vec::new(alloc);
    files.push((Blob::new(name.to_vec(alloc)?), before, after))?;
    let lines = Summary {
        common: None,
        files: SummaryLines::new(files),
    };
    summary_text(alloc, &lines)
}

/// What is said of the file of this name, which had so many bytes `before`: the line `NAME: OLD -> NEW bytes` where bytes are put,
/// `NAME: nothing moves` where nothing is, and `dwz: NAME: SECTION+0xAT: WORDS` where it is refused. Where it is to be `quiet`, a refusal
/// alone is said, and else no byte. The number of the file in a refusal isn't looked at.
pub fn outcome_text(
    alloc: Global,
    name: &[u8],
    before: u64,
    outcome: &Outcome,
    quiet: bool,
) -> Result<Blob, NoMemory>
    requires { (refusal : _) → outcome.now ≡ Outcome.Refused refusal → refusal.section ≤ 9 }
    ensures { IfOk result (λ text. text ≡ Texts.outcome_text name.now before outcome.now quiet) }
{
    let after = match outcome {
        Outcome::Refused(refusal) => return refusal_text(alloc, name, refusal),
        Outcome::Nothing => None,
        Outcome::Bytes(bytes) => Some(bytes.len() as u64),
    };
    if quiet {
        return Ok(Blob::new(Vec::new(alloc)));
    }
    file_line(alloc, name, before, after)
}
