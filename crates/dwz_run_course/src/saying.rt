//! How a run ends, and what it says.

ghost use Rattle.std.specs.Prelude.{◌≡◌, ◌⊎◌};
ghost use Rattle.dwz_run_course.specs.Ended.{status_of, text_of, unsaid};
ghost use Rattle.dwz_run_course.specs.Ends.{Says};

use crate::status::Status;
use dwz_model::Blob;
use dwz_outside::{Console, Failed};
use dwz_report::{memory_text, usage_text};

/// How a run ends before it says so, with the text.
#[derive(Debug, Drop)]
pub(crate) enum Ended {
    AllPut(Blob),
    Differed(Blob),
    PartlyPut(Blob),
    WasRefused(Blob),
    NotLawful,
    NotGot(Blob),
    NotPut(Blob),
    OutOfMemory,
}

/// What is said.
fn text_of<'a>(ended: &'a Ended) -> &'a [u8]
    ensures { result.now ≡ text_of ended.now }
{
    match ended {
        Ended::AllPut(text)
        | Ended::Differed(text)
        | Ended::PartlyPut(text)
        | Ended::WasRefused(text)
        | Ended::NotGot(text)
        | Ended::NotPut(text) => text.as_slice(),
        Ended::NotLawful => usage_text(),
        Ended::OutOfMemory => memory_text(),
    }
}

fn status_of(ended: &Ended) -> Status
    ensures { result ≡ status_of ended.now }
{
    match ended {
        Ended::AllPut(_) => Status::Done,
        Ended::Differed(_) => Status::Differs,
        Ended::PartlyPut(_) => Status::Partly,
        Ended::WasRefused(_) => Status::Refused,
        Ended::NotLawful => Status::Usage,
        Ended::NotGot(_) => Status::ReadFault,
        Ended::NotPut(_) => Status::WriteFault,
        Ended::OutOfMemory => Status::NoMemory,
    }
}

/// The status where the console failed.
fn unsaid_status(status: Status) -> Status
    ensures { result ≡ unsaid status }
{
    match status {
        Status::Done | Status::Differs | Status::Partly => Status::ConsoleFault,
        other => other,
    }
}

/// One put on the console, unless there is nothing to say.
pub(crate) fn say<C: Console>(console: &mut C, ended: &Ended) -> Status
    ensures says { Says (C.shown console.old) (C.shown console.new) result (text_of ended.now) }
    ensures status { (result ≡ status_of ended.now) ⊎ (result ≡ unsaid (status_of ended.now)) }
{
    let status = status_of(ended);
    let text = text_of(ended);
    if text.is_empty() {
        return status;
    }
    match console.put(text) {
        Ok(()) => status,
        Err(Failed) => unsaid_status(status),
    }
}
