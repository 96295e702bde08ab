//! The puts.

ghost use Rattle.std.specs.Prelude.{◌≡◌, All, IfErr, IfOk, OnOk, List, ℕ, map};
ghost use Rattle.dwz_run_course.specs.Puts.{PutsDone, PutsStopped};
ghost use Rattle.dwz_run_course.specs.Ready.{PutsStoppedFor, puts_of, ready_of};

use dwz_model::{Blob, NoMemory};
use dwz_outside::{Failed, Files, Put};
use dwz_report::write_text;
use std::alloc::Global;

/// A put, and what is said where it fails.
#[derive(Debug, Drop)]
pub(crate) struct Ready {
    pub(crate) put: Put,
    pub(crate) text: Blob,
}

/// What is said is made for each put before the first.
pub(crate) fn made_ready(alloc: Global, puts: Vec<Put>) -> Result<Vec<Ready>, NoMemory>
    ensures { IfOk result (λ v. v.items ≡ map ready_of puts.items) }
{
    let mut all = Vec::new(alloc);
    for put in puts {
        let text = write_text(alloc, put.name.as_slice())?;
        all.push(Ready { put, text })?;
    }
    Ok(all)
}

/// The puts in order, up to the first that fails. What is then said is answered. No memory is taken.
pub(crate) fn put_all<F: Files>(files: &mut F, all: Vec<Ready>) -> Result<(), Blob>
    ensures done { OnOk result (PutsDone (F.told files.old) (F.told files.new) (puts_of all.items)) }
    ensures stopped { IfErr result (PutsStoppedFor (F.told files.old) (F.told files.new) all.items) }
    ensures reads { (F.told files.new).last_read ≡ (F.told files.old).last_read }
{
    for ready in all {
        let Ready { put, text } = ready;
        let Put { name, bytes } = put;
        match files.put(name.into_vec(), bytes.as_slice()) {
            Ok(()) => {}
            Err(Failed) => return Err(text),
        }
    }
    Ok(())
}
