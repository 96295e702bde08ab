//! A demonstration: two files are made, and worked on with a common one.

ghost use Rattle.std.specs.Prelude.{◌≡◌, ◌<◌, ◌^◌, IfOk, codes};
ghost use Rattle.dwz_run_course.specs.Demo.{HasLengths, common_length, demo_options, new_length, old_length};
ghost use Rattle.dwz_report.specs.Texts.{demo_text};

use dwz_model::{Blob, Names, NoMemory};
use dwz_report::{Summary, demo_text};
use dwz_words::Options;
use std::alloc::Global;

// A name that isn't of the words.
fn new_name(alloc: Global, name: &[u8]) -> Result<Blob, NoMemory>
    ensures { IfOk result (λ blob. blob ≡ name.now) }
{
    Ok(Blob::new(Vec::from_slice(alloc, name)?))
}

/// The options of the work on the files that are made.
pub(crate) fn demo_options(alloc: Global, options: &Options) -> Result<Options, NoMemory>
    ensures { IfOk result (λ o. o ≡ demo_options options.now) }
{
    let mut files = Vec::new(alloc);
    files.push(new_name(alloc, b"one")?)?;
    files.push(new_name(alloc, b"two")?)?;
    Ok(Options {
        quiet: options.quiet,
        common: Some(new_name(alloc, b"common")?),
        name: None,
        out: None,
        workers: options.workers,
        files: Names::new(files),
        demo: None,
        explain: false,
        check: false,
        expand: false,
        reuse: None,
        batch: None,
        sup: None,
    })
}

// The bytes of all files before.
fn old_length(summary: &Summary) -> u64
    requires { old_length summary.now < 2 ^ 64 }
    ensures { result ≡ old_length summary.now }
{
    let mut len = 0;
    for file in summary.files.as_slice() {
        len += file.1;
    }
    len
}

// The bytes of the common file.
fn common_length(summary: &Summary) -> u64
    ensures { result ≡ common_length summary.now.common }
{
    match &summary.common {
        None => 0,
        Some(common) => common.1,
    }
}

// The bytes of all files afterwards.
fn new_length(summary: &Summary) -> u64
    requires { new_length summary.now < 2 ^ 64 }
    ensures { result ≡ new_length summary.now }
{
    let mut len = common_length(summary);
    for file in summary.files.as_slice() {
        len += file.2.unwrap_or(file.1);
    }
    len
}

/// The one line of a demonstration.
pub(crate) fn demo_line(
    alloc: Global,
    n: u32,
    summary: &Summary,
    partials: u32,
) -> Result<Blob, NoMemory>
    requires { HasLengths summary.now }
    ensures { IfOk result (λ text. text ≡ demo_text n (old_length summary.now) (new_length summary.now) partials) }
{
    let before = old_length(summary);
    let after = new_length(summary);
    demo_text(alloc, n, before, after, partials)
}
