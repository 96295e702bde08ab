//! One file that is written without its partial units (DWARF 5, 3.2.5), from contents to what is put and said.
//!
//! Behind a common file that is too long nothing was got. There the file counts as empty, and the common one is refused.

ghost use Rattle.std.specs.Prelude.{◌≡◌, [], get_or, length, map, unwrap_or, IfOk};
ghost use Rattle.std.specs.Option.{option_map};
ghost use Rattle.dwz_def_expand.specs.OneFile.{OneFile, ReadsOne};
ghost use Rattle.dwz_def_expand.specs.Output.{new_sections};
ghost use Rattle.dwz_def_run.specs.Expands.{Expands, ExpandsOne, output_with};
ghost use Rattle.dwz_run_course.specs.Answers.{CanBeSaid, IsAnswer};
ghost use Rattle.dwz_run.specs.NewBytes.{AnswersNew};

use crate::contents::{common_in, content_at, first_of};
use crate::names::{copied, name_at};
use dwz_expand::expand;
use dwz_expand_file::expanded_file;
use dwz_graph::Graph;
use dwz_model::{Blob, GraphErr, NoMemory, ReadErr, Refusal, Sections};
use dwz_outside::Put;
use dwz_report::{Summary, SummaryLines};
use dwz_run_course::{Output, Puts, Said};
use dwz_words::Options;
use std::alloc::Global;

// The name of the output, or none.
fn out_name(out: &Option<Blob>) -> &[u8]
    ensures { result.now ≡ unwrap_or out.now [] }
{
    match out {
        Some(name) => name.as_slice(),
        None => &[],
    }
}

// What is said: the length of the file, and of the new one.
fn said_with(alloc: Global, options: &Options, old: &[u8], new: &[u8]) -> Result<Said, NoMemory>
    ensures is { IfOk result (λ said. said ≡ (output_with options.now old.now new.now).said) }
    ensures said { IfOk result CanBeSaid }
{
    let name = copied(alloc, name_at(options.files.as_slice(), 0))?;
    let mut lines = Vec::new(alloc);
    lines.push((name, old.len() as u64, Some(new.len() as u64)))?;
    Ok(Said::Slimmed {
        summary: Summary {
            common: None,
            files: SummaryLines::new(lines),
        },
        partials: 0,
    })
}

// What is put and said of a file and of the new one.
fn output_with(
    alloc: Global,
    options: &Options,
    old: &[u8],
    new: Vec<u8>,
) -> Result<Output, NoMemory>
    ensures is { IfOk result (λ out. out ≡ output_with options.now old.now new.items) }
    ensures said { IfOk result (λ out. CanBeSaid out.said) }
{
    let said = said_with(alloc, options, old, &new)?;
    let name = copied(alloc, out_name(&options.out))?;
    let mut puts = Vec::new(alloc);
    puts.push(Put {
        name,
        bytes: Blob::new(new),
    })?;
    Ok(Output {
        puts: Puts::new(puts),
        said,
        differs: false,
        partly: false,
    })
}

// The new bytes of the file, which has the number 0. Refused where it can't be laid out, or where it is too large.
fn new_bytes(alloc: Global, input: &[u8], sections: Sections) -> Result<Vec<u8>, GraphErr>
    ensures { (f : OneFile) → ReadsOne f → input.now ≡ f.file.bytes → sections ≡ new_sections f → AnswersNew f (λ out. out.items) result }
{
    match expanded_file(alloc, input, sections) {
        Ok(out) => Ok(out),
        Err(ReadErr::Refused(fault)) => Err(GraphErr::Refused(Refusal {
            file: 0,
            section: fault.section,
            at: fault.at,
            reason: fault.reason,
        })),
        Err(ReadErr::NoMemory) => Err(GraphErr::NoMemory),
    }
}

// What comes of the one file, which is read beside a common one, or without one.
fn written_on(
    alloc: Global,
    options: &Options,
    files: &[Vec<u8>],
    common: Option<&[u8]>,
) -> Result<Output, GraphErr>
    requires one { length files.now ≡ 1 }
    ensures { IsAnswer (ExpandsOne options.now (option_map (λ c. c.now) common.entry) (get_or (map (λ c. c.items) files.now) 0 [])) result }
{
    let graph = Graph::read_back(alloc, files, common)?;
    let sections = expand(alloc, &graph)?;
    let old = files[0].as_slice();
    let new = new_bytes(alloc, old, sections)?;
    Ok(output_with(alloc, options, old, new)?)
}

/// What is put and said of the file that options name, or the first refusal of it and of its common file.
pub(crate) fn expanded_files(
    alloc: Global,
    options: &Options,
    contents: &[Vec<u8>],
) -> Result<Output, GraphErr>
    ensures { IsAnswer (Expands options.now (map (λ c. c.items) contents.now)) result }
{
    let common = common_in(options, contents);
    let first = first_of(options);
    if contents.len() == first + 1 {
        written_on(alloc, options, &contents[first..], common)
    } else {
        let mut files = Vec::new(alloc);
        files.push(Vec::from_slice(alloc, content_at(contents, first))?)?;
        written_on(alloc, options, &files, common)
    }
}
