//! What comes of a run whose new sections are made.

ghost use Rattle.std.specs.Prelude.{◌≡◌, ℕ, ◌<◌, ◌^◌, Bool, List, length, map};
ghost use Rattle.dwz_def_reading.specs.Documents.{Doc};
ghost use Rattle.dwz_run_course.specs.Answers.{IsAnswer};
ghost use Rattle.dwz_def_output.specs.Written.{ReadAs};
ghost use Rattle.dwz_def_run.specs.Out.{Slims, run_for};
ghost use Rattle.dwz_def_output.specs.NewFiles.{AreNew, IsNewCommon};

use crate::common::{add_common, common_fault, common_line, common_made, sup_in};
use crate::faults::{in_file, sections_refusal};
use crate::making::all_made;
use crate::puts::add_files;
use crate::rows::look_at_all;
use crate::summary::lines;
use dwz_def_output::NewFile;
use dwz_graph::Graph;
use dwz_model::{GraphErr, Sections};
use dwz_report::{Summary, SummaryLines};
use dwz_run_course::{Output, Puts, Said};
use dwz_words::Options;
use std::alloc::Global;

/// What comes of files that were read: what is put, in order, and the summary. `contents` is what the files were read from. `common`
/// has the sections of the common file, or is None where there is none, as where none is asked for. `made` has a row for each file:
/// what is new in it, or None where nothing of it moves. The files have `partials` partial units together.
///
/// Refused with the first fault of the common file, whose number is that of the files: `TooLarge`, at 0, of a section, and else of
/// the file. Where there is none, refused with the first fault of the new sections of the files: `OperandWidth`, at the operand, and
/// else `TooLarge`, at 0. Where there is none either, refused with the first fault of the files themselves: `Layout`, at the section
/// header, and else `TooLarge`, at 0. Both come in order of the files.
pub fn outcome(
    alloc: Global,
    options: &Options,
    contents: &[Vec<u8>],
    graph: &Graph<'_>,
    common: Option<Sections>,
    made: Vec<Option<NewFile>>,
    partials: u32,
) -> Result<Output, GraphErr>
    requires read { graph.now.given ≡ map (λ c. c.items) contents.now }
    requires few { length contents.now < 2 ^ 32 }
    requires each { length made.items ≡ length contents.now }
    ensures { (docs : List (Doc ℕ)) (prunes : List Bool) → ReadAs graph.now.given docs prunes
        → AreNew (run_for options.now graph.now.given docs prunes) made.items partials
        → IsNewCommon (run_for options.now graph.now.given docs prunes) common → IsAnswer (Slims options.now graph.now.given) result }
{
    if let Some(fault) = common_fault(&common) {
        return Err(GraphErr::Refused(in_file(contents.len() as u32, fault)));
    }
    if let Some(refusal) = sections_refusal(&made) {
        return Err(GraphErr::Refused(refusal));
    }
    look_at_all(contents);
    let common = common_made(alloc, options, graph, common)?;
    let files = all_made(alloc, contents, graph, sup_in(&common), made)?;
    let line = common_line(alloc, &options.common, &common)?;
    let names = options.files.as_slice();
    let lines = lines(alloc, names, contents, &files)?;
    let mut puts = Vec::new(alloc);
    add_common(alloc, &mut puts, &options.common, common)?;
    add_files(alloc, &mut puts, &options.out, names, contents, files)?;
    let summary = Summary {
        common: line,
        files: SummaryLines::new(lines),
    };
    Ok(Output {
        puts: Puts::new(puts),
        said: Said::Slimmed { summary, partials },
        differs: false,
        partly: false,
    })
}
