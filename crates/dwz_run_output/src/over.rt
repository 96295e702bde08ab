//! What comes of files over a common file that stands.

ghost use Rattle.std.specs.Prelude.{◌≡◌, ℕ, ◌<◌, ◌^◌, IfOk, Some, false, length, map};
ghost use Rattle.dwz_def_reading.specs.Files.{no_files_before};
ghost use Rattle.dwz_def_reading.specs.Finished as Finished;
ghost use Rattle.dwz_def_reading.specs.Finished.{rule_of_common};
ghost use Rattle.dwz_def_reading.specs.Supplementary.{sup_bytes};
ghost use Rattle.dwz_graph.specs.ByRule.{IsReadBy, numbered_rule};
ghost use Rattle.dwz_unit.specs.declared.mode.FileKind.TheVariants.{Common};
ghost use Rattle.dwz_run_course.specs.Answers.{IsAnswer};
ghost use Rattle.dwz_def_output.specs.NewFiles.{AreNewBy};
ghost use Rattle.dwz_def_over.specs.Over.{AreOverFiles, OverFiles, run_over, stands};
ghost use Rattle.dwz_def_run.specs.Out.{sup_name};
ghost use Rattle.dwz_def_run.specs.Comes.{reusing};
ghost use Rattle.dwz_def_run.specs.Reuses.{HasContents, ReusesOf};

use crate::faults::sections_refusal;
use crate::making::all_made;
use crate::puts::add_files;
use crate::rows::look_at_all;
use crate::summary::lines;
use dwz_def_output::NewFile;
use dwz_graph::{File, Graph};
use dwz_model::{Blob, DEBUG_ABBREV, DEBUG_INFO, DEBUG_STR, GraphErr, NoMemory};
use dwz_report::{Summary, SummaryLines};
use dwz_run_course::{Output, Puts, Said};
use dwz_sup::{checksum, debug_sup};
use dwz_words::Options;
use std::alloc::Global;

// The name by which files refer to the common file.
fn name_of(options: &Options) -> &[u8]
    ensures { result.now ≡ sup_name (reusing options.now) }
{
    match options.name.as_ref().or(options.reuse.as_ref()) {
        Some(name) => name.as_slice(),
        None => &[],
    }
}

// The checksum of a common file that was read.
fn sum_of(file: &File<'_>, common: &[u8]) -> [u8; 32]
    requires { (number : ℕ) × IsReadBy (numbered_rule (rule_of_common number)) Common no_files_before number common.now file.now }
    ensures { result ≡ Finished.sum_of common.now }
{
    let info = file.elf.content(common, DEBUG_INFO);
    let strs = file.elf.content(common, DEBUG_STR);
    let abbrev = file.elf.content(common, DEBUG_ABBREV);
    checksum(info, strs, abbrev)
}

// `.debug_sup` of the files that import from the common file.
fn standing_sup(
    alloc: Global,
    options: &Options,
    graph: &Graph<'_>,
    common: &[u8],
) -> Result<Blob, NoMemory>
    requires { graph.now.common ≡ Some common.now }
    ensures { IfOk result (λ sup. let name = sup_name (reusing options.now) in
        sup ≡ sup_bytes (record { supplementary = false; name = name; sum = Finished.sum_of common.now })) }
{
    let Some(file) = graph.common() else {
        unreachable!();
    };
    let sum = sum_of(file, common);
    debug_sup(alloc, false, name_of(options), &sum)
}

/// What comes of files that were read beside a common file that stands: what is put, in order, and the summary. `contents` is what the files
/// were read from, and `common` that file, of which nothing is put. `made` has a row for each file: what is new in it, or None where nothing
/// of it moves or is taken. Refused as by `outcome`, but for faults of a common file.
pub fn outcome_over(
    alloc: Global,
    options: &Options,
    common: &[u8],
    contents: &[Vec<u8>],
    graph: &Graph<'_>,
    made: Vec<Option<NewFile>>,
    partials: u32,
) -> Result<Output, GraphErr>
    requires read { graph.now.given ≡ map (λ c. c.items) contents.now }
    requires beside { graph.now.common ≡ Some common.now }
    requires few { length contents.now < 2 ^ 32 }
    requires each { length made.items ≡ length contents.now }
    ensures { (x : OverFiles) → HasContents common.now graph.now.given x → AreOverFiles x
        → AreNewBy (stands x) (run_over x) made.items partials → IsAnswer (ReusesOf (reusing options.now) common.now graph.now.given) result }
{
    if let Some(refusal) = sections_refusal(&made) {
        return Err(GraphErr::Refused(refusal));
    }
    look_at_all(contents);
    let sup = standing_sup(alloc, options, graph, common)?;
    let files = all_made(alloc, contents, graph, Some(sup.as_slice()), made)?;
    let names = options.files.as_slice();
    let lines = lines(alloc, names, contents, &files)?;
    let mut puts = Vec::new(alloc);
    add_files(alloc, &mut puts, &options.out, names, contents, files)?;
    let summary = Summary {
        common: None,
        files: SummaryLines::new(lines),
    };
    Ok(Output {
        puts: Puts::new(puts),
        said: Said::Slimmed { summary, partials },
        differs: false,
        partly: false,
    })
}
