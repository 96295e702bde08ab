//! The sections of the common file.

ghost use Rattle.std.specs.Prelude.{◌≡◌, Some, IfOk};
ghost use Rattle.dwz_def_output.specs.NewFiles.{IsNewCommon};
ghost use Rattle.dwz_law_layout.specs.Beside.{Alone};
ghost use Rattle.dwz_law_layout.specs.Facts.{RunFacts, run};
ghost use Rattle.dwz_def_output.specs.Contents.{common_after};
ghost use Rattle.dwz_run_files.specs.Common.{HasTexts, bytes_if_some};
ghost use Rattle.dwz_run_files.specs.Works.{IsWork};

use crate::common::CommonTexts;
use crate::units::{laid_abbrevs, laid_info};
use crate::work::LaidRun;
use dwz_model::{Blob, NoMemory, Sections};
use std::alloc::Global;
use std::thread::Threads;

// A section with these bytes, where there are any.
fn section_of(bytes: Vec<u8>) -> Option<Blob>
    ensures { result ≡ bytes_if_some bytes.items }
{
    if bytes.is_empty() {
        return None;
    }
    Some(Blob::new(bytes))
}

// The sections of the common file, with these texts. Its units are the first of all.
fn sections_of<R: Threads + Sync>(
    rt: &R,
    alloc: Global,
    work: &LaidRun,
    texts: CommonTexts,
    workers: u32,
) -> Result<Sections, NoMemory>
    requires { (f : RunFacts Alone) × IsWork f work.now }
    ensures { (f : RunFacts Alone) → IsWork f work.now → HasTexts (run f) (Some texts) → IfOk result (λ s. s ≡ common_after (run f)) }
{
    let units = work.prepared.ordered.orders[0].as_slice();
    let laid = work.layout.file(0);
    let info = laid_info(rt, alloc, work, 0, units, laid, workers)?;
    let abbrev = laid_abbrevs(alloc, laid)?;
    Ok(Sections {
        info,
        abbrev,
        strs: section_of(texts.strs),
        offsets: None,
        line: section_of(texts.lines),
        loclists: None,
        aranges: None,
    })
}

/// The sections of the common file, if there is one, which has these texts: its partial units (DWARF 5, 7.3.6) with their abbreviations,
/// its texts, and a line table with its paths (6.2.4). By at most so many workers.
pub(crate) fn new_common<R: Threads + Sync>(
    rt: &R,
    alloc: Global,
    work: &LaidRun,
    texts: Option<CommonTexts>,
    workers: u32,
) -> Result<Option<Sections>, NoMemory>
    requires work { (f : RunFacts Alone) × IsWork f work.now × HasTexts (run f) texts }
    ensures { (f : RunFacts Alone) → IsWork f work.now → HasTexts (run f) texts → IfOk result (IsNewCommon (run f)) }
{
    match texts {
        Some(texts) => {
            let sections = sections_of(rt, alloc, work, texts, workers)?;
            Ok(Some(sections))
        }
        None => Ok(None),
    }
}
