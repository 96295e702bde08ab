//! All that is new in a file.

ghost use Rattle.std.specs.Prelude.{◌≡◌, ℕ, false, get_or, length, IfOk};
ghost use Rattle.dwz_def_output.specs.NewFiles.{IsNewFileBy, IsNewOrOldBy};
ghost use Rattle.dwz_law_layout.specs.Beside.{Beside};
ghost use Rattle.dwz_law_layout.specs.Facts.{RunFacts, common, run};
ghost use Rattle.dwz_def_output.specs.Contents.{sections_after_by};
ghost use Rattle.dwz_run_files.specs.Prepared.{IsRank};
ghost use Rattle.dwz_unit.specs.Rows.{units_of as raw_units};
ghost use Rattle.dwz_run_files.specs.Works.{HasRank, HaveUnitPlaces, IsMoved, IsWork};

use crate::bytes::if_other;
use crate::moved::{FileAfter, moved_file};
use crate::narrow::narrow_fault;
use crate::numbers::{address_ranges, lists, offsets_section, strs_section};
use crate::units::{abbrev_section, info_section, units_at};
use crate::work::LaidRun;
use dwz_def_output::NewFile;
use dwz_model::{NoMemory, Sections};
use std::alloc::Global;
use std::thread::Threads;

// The sections of a file, whose units begin there after.
fn sections_of<R: Threads + Sync>(
    rt: &R,
    alloc: Global,
    work: &LaidRun,
    moved: &FileAfter,
    units_at: &[u64],
    workers: u32,
) -> Result<Sections, NoMemory>
    requires moved { (beside : Beside) × (f : RunFacts beside) × IsMoved f work.now moved.now }
    requires many { length units_at.now ≡ length (raw_units moved.now.file.now.units) }
    ensures { (beside : Beside) (f : RunFacts beside) → IsMoved f work.now moved.now → HaveUnitPlaces f moved.now units_at.now
        → IfOk result (λ sections. sections ≡ sections_after_by (common f) (run f) moved.now.number) }
{
    let old = &moved.file.sections;
    let pruned = work.prepared.pruned.as_slice();
    let info = info_section(rt, alloc, work, moved, workers)?;
    let abbrev = abbrev_section(alloc, work, moved)?;
    let strs = strs_section(alloc, old.strs.bytes, pruned, moved.number)?;
    let offsets = offsets_section(alloc, old.offsets, pruned, moved.number)?;
    let loclists = lists(alloc, work, moved, units_at)?;
    let aranges = address_ranges(alloc, work, moved, units_at)?;
    Ok(Sections {
        info,
        abbrev,
        strs,
        offsets,
        line: None,
        loclists: if_other(old.lists, loclists),
        aranges: if_other(old.aranges, aranges),
    })
}

// Whether the file with a number imports from the common file.
#[inline(always)]
fn is_importing(importing: &[bool], number: usize) -> bool
    ensures { result ≡ get_or importing.now number false }
{
    match importing.get(number) {
        Some(flag) => *flag,
        None => false,
    }
}

// What is new in the file with a number, which has that rank among those that are written.
fn new_file<R: Threads + Sync>(
    rt: &R,
    alloc: Global,
    work: &LaidRun,
    number: usize,
    rank: u32,
    workers: u32,
) -> Result<NewFile, NoMemory>
    requires work { (beside : Beside) × (f : RunFacts beside) × IsWork f work.now × HasRank f number rank }
    ensures { (beside : Beside) (f : RunFacts beside) → IsWork f work.now → HasRank f number rank → IfOk result (IsNewFileBy (common f) (run f) number) }
{
    let moved = moved_file(work, number, rank);
    let units_at = units_at(alloc, work, &moved)?;
    let sections = sections_of(rt, alloc, work, &moved, units_at.as_slice(), workers)?;
    let narrow = narrow_fault(alloc, work, &moved, units_at.as_slice())?;
    let imports = is_importing(work.prepared.run.settled.importing.as_slice(), number);
    Ok(NewFile {
        sections,
        narrow,
        imports,
    })
}

/// What is new in the file with a number, if it is written, by at most so many workers.
pub(crate) fn new_or_old<R: Threads + Sync>(
    rt: &R,
    alloc: Global,
    work: &LaidRun,
    number: usize,
    rank: Option<u32>,
    workers: u32,
) -> Result<Option<NewFile>, NoMemory>
    requires work { (beside : Beside) × (f : RunFacts beside) × IsWork f work.now × IsRank f number rank }
    ensures { (beside : Beside) (f : RunFacts beside) → IsWork f work.now → IsRank f number rank → IfOk result (IsNewOrOldBy (common f) (run f) number) }
{
    match rank {
        Some(rank) => {
            let new = new_file(rt, alloc, work, number, rank, workers)?;
            Ok(Some(new))
        }
        None => Ok(None),
    }
}
