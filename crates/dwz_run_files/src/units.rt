//! `.debug_info` and `.debug_abbrev` of what is laid, and where the units of a file begin after.

ghost use Rattle.std.specs.Prelude.{◌≡◌, ℕ, length, IfOk};
ghost use Rattle.dwz_def_readback.specs.Files.{sections_by};
ghost use Rattle.dwz_law_layout.specs.Beside.{Beside};
ghost use Rattle.dwz_law_layout.specs.Facts.{RunFacts, common, run};
ghost use Rattle.dwz_encode.specs.Pages.{units_page};
ghost use Rattle.dwz_unit.specs.Rows.{units_of as raw_units};
ghost use Rattle.dwz_def_encoding.specs.Writing.{joined};
ghost use Rattle.dwz_run_files.specs.Works.{HaveUnitPlaces, IsMoved};

use crate::moved::FileAfter;
use crate::unit_places;
use crate::work::LaidRun;
use dwz_encode::info_by;
use dwz_layout::{FileLayout, UnitItems};
use dwz_model::{Blob, NoMemory};
use std::alloc::Global;
use std::thread::Threads;

/// `.debug_info` of units that are laid so, the first of which has that number (DWARF 5, 7.5.1), by at most so many workers.
pub(crate) fn laid_info<R: Threads + Sync>(
    rt: &R,
    alloc: Global,
    work: &LaidRun,
    first: u32,
    units: &[UnitItems],
    laid: &FileLayout,
    workers: u32,
) -> Result<Blob, NoMemory>
    ensures { let layout = work.now.layout.now in
        IfOk result (λ info. info ≡ units_page work.now.prepared.now.known layout.places layout.roots first units.now
        laid.now.units.items) }
{
    let known = &work.prepared.known;
    let spots = work.layout.spots();
    let info = info_by(rt, alloc, workers, known, spots, first, units, laid)?;
    Ok(Blob::new(info))
}

/// Their `.debug_abbrev` (7.5.3).
pub(crate) fn laid_abbrevs(alloc: Global, laid: &FileLayout) -> Result<Blob, NoMemory>
    ensures { IfOk result (λ abbrevs. abbrevs ≡ joined laid.now.tables) }
{
    let abbrevs = laid.tables.section().to_vec(alloc)?;
    Ok(Blob::new(abbrevs))
}

/// `.debug_info` of a file (7.5.1), by at most so many workers.
pub(crate) fn info_section<R: Threads + Sync>(
    rt: &R,
    alloc: Global,
    work: &LaidRun,
    moved: &FileAfter,
    workers: u32,
) -> Result<Blob, NoMemory>
    ensures { (beside : Beside) (f : RunFacts beside) → IsMoved f work.now moved.now → IfOk result (λ info. info ≡ (sections_by (common f) (run f) moved.now.number).info) }
{
    laid_info(
        rt,
        alloc,
        work,
        moved.first,
        moved.units,
        moved.laid,
        workers,
    )
}

/// `.debug_abbrev` of a file (7.5.3).
pub(crate) fn abbrev_section(
    alloc: Global,
    work: &LaidRun,
    moved: &FileAfter,
) -> Result<Blob, NoMemory>
    ensures { (beside : Beside) (f : RunFacts beside) → IsMoved f work.now moved.now
        → IfOk result (λ abbrevs. abbrevs ≡ (sections_by (common f) (run f) moved.now.number).abbrevs) }
{
    laid_abbrevs(alloc, moved.laid)
}

/// For each unit of a file where it begins after, in bytes from the first of `.debug_info`.
pub(crate) fn units_at(
    alloc: Global,
    work: &LaidRun,
    moved: &FileAfter,
) -> Result<Vec<u64>, NoMemory>
    ensures many { IfOk result (λ v. length v.items ≡ length (raw_units moved.now.file.now.units)) }
    ensures places { (beside : Beside) (f : RunFacts beside) → IsMoved f work.now moved.now → IfOk result (λ v. HaveUnitPlaces f moved.now v.items) }
{
    let places = work.layout.spots().places.as_slice();
    unit_places(alloc, &moved.file.units, moved.start, places)
}
