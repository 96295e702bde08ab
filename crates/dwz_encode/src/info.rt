//! `.debug_info` of a file by several threads.

ghost use Rattle.std.specs.Prelude.{◌≡◌, map, IfOk};
ghost use Rattle.std.specs.List.{flat_map};
ghost use Rattle.dwz_encode.specs.Pages.{units_page};
ghost use Rattle.dwz_encode.specs.Stretches.{stretch_page};

use crate::info_of;
use crate::pages::page;
use crate::stretches::{Stretch, stretches};
use dwz_layout::{EntryTable, FileLayout, Spots, UnitItems};
use dwz_model::{Blob, NoMemory};
use rayon::prelude::*;
use std::alloc::Global;
use std::thread::Threads;

// Fewer bytes cost less than a thread does: 64 kB.
const LEAST: u64 = 65536;

// The bytes of each stretch, in order.
fn pages<R: Threads + Sync>(
    rt: &R,
    alloc: Global,
    known: &EntryTable,
    spots: &Spots,
    stretches: &[Stretch],
) -> Result<Vec<Blob>, NoMemory>
    ensures { IfOk result (λ pages. pages.items ≡ map (stretch_page known.now spots.now.places.items spots.now.roots.items) stretches.now) }
{
    let pages: Result<Vec<Blob>, NoMemory> = stretches
        .par_iter()
        .with_min_len(1)
        .map(
            |stretch: &Stretch| -> Result<Blob, NoMemory>
                ensures { let at = spots.entry.now in
                    IfOk result (λ page. page ≡ stretch_page known.entry.now at.places.items at.roots.items stretch.now) }
            {
                page(
                    alloc,
                    known,
                    spots,
                    stretch.first,
                    stretch.units,
                    stretch.laid,
                    stretch.room,
                )
            },
        )
        .collect(rt, alloc)?;
    pages
}

// Pages one behind the other. The buffer of the first has room for all.
fn join_pages(alloc: Global, pages: Vec<Blob>) -> Result<Vec<u8>, NoMemory>
    ensures { IfOk result (λ info. info.items ≡ flat_map (λ page. page) pages.items) }
{
    let mut later = pages.into_iter();
    let Some(first) = later.next() else {
        return Ok(Vec::new(alloc));
    };
    let mut info = first.into_vec();
    for page in later {
        info.extend_from_slice(page.as_slice())?;
    }
    Ok(info)
}

/// `.debug_info` of a file (DWARF 5, 7.5.1), the first unit of which has that number, by at most so many workers. How many there are,
/// and in which order they work, makes no difference.
///
/// The only error is that memory ran out, or more units were counted than 32 bits can count.
pub fn info_by<R: Threads + Sync>(
    rt: &R,
    alloc: Global,
    workers: u32,
    known: &EntryTable,
    spots: &Spots,
    first: u32,
    units: &[UnitItems],
    laid: &FileLayout,
) -> Result<Vec<u8>, NoMemory>
    ensures { let at = spots.now in
        IfOk result (λ info. info.items ≡ units_page known.now at.places.items at.roots.items first units.now laid.now.units.items) }
{
    let least = laid.end.div_ceil(workers.max(1) as u64).max(LEAST);
    if least >= laid.end {
        return info_of(alloc, known, spots, first, units, laid);
    }
    let outs = laid.units.as_slice();
    let stretches = stretches(alloc, first, units, outs, laid.end, least)?;
    let pages = pages(rt, alloc, known, spots, stretches.as_slice())?;
    join_pages(alloc, pages)
}
