//! What stays of the texts of the files that are written.

ghost use Rattle.std.specs.Prelude.{◌≡◌, ◌<◌, ◌^◌, All, IfOk, IsSome, get_or, length, false};
ghost use Rattle.dwz_def_reading.specs.Texts.{text_at};
ghost use Rattle.dwz_law_layout.specs.Beside.{Beside};
ghost use Rattle.dwz_law_layout.specs.Facts.{RunFacts};
ghost use Rattle.dwz_run_files.specs.Moved.{ArePruned};
ghost use Rattle.dwz_run_files.specs.Pruned.{AreFilesWritten, FileKeeps, UsesNameTexts};
ghost use Rattle.dwz_encode_texts.specs.PrunedFiles.{IsPrunedFile};
ghost use Rattle.dwz_encode_texts.specs.Used.{order_uses};

use dwz_encode_texts::{PrunedFile, prune_file, uses_of};
use dwz_graph::{File, Graph};
use dwz_layout::{EntryTable, FileItems, UnitItems};
use dwz_model::NoMemory;
use std::alloc::Global;

/// The files that are written, and their units.
#[derive(Clone, Copy)]
pub struct Written<'a> {
    /// For each file that was read its rank among those that are written, or none where it isn't written.
    pub ranks: &'a [Option<u32>],
    /// The units of the common file, and then those of each file that is written, by their ranks.
    pub orders: &'a [FileItems],
    /// For each order the number of its first unit among all units that are written.
    pub firsts: &'a [u32],
}

// Whether a file is prunable.
#[inline(always)]
fn is_prunable(prunes: &[bool], number: usize) -> bool
    ensures { result ≡ get_or prunes.now number false }
{
    match prunes.get(number) {
        Some(flag) => *flag,
        None => false,
    }
}

// What stays of the texts of a file of which these units are written. The first of them has that number among all that are written.
fn prune_by_units(
    alloc: Global,
    file: &File,
    known: &EntryTable,
    first: u32,
    order: &[UnitItems],
) -> Result<PrunedFile, NoMemory>
    requires few { length file.now.sections.offsets.now < 2 ^ 32 }
    requires texts { All (λ used. IsSome (text_at file.now.sections.strs.bytes.now used)) (order_uses known.now first order.now) }
    ensures { let sections = file.now.sections in
        IfOk result (IsPrunedFile sections.strs.bytes.now sections.offsets.now (order_uses known.now first order.now)) }
{
    let uses = uses_of(alloc, known, first, order)?;
    prune_file(alloc, file.sections.strs.bytes, file.sections.offsets, uses)
}

// What stays of the texts of the file with a number, if it is written and prunable.
fn prune_one(
    alloc: Global,
    graph: &Graph,
    known: &EntryTable,
    written: &Written,
    number: u32,
    prunes: bool,
) -> Result<Option<PrunedFile>, NoMemory>
    requires there { number < length graph.now.given }
    requires texts { UsesNameTexts graph.now.given known.now written.now }
    ensures { IfOk result (FileKeeps graph.now.given known.now written.now prunes number) }
{
    if !prunes {
        return Ok(None);
    }
    let Some(Some(rank)) = written.ranks.get(number as usize) else {
        return Ok(None);
    };
    let place = *rank as usize + 1;
    let Some(order) = written.orders.get(place) else {
        return Ok(None);
    };
    let Some(first) = written.firsts.get(place) else {
        return Ok(None);
    };
    let file = graph.file(number);
    let pruned = prune_by_units(alloc, file, known, *first, order.as_slice())?;
    Ok(Some(pruned))
}

/// For each file that is written and prunable, by its number among all that were read, what stays of its texts: those that what is
/// written of it uses, and those that its slots name (DWARF 5, 7.26). It is `None` for the others, whose texts all stay. `prunes` has
/// for each file whether it is prunable.
pub fn prune_files(
    alloc: Global,
    graph: &Graph,
    known: &EntryTable,
    written: &Written,
    prunes: &[bool],
) -> Result<Vec<Option<PrunedFile>>, NoMemory>
    requires few { length graph.now.given < 2 ^ 32 }
    requires many { length written.now.ranks.now ≡ length graph.now.given }
    requires texts { UsesNameTexts graph.now.given known.now written.now }
    ensures { (beside : Beside) (f : RunFacts beside) → AreFilesWritten f graph.now.given written.now prunes.now
        → IfOk result (λ pruned. ArePruned f known.now written.now.orders.now pruned.items) }
{
    let count = written.ranks.len();
    let mut pruned = Vec::with_capacity(alloc, count)?;
    for number in 0..count {
        let prunable = is_prunable(prunes, number);
        let file = prune_one(alloc, graph, known, written, number as u32, prunable)?;
        pruned.push(file)?;
    }
    Ok(pruned)
}
