//! All lists, and the places of texts in them.

ghost use Rattle.std.specs.Prelude.{◌≡◌, length, IfOk};
ghost use Rattle.dwz_law_layout.specs.Beside.{Alone, Beside, Over, Standing};
ghost use Rattle.dwz_law_layout.specs.Facts.{RunFacts, docs, every};
ghost use Rattle.dwz_law_layout.specs.Listed.{AreAllOwners, AreListed, space_entries};
ghost use Rattle.dwz_graph.specs.EntryCounts.{tops_from};
ghost use Rattle.dwz_graph.specs.AllNames.{AreTopEntries};
ghost use Rattle.dwz_layout_input.specs.Needs.{AreMade, IsFit};
ghost use Rattle.dwz_layout_input.specs.Over.{IsBehind, IsFitOver};
ghost use Rattle.dwz_layout_input.specs.Shown.{texts_shown};
ghost use Rattle.dwz_unit.specs.Rows.{rows_of, units_of};

use crate::owned::{owners_of, owners_over};
use crate::rows::rows_of_files;
use crate::standing::tops_over;
use crate::tops::{named_spaces, rows_of_spaces, rows_of_tops};
use dwz_check_index::CrossIndex;
use dwz_graph::{File, Index};
use dwz_layout::{EntryTable, TextAt};
use dwz_layout_numbers::{UnitNumbers, starts, tops};
use dwz_model::NoMemory;
use dwz_plan::Plan;
use dwz_unit::Units;
use std::alloc::Global;

/// Where texts are written, and the numbers of files in the common file.
#[derive(Drop)]
pub struct FileTexts {
    /// For each file those of its entries that are stored by an offset or by a slot (DWARF 5, 7.5.5), in preorder, then in the order of
    /// attributes.
    pub files: Vec<Vec<TextAt>>,
    /// For each space of all files that of its name in a partial unit of its file.
    pub spaces: Vec<TextAt>,
    /// For each space of all files that of its name in a partial unit of the common file. It counts only where there is one.
    pub commons: Vec<TextAt>,
    /// For each file, of each value that is the number of a file (2.14), in preorder, then in the order of attributes, the number of its
    /// path in the line table of the common file. It counts only where the entry is written there, so it may be empty where nothing is.
    pub numbers: Vec<Vec<u32>>,
}

// The lists, where `tops` has for each top the number of its entry, and `owners` for each entry the unit in which it is written.
fn lists_of<'u, 'a>(
    alloc: Global,
    files: &'u [File<'a>],
    indexes: &[Index],
    plan: &Plan,
    tops: &[u32],
    owners: Vec<u32>,
    numbers: UnitNumbers,
    texts: FileTexts,
) -> Result<EntryTable<'u, 'a>, NoMemory>
    requires fit { IsFit files.now indexes.now plan.now (length tops.now) }
    requires texts { length texts.files.items ≡ length files.now }
    requires spaces { length texts.spaces.items ≡ length (space_entries 0 indexes.now) }
    requires commons { length texts.commons.items ≡ length (space_entries 0 indexes.now) }
    requires numbers { length texts.numbers.items ≡ length files.now }
    ensures { (beside : Beside) (f : RunFacts beside) → AreMade f files.now indexes.now plan.now numbers → AreTopEntries (every f) tops.now
        → AreAllOwners f files.now indexes.now owners.items → IfOk result (λ known. AreListed f (texts_shown texts) known) }
{
    let starts = starts(alloc, indexes)?;
    let rows = rows_of_files(
        alloc,
        files,
        indexes,
        plan,
        tops,
        starts.as_slice(),
        texts.files,
        texts.numbers,
    )?;
    let tops = rows_of_tops(alloc, indexes)?;
    let spaces = rows_of_spaces(alloc, indexes)?;
    let spaces = named_spaces(
        alloc,
        spaces.as_slice(),
        texts.spaces.as_slice(),
        texts.commons.as_slice(),
    )?;
    Ok(EntryTable {
        files: rows,
        owners,
        tops,
        spaces,
        parts: numbers.parts,
        commons: numbers.commons,
    })
}

/// The lists that a layout looks into.
pub fn known_of<'u, 'a>(
    alloc: Global,
    files: &'u [File<'a>],
    indexes: &[Index],
    plan: &Plan,
    numbers: UnitNumbers,
    texts: FileTexts,
) -> Result<EntryTable<'u, 'a>, NoMemory>
    requires fit { IsFit files.now indexes.now plan.now (length (tops_from 0 indexes.now)) }
    requires texts { length texts.files.items ≡ length files.now }
    requires spaces { length texts.spaces.items ≡ length (space_entries 0 indexes.now) }
    requires commons { length texts.commons.items ≡ length (space_entries 0 indexes.now) }
    requires numbers { length texts.numbers.items ≡ length files.now }
    ensures { (f : RunFacts Alone) → AreMade f files.now indexes.now plan.now numbers
        → IfOk result (λ known. AreListed f (texts_shown texts) known) }
{
    let tops = tops(alloc, indexes)?;
    let owners = owners_of(alloc, files, indexes, plan, tops.as_slice(), &numbers)?;
    lists_of(
        alloc,
        files,
        indexes,
        plan,
        tops.as_slice(),
        owners,
        numbers,
        texts,
    )
}

/// The same lists over a common file that stands, which has these units and that index.
pub fn known_over<'u, 'a>(
    alloc: Global,
    files: &'u [File<'a>],
    indexes: &[Index],
    common: &Units,
    index: &CrossIndex,
    plan: &Plan,
    numbers: UnitNumbers,
    texts: FileTexts,
) -> Result<EntryTable<'u, 'a>, NoMemory>
    requires fit { IsFitOver files.now indexes.now plan.now index.now }
    requires texts { length texts.files.items ≡ length files.now }
    requires spaces { length texts.spaces.items ≡ length (space_entries 0 indexes.now) }
    requires commons { length texts.commons.items ≡ length (space_entries 0 indexes.now) }
    requires numbers { length texts.numbers.items ≡ length files.now }
    ensures { (s : Standing) (f : RunFacts (Over s)) → AreMade f files.now indexes.now plan.now numbers
        → rows_of (units_of common.now) ≡ rows_of s.file.raw → IsBehind (docs f) s.doc index.now
        → IfOk result (λ known. AreListed f (texts_shown texts) known) }
{
    let tops = tops_over(alloc, indexes, index)?;
    let owners = owners_over(
        alloc,
        files,
        indexes,
        common,
        plan,
        tops.as_slice(),
        &numbers,
    )?;
    lists_of(
        alloc,
        files,
        indexes,
        plan,
        tops.as_slice(),
        owners,
        numbers,
        texts,
    )
}
