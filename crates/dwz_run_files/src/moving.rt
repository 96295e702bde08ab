//! Where texts stand once just those stay that are used.
//!
//! Lists are made with texts where they were read, and each text gets its new place once it is known which stay. So what was proved of the
//! lists before isn't proved again, and the law on what moves (`moved_laws`) is over any lists that differ by that alone.

ghost use Rattle.std.specs.Prelude.{◌≡◌, map, IfOk};
ghost use Rattle.dwz_run_files.specs.Moved.{AreMoved, RowMoved, RowsMoved, moved_if, moved_space, pruned_at};

use dwz_encode_texts::{PrunedFile, moved_texts};
use dwz_layout::{EntryTable, FileRows, SpaceRow, TextAt};
use dwz_model::NoMemory;
use std::alloc::Global;

// A text of the file with a number at its new place.
#[inline(always)]
fn moved_text(text: TextAt, pruned: &[Option<PrunedFile>], file: usize) -> TextAt
    ensures { result ≡ moved_if (pruned_at pruned.now file) text }
{
    let Some(Some(stays)) = pruned.get(file) else {
        return text;
    };
    match text {
        TextAt::Own(offset) => TextAt::Own(stays.strs.moved(offset).unwrap_or(offset)),
        TextAt::Shared(offset) => TextAt::Shared(offset),
        TextAt::Pooled(offset) => TextAt::Pooled(offset),
    }
}

// All texts of the file with a number.
fn texts_of_file(texts: Vec<TextAt>, pruned: &[Option<PrunedFile>], file: usize) -> Vec<TextAt>
    ensures { result.items ≡ map (moved_if (pruned_at pruned.now file)) texts.items }
{
    match pruned.get(file) {
        Some(Some(stays)) => moved_texts(texts, &stays.strs),
        _ => texts,
    }
}

// The file with a number.
fn moved_row<'u, 'a>(
    row: FileRows<'u, 'a>,
    pruned: &[Option<PrunedFile>],
    file: usize,
) -> FileRows<'u, 'a>
    ensures { RowMoved (pruned_at pruned.now file) row.entry result }
{
    FileRows {
        units: row.units,
        start: row.start,
        firsts: row.firsts,
        references: row.references,
        texts: texts_of_file(row.texts, pruned, file),
        files: row.files,
    }
}

// All files.
fn moved_rows<'u, 'a>(
    alloc: Global,
    rows: Vec<FileRows<'u, 'a>>,
    pruned: &[Option<PrunedFile>],
) -> Result<Vec<FileRows<'u, 'a>>, NoMemory>
    ensures { IfOk result (λ moved. RowsMoved pruned.now 0 rows.entry.items moved.items) }
{
    let mut moved = Vec::with_capacity(alloc, rows.len())?;
    let mut number = 0;
    for row in rows {
        moved.push(moved_row(row, pruned, number))?;
        number += 1;
    }
    Ok(moved)
}

// A space, whose name in a partial unit of its file stands in that file, or in the common one. In a unit of the common file it stays.
#[inline(always)]
fn moved_name(space: SpaceRow, pruned: &[Option<PrunedFile>]) -> SpaceRow
    ensures { result ≡ moved_space pruned.now space }
{
    SpaceRow {
        row: space.row,
        text: moved_text(space.text, pruned, space.row.file as usize),
        common: space.common,
    }
}

// All spaces.
fn move_names(spaces: &mut [SpaceRow], pruned: &[Option<PrunedFile>])
    ensures { spaces.new ≡ map (moved_space pruned.now) spaces.old }
{
    for space in spaces.iter_mut() {
        *space = moved_name(*space, pruned);
    }
}

/// The lists with each text where it stands once just those stay that are used. `pruned` has for each file, by its number, what stays of
/// its texts, if some are taken out. All else is as it was.
pub fn with_moved_texts<'u, 'a>(
    alloc: Global,
    known: EntryTable<'u, 'a>,
    pruned: &[Option<PrunedFile>],
) -> Result<EntryTable<'u, 'a>, NoMemory>
    ensures { IfOk result (λ moved. AreMoved pruned.now known.entry moved) }
{
    let mut spaces = known.spaces;
    move_names(spaces.as_mut_slice(), pruned);
    Ok(EntryTable {
        files: moved_rows(alloc, known.files, pruned)?,
        owners: known.owners,
        tops: known.tops,
        spaces,
        parts: known.parts,
        commons: known.commons,
    })
}
