//! The lists of a layout once the common file has texts and paths.

ghost use Rattle.std.specs.Prelude.{◌≡◌, length, IfOk};
ghost use Rattle.dwz_law_layout.specs.Beside.{Beside};
ghost use Rattle.dwz_law_layout.specs.Facts.{RunFacts};
ghost use Rattle.dwz_law_layout.specs.Listed.{AreListed, TextsAt};
ghost use Rattle.dwz_encode_common.specs.WithCommon.{IsWithCommon, IsWithStanding, files_with, kept_numbers, texts_held};

use crate::StandingTexts;
use crate::numbers::path_numbers;
use crate::placed::shared_texts;
use crate::pool::Pool;
use crate::spaces::shared_names;
use crate::standing::PlacedTexts;
use dwz_graph::File;
use dwz_layout::{EntryTable, FileRows, TextAt};
use dwz_model::NoMemory;
use std::alloc::Global;

// The rows of a file with other texts and numbers of paths.
fn row_with<'u, 'a>(row: FileRows<'u, 'a>, texts: Vec<TextAt>, files: Vec<u32>) -> FileRows<'u, 'a>
    ensures { result ≡ record row.entry { texts = texts; files = files } }
{
    FileRows {
        units: row.units,
        start: row.start,
        firsts: row.firsts,
        references: row.references,
        texts,
        files,
    }
}

// Each file with its own.
fn with_files<'u, 'a>(
    alloc: Global,
    rows: Vec<FileRows<'u, 'a>>,
    texts: Vec<Vec<TextAt>>,
    numbers: Vec<Vec<u32>>,
) -> Result<Vec<FileRows<'u, 'a>>, NoMemory>
    ensures { IfOk result (λ made. made.items ≡ files_with rows.entry.items texts.items numbers.items) }
{
    let mut made = Vec::with_capacity(alloc, texts.len())?;
    let mut left = rows.into_iter();
    let mut more = numbers.into_iter();
    for places in texts {
        let Some(row) = left.next() else {
            return Ok(made);
        };
        let Some(files) = more.next() else {
            return Ok(made);
        };
        made.push(row_with(row, places, files))?;
    }
    Ok(made)
}

/// The lists once the common file has texts and paths: texts and names of spaces are written as `shared_texts` and `shared_names` say,
/// and values that number files have the numbers that `path_numbers` gives. All else stays as it was in `known`, which has the lists of
/// these files; nothing of it is copied. `sharing` says of each file whether it shares the texts. `NoMemory` also where the place of a
/// text has more than four bytes.
pub fn with_common<'u, 'a>(
    alloc: Global,
    files: &[File],
    known: EntryTable<'u, 'a>,
    texts: &Pool,
    paths: &Pool,
    sharing: &[bool],
) -> Result<EntryTable<'u, 'a>, NoMemory>
    requires { length known.files.items ≡ length files.now }
    ensures made { IfOk result (λ k. IsWithCommon files.now texts.now paths.now sharing.now known.entry k) }
    ensures listed { (beside : Beside) (f : RunFacts beside) (t : TextsAt) → AreListed f t known.entry
        → IfOk result (λ k. AreListed f (texts_held k) k) }
{
    let placed = PlacedTexts::Made(texts);
    let places = shared_texts(alloc, files, &known, &placed, sharing)?;
    let spaces = shared_names(alloc, files, &known, &placed, sharing)?;
    let numbers = path_numbers(alloc, files, paths)?;
    let rows = with_files(alloc, known.files, places, numbers)?;
    Ok(EntryTable {
        files: rows,
        owners: known.owners,
        tops: known.tops,
        spaces,
        parts: known.parts,
        commons: known.commons,
    })
}

// The rows of a file with other texts.
fn row_with_texts<'u, 'a>(row: FileRows<'u, 'a>, texts: Vec<TextAt>) -> FileRows<'u, 'a>
    ensures { result ≡ record row.entry { texts = texts } }
{
    FileRows {
        units: row.units,
        start: row.start,
        firsts: row.firsts,
        references: row.references,
        texts,
        files: row.files,
    }
}

// Each file with its texts, and with the numbers of paths that it had.
fn with_places<'u, 'a>(
    alloc: Global,
    rows: Vec<FileRows<'u, 'a>>,
    texts: Vec<Vec<TextAt>>,
) -> Result<Vec<FileRows<'u, 'a>>, NoMemory>
    ensures { IfOk result (λ made. made.items ≡ files_with rows.entry.items texts.items (kept_numbers rows.entry.items)) }
{
    let mut made = Vec::with_capacity(alloc, texts.len())?;
    let mut left = rows.into_iter();
    for places in texts {
        let Some(row) = left.next() else {
            return Ok(made);
        };
        made.push(row_with_texts(row, places))?;
    }
    Ok(made)
}

/// The lists over a common file that stands and has these texts (DWARF 5, 7.3.6): texts and names of spaces are written as `shared_texts`
/// and `shared_names` say. All else stays as it was in `known`, which has the lists of these files, also the numbers of paths: nothing is
/// written in the common file. `sharing` says of each file whether it shares the texts. `NoMemory` also where the place of a text has more
/// than four bytes.
pub fn with_standing<'u, 'a>(
    alloc: Global,
    files: &[File],
    known: EntryTable<'u, 'a>,
    texts: &StandingTexts,
    sharing: &[bool],
) -> Result<EntryTable<'u, 'a>, NoMemory>
    requires { length known.files.items ≡ length files.now }
    ensures made { IfOk result (λ k. IsWithStanding files.now texts.now sharing.now known.entry k) }
    ensures listed { (beside : Beside) (f : RunFacts beside) (t : TextsAt) → AreListed f t known.entry
        → IfOk result (λ k. AreListed f (texts_held k) k) }
{
    let placed = PlacedTexts::Standing(texts);
    let places = shared_texts(alloc, files, &known, &placed, sharing)?;
    let spaces = shared_names(alloc, files, &known, &placed, sharing)?;
    let rows = with_places(alloc, known.files, places)?;
    Ok(EntryTable {
        files: rows,
        owners: known.owners,
        tops: known.tops,
        spaces,
        parts: known.parts,
        commons: known.commons,
    })
}
