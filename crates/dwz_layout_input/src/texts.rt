//! Other places of texts, and other numbers of files.

ghost use Rattle.std.specs.Prelude.{◌≡◌, length, IfOk};
ghost use Rattle.dwz_law_layout.specs.Beside.{Beside};
ghost use Rattle.dwz_law_layout.specs.Facts.{RunFacts};
ghost use Rattle.dwz_law_layout.specs.Listed.{AreListed, TextsAt};
ghost use Rattle.dwz_layout_input.specs.Shown.{files_with, spaces_with, texts_shown};

use crate::listing::FileTexts;
use dwz_layout::{EntryTable, FileRows, SpaceRow, TextAt};
use dwz_model::NoMemory;
use std::alloc::Global;

// The file with other texts and numbers.
fn file_with<'u, 'a>(row: FileRows<'u, 'a>, texts: Vec<TextAt>, files: Vec<u32>) -> FileRows<'u, 'a>
    ensures { result ≡ record row.entry { texts = texts; files = files } }
{
    FileRows {
        units: row.units,
        start: row.start,
        firsts: row.firsts,
        references: row.references,
        texts,
        files,
    }
}

// Each file with its own.
fn with_files<'u, 'a>(
    alloc: Global,
    rows: Vec<FileRows<'u, 'a>>,
    all: Vec<Vec<TextAt>>,
    numbers: Vec<Vec<u32>>,
) -> Result<Vec<FileRows<'u, 'a>>, NoMemory>
    ensures { IfOk result (λ made. made.items ≡ files_with rows.entry.items all.items numbers.items) }
{
    let mut made = Vec::with_capacity(alloc, all.len())?;
    let mut left = rows.into_iter();
    let mut numbered = numbers.into_iter();
    for texts in all {
        let Some(row) = left.next() else {
            return Ok(made);
        };
        let Some(files) = numbered.next() else {
            return Ok(made);
        };
        made.push(file_with(row, texts, files))?;
    }
    Ok(made)
}

// Gives each space those of its name.
fn put_names(spaces: &mut [SpaceRow], texts: &[TextAt], commons: &[TextAt])
    requires texts { length texts.now ≡ length spaces.old }
    requires commons { length commons.now ≡ length spaces.old }
    ensures { spaces.new ≡ spaces_with spaces.old texts.now commons.now }
{
    for i in 0..spaces.len() {
        spaces[i].text = texts[i];
        spaces[i].common = commons[i];
    }
}

/// The lists with other places of texts and other numbers of files, for as many files and spaces. All else stays.
pub fn with_texts<'u, 'a>(
    alloc: Global,
    known: EntryTable<'u, 'a>,
    texts: FileTexts,
) -> Result<EntryTable<'u, 'a>, NoMemory>
    requires files { length texts.files.items ≡ length known.files.items }
    requires spaces { length texts.spaces.items ≡ length known.spaces.items }
    requires commons { length texts.commons.items ≡ length known.spaces.items }
    requires numbers { length texts.numbers.items ≡ length known.files.items }
    ensures files { IfOk result (λ k. k.files.items ≡ files_with known.entry.files.items texts.files.items texts.numbers.items) }
    ensures spaces { IfOk result (λ k. k.spaces.items ≡ spaces_with known.entry.spaces.items texts.spaces.items texts.commons.items) }
    ensures owners { IfOk result (λ k. k.owners ≡ known.entry.owners) }
    ensures tops { IfOk result (λ k. k.tops ≡ known.entry.tops) }
    ensures parts { IfOk result (λ k. k.parts ≡ known.entry.parts) }
    ensures commons { IfOk result (λ k. k.commons ≡ known.entry.commons) }
    ensures listed { (beside : Beside) (f : RunFacts beside) (before : TextsAt) → AreListed f before known.entry
        → IfOk result (λ k. AreListed f (texts_shown texts) k) }
{
    let mut spaces = known.spaces;
    put_names(
        spaces.as_mut_slice(),
        texts.spaces.as_slice(),
        texts.commons.as_slice(),
    );
    let files = with_files(alloc, known.files, texts.files, texts.numbers)?;
    Ok(EntryTable {
        files,
        owners: known.owners,
        tops: known.tops,
        spaces,
        parts: known.parts,
        commons: known.commons,
    })
}
