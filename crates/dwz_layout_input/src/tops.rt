//! The entries of tops and of spaces.

ghost use Rattle.std.specs.Prelude.{◌≡◌, ◌++◌, ◌<◌, ◌^◌, length, map, IfOk, OnOk};
ghost use Rattle.dwz_law_layout.specs.Listed.{entry_row, space_entries, space_rows, top_rows};

use dwz_graph::{Index, SpaceEntry, TopEntry};
use dwz_layout::{Row, SpaceRow, TextAt};
use dwz_model::NoMemory;
use std::alloc::Global;

// Adds those of the tops of a file.
fn add_tops(rows: &mut Vec<Row>, file: u32, tops: &[TopEntry]) -> Result<(), NoMemory>
    ensures { OnOk result (rows.new.items ≡ rows.old.items ++ map (λ t. entry_row file t.entry) tops.now) }
{
    for top in tops {
        let entry = top.entry;
        rows.push(Row { file, entry })?;
    }
    Ok(())
}

// Adds those of the spaces of a file.
fn add_spaces(rows: &mut Vec<Row>, file: u32, spaces: &[SpaceEntry]) -> Result<(), NoMemory>
    ensures { OnOk result (rows.new.items ≡ rows.old.items ++ map (λ s. entry_row file s.entry) spaces.now) }
{
    for space in spaces {
        let entry = space.entry;
        rows.push(Row { file, entry })?;
    }
    Ok(())
}

/// Those of the tops of all files.
pub(crate) fn rows_of_tops(alloc: Global, indexes: &[Index]) -> Result<Vec<Row>, NoMemory>
    requires { length indexes.now < 2 ^ 32 }
    ensures { IfOk result (λ rows. rows.items ≡ top_rows 0 indexes.now) }
{
    let mut rows = Vec::new(alloc);
    for (file, index) in indexes.iter().enumerate() {
        add_tops(&mut rows, file as u32, index.tops())?;
    }
    Ok(rows)
}

/// Those of the spaces of all files.
pub(crate) fn rows_of_spaces(alloc: Global, indexes: &[Index]) -> Result<Vec<Row>, NoMemory>
    requires { length indexes.now < 2 ^ 32 }
    ensures { IfOk result (λ rows. rows.items ≡ space_entries 0 indexes.now) }
{
    let mut rows = Vec::new(alloc);
    for (file, index) in indexes.iter().enumerate() {
        add_spaces(&mut rows, file as u32, index.spaces())?;
    }
    Ok(rows)
}

/// Spaces by their entries, each with the places of its name.
pub(crate) fn named_spaces(
    alloc: Global,
    rows: &[Row],
    texts: &[TextAt],
    commons: &[TextAt],
) -> Result<Vec<SpaceRow>, NoMemory>
    requires texts { length texts.now ≡ length rows.now }
    requires commons { length commons.now ≡ length rows.now }
    ensures { IfOk result (λ spaces. spaces.items ≡ space_rows rows.now texts.now commons.now) }
{
    let mut spaces = Vec::with_capacity(alloc, rows.len())?;
    for (i, row) in rows.iter().enumerate() {
        spaces.push(SpaceRow {
            row: *row,
            text: texts[i],
            common: commons[i],
        })?;
    }
    Ok(spaces)
}
