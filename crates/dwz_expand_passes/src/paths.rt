//! The rows of a line table (DWARF 5, 6.2.4) by their paths.

ghost use Rattle.std.specs.Prelude.{◌≡◌, ℕ, List, Option, Some, IfOk, OnOk, length};
ghost use Rattle.std.specs.Option.{option_map};
ghost use Rattle.dwz_def_expand.specs.Chosen.{paths_at, row_for};
ghost use Rattle.dwz_def_reading.specs.Documents.{File};
ghost use Rattle.dwz_graph.specs.Surroundings.{sources_view};
ghost use Rattle.dwz_expand_passes.specs.Paths.{AreRowsOf, IsPathsOf, rows_before};

use dwz_graph::InputSections;
use dwz_lines::TableRows;
use dwz_model::{NoMemory, ReadErr};
use std::alloc::{AllocError, Global};
use std::collections::BTreeMap;

/// The rows of the line table of a unit, by their paths.
#[derive(Drop)]
pub struct TablePaths {
    // Where the table stands, if the unit has one.
    pub(crate) place: Option<u32>,
    // Of each path the least row that has it.
    pub(crate) rows: BTreeMap<Vec<u8>, u64>,
}

// The row with a number has a path. One that an earlier row has stays with that.
fn put_row(rows: &mut BTreeMap<Vec<u8>, u64>, path: Vec<u8>, row: u64) -> Result<(), NoMemory>
    ensures { (paths : List (List ℕ)) → length paths ≡ row → AreRowsOf paths rows.old → OnOk result (AreRowsOf
        (rows_before paths path.items) rows.new) }
{
    if rows.get(path.as_slice()).is_some() {
        return Ok(());
    }
    rows.insert(path, row)?;
    Ok(())
}

// All rows of a table.
fn rows_of(alloc: Global, table: &TableRows) -> Result<BTreeMap<Vec<u8>, u64>, NoMemory>
    ensures { IfOk result (λ rows. AreRowsOf table.now.paths rows) }
{
    let mut rows = BTreeMap::new(alloc);
    let mut row = 0;
    while let Some(path) = table.path(alloc, row)? {
        put_row(&mut rows, path, row)?;
        row += 1;
    }
    Ok(rows)
}

// Those of the table at a place of `.debug_line`; none, where no table is read there.
fn rows_at(
    alloc: Global,
    sections: &InputSections,
    place: u32,
) -> Result<BTreeMap<Vec<u8>, u64>, NoMemory>
    ensures { (paths : List (List ℕ)) → paths_at (sources_view sections.now) (Some place) ≡ Some paths → IfOk result
        (λ rows. AreRowsOf paths rows) }
{
    // As many rows as the section has bytes are kept: so none is read twice.
    let mut left = sections.line.len();
    let line = sections.line;
    let line_strs = sections.line_strs.bytes;
    let strs = sections.strs.bytes;
    match TableRows::read(alloc, line, line_strs, strs, place as u64, &mut left) {
        Err(ReadErr::NoMemory) => Err(AllocError),
        Err(ReadErr::Refused(_fault)) => Ok(BTreeMap::new(alloc)),
        Ok(table) => rows_of(alloc, &table),
    }
}

impl TablePaths {
    /// The rows of the line table at a place of `.debug_line`, if the unit has one; where that isn't read, there are none. Takes n log n
    /// comparisons.
    pub fn read(
        alloc: Global,
        sections: &InputSections,
        place: Option<u32>,
    ) -> Result<TablePaths, NoMemory>
        ensures place { IfOk result (λ t. t.place ≡ place) }
        ensures rows { IfOk result (λ t. IsPathsOf (paths_at (sources_view sections.now) place) t) }
    {
        let rows = match place {
            None => BTreeMap::new(alloc),
            Some(place) => rows_at(alloc, sections, place)?,
        };
        Ok(TablePaths { place, rows })
    }

    /// The number for a file: the least row of its path; no file is 0 in a unit without a line table.
    pub fn row_for(&self, path: Option<&[u8]>) -> Option<u64>
        ensures { (paths : Option (List (List ℕ))) → IsPathsOf paths self.now
            → result ≡ row_for paths (File (option_map (λ p. p.now) path.entry)) }
    {
        match path {
            None => match self.place {
                None => Some(0),
                Some(_) => None,
            },
            Some(path) => self.rows.get(path).copied(),
        }
    }
}
