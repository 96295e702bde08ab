//! The rows of a line table as they are read.
//!
//! A table is read in one pass: each row is asked what it says as it is read. All faults of a table are one, so the order of tests doesn't
//! matter. How many rows a table says it has isn't believed: a row without a byte has no path, so the first one ends the reading.
//!
//! A path is joined when it is asked for: a long directory of many files takes no memory for each of them.

ghost use Rattle.std.specs.Prelude.{◌≡◌, ◌<◌, ◌^◌, IfOk, length};
ghost use Rattle.std.specs.Option.{option_map};
ghost use Rattle.dwz_def_reading.specs.Faults.{Answers};
ghost use Rattle.dwz_def_reading.specs.LineTables.{bad_line_table, file_table_at, nth_path};
ghost use Rattle.dwz_lines.specs.TableViews.{sections};

use crate::header::tables_of;
use crate::paths::joined_in;
use crate::rows::{Row, Strings};
use crate::tables::{read_directories, read_files};
use dwz_model::{DEBUG_LINE, Fault, NoMemory, ReadErr, Reason};
use std::alloc::Global;
use std::marker::Model;

/// The line table at a place is bad.
pub(crate) fn bad_at(place: u64) -> Fault
    ensures { result ≡ bad_line_table place }
{
    Fault {
        section: DEBUG_LINE,
        at: place,
        reason: Reason::BadLineTable,
    }
}

/// The files of a line table, by their numbers: of each the text of its own row, where it stands, and its directory. Clauses see a
/// `FileTable`, with whole paths.
#[derive(Drop)]
pub(crate) struct KeptRows<'a> {
    pub(crate) dirs: Vec<&'a [u8]>,
    pub(crate) rows: Vec<Row<'a>>,
    pub(crate) has_strp: bool,
}

impl<'a> Model for KeptRows<'a> {
    ghost use Rattle.dwz_def_reading.specs.LineTables.{FileTable as Paths};
    ghost use Rattle.dwz_lines.specs.TableViews.{paths_view};

    ghost Value = { Paths };

    ghost view = { λ t. record { paths = paths_view t.dirs.items t.rows.items; has_strp = t.has_strp } };
}

impl<'a> KeptRows<'a> {
    /// Reads the line table at a place of `.debug_line`, in bytes from the section's first (DWARF 5, 6.2.4). Its texts stand
    /// in it, in `.debug_line_str` or in `.debug_str`. Refused as `BadLineTable`, at the place, exactly where no table of
    /// version 5 that is read stands there.
    pub(crate) fn read(
        alloc: Global,
        line: &'a [u8],
        line_strs: &'a [u8],
        strs: &'a [u8],
        at: u64,
    ) -> Result<KeptRows<'a>, ReadErr>
        ensures { Answers (λ t. t) result (file_table_at (sections strs.now line_strs.now) line.now at) }
    {
        let bad = bad_at(at);
        let strings = Strings { strs, line_strs };
        let Some(mut cursor) = tables_of(line, at) else {
            return Err(ReadErr::Refused(bad));
        };
        let dirs = read_directories(alloc, &mut cursor, strings, bad)?;
        read_files(alloc, &mut cursor, dirs, strings, bad)
    }

    /// How many files there are.
    pub(crate) fn files(&self) -> u64
        ensures files { result ≡ length self.now.paths }
        ensures many { result < 2 ^ 63 }
    {
        self.rows.len() as u64
    }

    /// How many directories and files there are, of each of which a row is kept.
    pub(crate) fn size(&self) -> usize {
        self.dirs.len().saturating_add(self.rows.len())
    }

    /// The path of a file by its number, counted from 0: joined with that of its directory and that of the unit's. None exactly where the
    /// table has no such row.
    pub(crate) fn path(&self, alloc: Global, index: u64) -> Result<Option<Vec<u8>>, NoMemory>
        ensures path { IfOk result (λ o. option_map (λ v. v.items) o ≡ nth_path self.now.paths index) }
        ensures many { length self.now.paths < 2 ^ 63 }
    {
        match self.rows.get(index as usize) {
            None => Ok(None),
            Some(row) => {
                let path = joined_in(alloc, &self.dirs, row)?;
                Ok(Some(path))
            }
        }
    }

    /// Whether a format of the table has the form strp, so that a text of it may stand in `.debug_str`.
    pub(crate) fn has_strp(&self) -> bool
        ensures { result ≡ self.now.has_strp }
    {
        self.has_strp
    }
}
