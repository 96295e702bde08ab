//! Line tables whose rows are kept, or of which some are marked.
//!
//! Tables may begin inside one another, so all together they may have far more rows than their section has bytes. So of tables whose rows
//! are too many it is kept where some of them begin, and from the nearest of these on it is read again where a path is asked for.

ghost use Rattle.std.specs.Prelude.{◌≡◌, ◌<◌, ◌≤◌, ◌^◌, IfOk, length};
ghost use Rattle.std.specs.Option.{is_some, option_map};
ghost use Rattle.dwz_def_reading.specs.Faults.{Answers};
ghost use Rattle.dwz_def_reading.specs.LineTables.{file_table_at, nth_path};
ghost use Rattle.dwz_lines.specs.TableViews.{sections};

use crate::kept_rows::KeptRows;
use crate::line_sections::LineSections;
use crate::marked_table::MarkedTable;
use dwz_model::{NoMemory, ReadErr};
use std::alloc::Global;
use std::marker::Model;

/// What is kept of a table: its rows, or where some of them begin.
#[derive(Drop)]
pub(crate) enum Kept<'a> {
    Rows(KeptRows<'a>),
    Marked(MarkedTable<'a>),
}

/// The files of a line table, by their numbers. No path is kept: one is joined when it is asked for. Clauses see a `FileTable`.
#[derive(Drop)]
pub struct TableRows<'a> {
    pub(crate) kept: Kept<'a>,
}

impl<'a> Model for TableRows<'a> {
    ghost use Rattle.dwz_def_reading.specs.LineTables.{FileTable};
    ghost use Rattle.dwz_lines.specs.KeptTables.{IsTable, table_of};

    ghost Value = { FileTable };

    ghost view = { λ t. table_of t.kept };

    ghost invariant = { λ t. IsTable t.kept };
}

impl<'a> TableRows<'a> {
    /// Reads the line table at a place of `.debug_line`, in bytes from the section's first (DWARF 5, 6.2.4). Its texts stand
    /// in it, in `.debug_line_str` or in `.debug_str`. Refused as `BadLineTable`, at the place, exactly where no table of
    /// version 5 that is read stands there. At most `left` rows of directories and files are kept, and `left` is made less by these; of a
    /// table that has more some are marked, which makes `left` less too, and from the nearest mark on it is read again for each path.
    pub fn read(
        alloc: Global,
        line: &'a [u8],
        line_strs: &'a [u8],
        strs: &'a [u8],
        at: u64,
        left: &mut usize,
    ) -> Result<TableRows<'a>, ReadErr>
        ensures table { Answers (λ t. t) result (file_table_at (sections strs.now line_strs.now) line.now at) }
        ensures left { left.new ≤ left.old }
    {
        LineSections::new(line, line_strs, strs).read(alloc, at, left)
    }

    /// Whether there is a file with a number, counted from 0.
    pub fn has_path(&self, index: u64) -> bool
        ensures path { result ≡ is_some (nth_path self.now.paths index) }
        ensures many { length self.now.paths < 2 ^ 63 }
    {
        match &self.kept {
            Kept::Rows(rows) => index < rows.files(),
            Kept::Marked(table) => index < table.files(),
        }
    }

    /// The path of a file by its number, counted from 0: joined with that of its directory and that of the unit's. None
    /// exactly where the table has no such row.
    pub fn path(&self, alloc: Global, index: u64) -> Result<Option<Vec<u8>>, NoMemory>
        ensures path { IfOk result (λ o. option_map (λ v. v.items) o ≡ nth_path self.now.paths index) }
        ensures many { length self.now.paths < 2 ^ 63 }
    {
        match &self.kept {
            Kept::Rows(rows) => rows.path(alloc, index),
            Kept::Marked(table) => table.path(alloc, index),
        }
    }

    /// Whether a format of the table has the form strp, so that a text of it may stand in `.debug_str`.
    pub fn has_strp(&self) -> bool
        ensures { result ≡ self.now.has_strp }
    {
        match &self.kept {
            Kept::Rows(rows) => rows.has_strp(),
            Kept::Marked(table) => table.has_strp(),
        }
    }
}
