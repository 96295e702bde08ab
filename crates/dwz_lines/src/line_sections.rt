//! The sections of line tables, from which tables are read one after the other.

ghost use Rattle.std.specs.Prelude.{◌≡◌, ◌≤◌};
ghost use Rattle.dwz_def_reading.specs.Faults.{Answers};
ghost use Rattle.dwz_def_reading.specs.LineTables.{file_table_at};
ghost use Rattle.dwz_lines.specs.Sections.{line_source};

use crate::header::tables_of;
use crate::kept_rows::KeptRows;
use crate::known_rows::KnownRows;
use crate::marked_table::MarkedTable;
use crate::table_rows::{Kept, TableRows};
use dwz_model::ReadErr;
use std::alloc::Global;
use std::marker::Model;

// Into how many runs of bytes marks divide a table at least, of which not all rows are kept.
const RUNS: usize = 16;

// For how many rows that may still be kept a table gets one mark, if these are more.
const ROWS_FOR_MARK: usize = 64;

// More files than any table has.
const MOST: u64 = 1 << 63;

/// The sections of line tables, and what is known of their rows. Clauses see the sections.
#[derive(Drop)]
pub struct LineSections<'a> {
    line: &'a [u8],
    line_strs: &'a [u8],
    strs: &'a [u8],
    dirs: Option<KnownRows<'a>>,
    files: Option<KnownRows<'a>>,
}

impl<'a> Model for LineSections<'a> {
    ghost use Rattle.dwz_lines.specs.KnownViews.{AreOf};
    ghost use Rattle.dwz_lines.specs.Sections.{LineSource, line_source};
    ghost use Rattle.dwz_lines.specs.TableViews.{sections};

    ghost Value = { LineSource };

    ghost view = { λ s. line_source s.line.now s.line_strs.now s.strs.now };

    ghost invariant = { λ s. AreOf s.line.now (sections s.strs.now s.line_strs.now) s.dirs
        × AreOf s.line.now (sections s.strs.now s.line_strs.now) s.files };
}

// How many bytes the directories and files of the line table at a place have at most, if one stands there.
fn bytes_at(line: &[u8], at: u64) -> usize {
    match tables_of(line, at) {
        Some(cursor) => cursor.bytes().len() - cursor.at(),
        None => 0,
    }
}

impl<'a> LineSections<'a> {
    /// Sections of whose rows nothing is known.
    pub fn new(line: &'a [u8], line_strs: &'a [u8], strs: &'a [u8]) -> LineSections<'a>
        ensures { result ≡ line_source line.now line_strs.now strs.now }
    {
        LineSections {
            line,
            line_strs,
            strs,
            dirs: None,
            files: None,
        }
    }

    /// Reads the line table at a place, as `TableRows::read` does. Rows that are known of tables that were read before aren't read again.
    pub fn read(
        &mut self,
        alloc: Global,
        at: u64,
        left: &mut usize,
    ) -> Result<TableRows<'a>, ReadErr>
        ensures table { Answers (λ t. t) result (file_table_at self.old.texts self.old.line at) }
        ensures same { self.new ≡ self.old }
        ensures left { left.new ≤ left.old }
    {
        let bytes = bytes_at(self.line, at);
        if bytes > *left {
            let marks = RUNS.max(*left / ROWS_FOR_MARK);
            let step = bytes / marks + 1;
            let table = MarkedTable::read(
                alloc,
                self.line,
                self.line_strs,
                self.strs,
                at,
                step,
                &mut self.dirs,
                &mut self.files,
            )?;
            if table.size() > *left as u64 && table.files() < MOST {
                *left = left.saturating_sub(marks);
                return Ok(TableRows {
                    kept: Kept::Marked(table),
                });
            }
        }
        let rows = KeptRows::read(alloc, self.line, self.line_strs, self.strs, at)?;
        *left = left.saturating_sub(rows.size());
        Ok(TableRows {
            kept: Kept::Rows(rows),
        })
    }
}
