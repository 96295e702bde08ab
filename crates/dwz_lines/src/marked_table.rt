//! A line table whose rows are marked.

ghost use Rattle.std.specs.Prelude.{◌≡◌, IfOk, length};
ghost use Rattle.std.specs.Option.{option_map};
ghost use Rattle.dwz_def_reading.specs.Faults.{Answers};
ghost use Rattle.dwz_def_reading.specs.LineTables.{file_table_at, nth_path};
ghost use Rattle.dwz_lines.specs.Known.{IsPart};
ghost use Rattle.dwz_lines.specs.KnownViews.{AreOf};
ghost use Rattle.dwz_lines.specs.Reading.{TriesAt, dirs_in, files_in};
ghost use Rattle.dwz_lines.specs.RowViews.{strings_view};
ghost use Rattle.dwz_lines.specs.MarkedViews.{marked_dirs_view};
ghost use Rattle.dwz_lines.specs.TableViews.{sections};

use crate::formats::{formats, names_strs};
use crate::header::tables_of;
use crate::kept_rows::bad_at;
use crate::known_rows::KnownRows;
use crate::marked_rows::{MarkedRows, RowReader};
use crate::paths::joined;
use crate::rows::Strings;
use crate::runs::TablePlace;
use crate::tables::{either, has_dir};
use dwz_bytes::Cursor;
use dwz_model::{Fault, NoMemory, ReadErr};
use std::alloc::Global;
use std::marker::Model;

/// Directories, by their numbers, and whether a format of theirs has the form strp.
#[derive(Drop)]
pub(crate) struct MarkedDirs<'a> {
    pub(crate) rows: MarkedRows<'a>,
    pub(crate) strp: bool,
}

/// The files of a line table, by their numbers, of which some are marked. Clauses see a `FileTable`, with whole paths.
#[derive(Drop)]
pub(crate) struct MarkedTable<'a> {
    dirs: MarkedRows<'a>,
    files: MarkedRows<'a>,
    has_strp: bool,
}

impl<'a> Model for MarkedTable<'a> {
    ghost use Rattle.dwz_def_reading.specs.LineTables.{FileTable as Paths};
    ghost use Rattle.dwz_lines.specs.MarkedViews.{marked_paths};

    ghost Value = { Paths };

    ghost view = { λ t. record { paths = marked_paths t.dirs t.files; has_strp = t.has_strp } };
}

// The directories of a table, of which some are marked.
#[tactic(auto, unfolding(crate::specs::Reading::dirs_in, crate::specs::Reading::rows_in))]
fn read_directories<'a>(
    alloc: Global,
    cursor: &mut Cursor<'a>,
    strings: Strings<'a>,
    step: usize,
    bad: Fault,
    table: TablePlace<'a>,
    known: &mut Option<KnownRows<'a>>,
) -> Result<MarkedDirs<'a>, ReadErr>
    requires known { AreOf table.line.now (strings_view strings) known.old }
    requires part { IsPart table.line.now table.start cursor.old }
    ensures dirs { TriesAt marked_dirs_view bad cursor.new result (dirs_in (strings_view strings.entry) cursor.old) }
    ensures known { AreOf table.entry.line.now (strings_view strings.entry) known.new }
{
    let formats = formats(alloc, cursor, bad)?;
    let Ok(count) = cursor.uleb() else {
        return Err(ReadErr::Refused(bad));
    };
    let strp = names_strs(&formats);
    let reader = RowReader {
        formats,
        strings,
        dirs: count,
    };
    let rows = MarkedRows::read_or_known(alloc, cursor, reader, count, step, bad, table, known)?;
    Ok(MarkedDirs { rows, strp })
}

// The files of a table, in these directories, of which some are marked.
#[tactic(auto, unfolding(crate::specs::Reading::files_in, crate::specs::Reading::rows_in))]
fn read_files<'a>(
    alloc: Global,
    cursor: &mut Cursor<'a>,
    dirs: MarkedDirs<'a>,
    strings: Strings<'a>,
    step: usize,
    bad: Fault,
    table: TablePlace<'a>,
    known: &mut Option<KnownRows<'a>>,
) -> Result<MarkedTable<'a>, ReadErr>
    requires known { AreOf table.line.now (strings_view strings) known.old }
    requires part { IsPart table.line.now table.start cursor.old }
    ensures table { TriesAt (λ t. t) bad cursor.new result (files_in (strings_view strings.entry) (marked_dirs_view dirs.entry) cursor.old) }
    ensures known { AreOf table.entry.line.now (strings_view strings.entry) known.new }
{
    let formats = formats(alloc, cursor, bad)?;
    let Ok(count) = cursor.uleb() else {
        return Err(ReadErr::Refused(bad));
    };
    let many = dirs.rows.len();
    if !has_dir(count, many) {
        return Err(ReadErr::Refused(bad));
    }
    let has_strp = either(dirs.strp, names_strs(&formats));
    let reader = RowReader {
        formats,
        strings,
        dirs: many,
    };
    let files = MarkedRows::read_or_known(alloc, cursor, reader, count, step, bad, table, known)?;
    Ok(MarkedTable {
        dirs: dirs.rows,
        files,
        has_strp,
    })
}

impl<'a> MarkedTable<'a> {
    /// Reads the line table at a place of `.debug_line`, as `KeptRows::read` does, and marks some of its directories and files: one
    /// after each `step` bytes, or few of them where they are known.
    pub(crate) fn read(
        alloc: Global,
        line: &'a [u8],
        line_strs: &'a [u8],
        strs: &'a [u8],
        at: u64,
        step: usize,
        known_dirs: &mut Option<KnownRows<'a>>,
        known_files: &mut Option<KnownRows<'a>>,
    ) -> Result<MarkedTable<'a>, ReadErr>
        requires dirs { AreOf line.now (sections strs.now line_strs.now) known_dirs.old }
        requires files { AreOf line.now (sections strs.now line_strs.now) known_files.old }
        ensures table { Answers (λ t. t) result (file_table_at (sections strs.now line_strs.now) line.now at) }
        ensures dirs { AreOf line.now (sections strs.now line_strs.now) known_dirs.new }
        ensures files { AreOf line.now (sections strs.now line_strs.now) known_files.new }
    {
        let bad = bad_at(at);
        let strings = Strings { strs, line_strs };
        let Some(mut cursor) = tables_of(line, at) else {
            return Err(ReadErr::Refused(bad));
        };
        let table = TablePlace {
            line,
            start: at as usize,
        };
        let dirs = read_directories(alloc, &mut cursor, strings, step, bad, table, known_dirs)?;
        read_files(
            alloc,
            &mut cursor,
            dirs,
            strings,
            step,
            bad,
            table,
            known_files,
        )
    }

    /// How many directories and files there are.
    pub(crate) fn size(&self) -> u64 {
        self.dirs.len().saturating_add(self.files.len())
    }

    /// How many files there are.
    pub(crate) fn files(&self) -> u64
        ensures { result ≡ length self.now.paths }
    {
        self.files.len()
    }

    /// The path of a file by its number, counted from 0, as that of `KeptRows`.
    pub(crate) fn path(&self, alloc: Global, index: u64) -> Result<Option<Vec<u8>>, NoMemory>
        ensures { IfOk result (λ o. option_map (λ v. v.items) o ≡ nth_path self.now.paths index) }
    {
        let Some(row) = self.files.row(index) else {
            return Ok(None);
        };
        let path = joined(alloc, self.dirs.path(0), self.dirs.path(row.dir), &row)?;
        Ok(Some(path))
    }

    /// Whether a format of the table has the form strp.
    pub(crate) fn has_strp(&self) -> bool
        ensures { result ≡ self.now.has_strp }
    {
        self.has_strp
    }
}
