//! Rows of which some are marked.
//!
//! A row begins where the one before it ends, so which it is that has a number shows only where all before it are read. So of some rows it is
//! kept where they begin, and any other is found by reading on from the nearest of these before it.

ghost use Rattle.std.specs.Prelude.{◌≡◌, ◌≤◌, true, Option, IfOk, OnOk, Some, length, map, slice_get};
ghost use Rattle.std.specs.List.{All};
ghost use Rattle.std.specs.Option.{option_map};
ghost use Rattle.dwz_bytes.specs.Input.{Input};
ghost use Rattle.dwz_def_reading.specs.LineTables.{PathRow};
ghost use Rattle.dwz_lines.specs.Known.{IsPart};
ghost use Rattle.dwz_lines.specs.KnownViews.{AreOf, IsRun};
ghost use Rattle.dwz_lines.specs.Marks.{IsMark, nth_in};
ghost use Rattle.dwz_lines.specs.Reading.{FindsAt, TriesAt, path_of, path_or_none, times_in};
ghost use Rattle.dwz_lines.specs.RowViews.{item_of, row_view, strings_view};

use crate::formats::Format;
use crate::known_rows::KnownRows;
use crate::rows::{Row, Strings, one_row};
use crate::runs::{Run, TablePlace, known_run, learn_rows};
use dwz_bytes::Cursor;
use dwz_model::{Fault, NoMemory, ReadErr};
use std::alloc::Global;
use std::marker::Model;

/// How rows are read: by formats, with texts, each in one of so many directories.
#[derive(Drop)]
pub(crate) struct RowReader<'a> {
    pub(crate) formats: Vec<Format>,
    pub(crate) strings: Strings<'a>,
    pub(crate) dirs: u64,
}

/// A row that is marked: its number, and where it begins.
#[derive(Drop)]
pub(crate) struct Mark<'a> {
    pub(crate) number: u64,
    pub(crate) begin: Cursor<'a>,
}

/// The rows of directories or of files, by their numbers: where the first begins, and where some of the others do. Clauses see what they say.
#[derive(Drop)]
pub(crate) struct MarkedRows<'a> {
    reader: RowReader<'a>,
    count: u64,
    begin: Cursor<'a>,
    marks: Vec<Mark<'a>>,
}

impl<'a> Model for MarkedRows<'a> {
    ghost use Rattle.std.specs.Prelude.{List};
    ghost use Rattle.dwz_def_reading.specs.LineTables.{PathRow};
    ghost use Rattle.dwz_lines.specs.Marks.{AreMarked, rows_up_to};
    ghost use Rattle.dwz_lines.specs.RowViews.{item_of};

    ghost Value = { List PathRow };

    ghost view = { λ r. rows_up_to (item_of r.reader) r.count r.begin };

    ghost invariant = { λ r. AreMarked (item_of r.reader) r.count r.begin r.marks.items };
}

/// The same place.
pub(crate) fn again<'a>(cursor: &Cursor<'a>) -> Cursor<'a>
    ensures { result ≡ cursor.now }
{
    Cursor::new(cursor.bytes(), cursor.at())
}

// Whether formats are the same.
fn same_formats(one: &[Format], other: &[Format]) -> bool
    ensures { result ≡ true → one.now ≡ other.now }
{
    one == other
}

// The same formats.
fn copy_formats(alloc: Global, formats: &[Format]) -> Result<Vec<Format>, NoMemory>
    ensures { IfOk result (λ v. v.items ≡ formats.now) }
{
    let mut copy = Vec::new(alloc);
    copy.extend_from_slice(formats)?;
    Ok(copy)
}

impl<'a> RowReader<'a> {
    /// Whether rows are read in the same way, if their texts stand in the same sections.
    pub(crate) fn is_same(&self, other: &RowReader<'a>) -> bool
        ensures { result ≡ true → strings_view self.now.strings ≡ strings_view other.now.strings → item_of self.now ≡ item_of other.now }
    {
        self.dirs == other.dirs && same_formats(&self.formats, &other.formats)
    }

    /// The same reader.
    pub(crate) fn again(&self, alloc: Global) -> Result<RowReader<'a>, NoMemory>
        ensures item { IfOk result (λ r. item_of r ≡ item_of self.now) }
        ensures strings { IfOk result (λ r. strings_view r.strings ≡ strings_view self.now.strings) }
    {
        let formats = copy_formats(alloc, &self.formats)?;
        Ok(RowReader {
            formats,
            strings: self.strings,
            dirs: self.dirs,
        })
    }

    /// The next row.
    pub(crate) fn next(&self, cursor: &mut Cursor<'a>) -> Option<Row<'a>>
        ensures { FindsAt row_view cursor.new result (item_of self.now cursor.old) }
    {
        one_row(cursor, &self.formats, self.strings, self.dirs)
    }

    // The row behind so many.
    fn behind(&self, cursor: Cursor<'a>, skipped: u64) -> Option<Row<'a>>
        ensures { option_map row_view result ≡ nth_in (item_of self.now) skipped cursor.entry }
    {
        let mut cursor = cursor;
        for _number in 0..skipped {
            let Some(_row) = self.next(&mut cursor) else {
                return None;
            };
        }
        self.next(&mut cursor)
    }
}

// The place of the last mark, or else that of the first row.
fn last_place(begin: &Cursor, marks: &[Mark]) -> usize {
    match marks.last() {
        Some(mark) => mark.begin.at(),
        None => begin.at(),
    }
}

// Marks a row, if it begins so many bytes behind the last mark.
fn put_mark<'a>(
    marks: &mut Vec<Mark<'a>>,
    number: u64,
    step: usize,
    begin: &Cursor<'a>,
    cursor: &Cursor<'a>,
) -> Result<(), NoMemory>
    ensures { (item : Input → Option (PathRow × Input)) → IsMark item begin.now (record { number = number; begin = cursor.now })
        → All (IsMark item begin.now) marks.old.items → OnOk result (All (IsMark item begin.now) marks.new.items) }
{
    if cursor.at().saturating_sub(last_place(begin, marks)) < step {
        return Ok(());
    }
    let begin = again(cursor);
    marks.push(Mark { number, begin })?;
    Ok(())
}

// The last mark that isn't behind a row, or else the first row, where marks are in the order of rows.
fn nearest<'a>(begin: &Cursor<'a>, marks: &[Mark<'a>], index: u64) -> Mark<'a>
    ensures before { result.number ≤ index }
    ensures mark { (item : Input → Option (PathRow × Input)) → IsMark item begin.now (record { number = 0; begin = begin.now })
        → All (IsMark item begin.now) marks.now → IsMark item begin.now result }
{
    let mut best = Mark {
        number: 0,
        begin: again(begin),
    };
    let mut low = 0;
    let mut high = marks.len();
    while low < high {
        let middle = low + (high - low) / 2;
        let mark = &marks[middle];
        if mark.number <= index {
            best = Mark {
                number: mark.number,
                begin: again(&mark.begin),
            };
            low = middle + 1;
        } else {
            high = middle;
        }
    }
    best
}

impl<'a> MarkedRows<'a> {
    /// Reads so many rows, and marks one after each `step` bytes.
    pub(crate) fn read(
        alloc: Global,
        cursor: &mut Cursor<'a>,
        reader: RowReader<'a>,
        count: u64,
        step: usize,
        bad: Fault,
    ) -> Result<MarkedRows<'a>, ReadErr>
        ensures { TriesAt (λ rows. rows) bad cursor.new result (times_in (item_of reader.entry) count cursor.old) }
    {
        let begin = again(cursor);
        let mut marks = Vec::new(alloc);
        for number in 0..count {
            put_mark(&mut marks, number, step, &begin, cursor)?;
            let Some(_row) = reader.next(cursor) else {
                return Err(ReadErr::Refused(bad));
            };
        }
        Ok(MarkedRows {
            reader,
            count,
            begin,
            marks,
        })
    }

    /// So many rows that are known.
    pub(crate) fn of_run(
        cursor: &mut Cursor<'a>,
        reader: RowReader<'a>,
        count: u64,
        run: Run<'a>,
    ) -> MarkedRows<'a>
        requires { IsRun (item_of reader) count cursor.old run }
        ensures { times_in (item_of reader.entry) count cursor.old ≡ Some (result, cursor.new) }
    {
        let begin = again(cursor);
        *cursor = run.end;
        MarkedRows {
            reader,
            count,
            begin,
            marks: run.marks,
        }
    }

    /// Reads so many rows, unless they're known, and marks some.
    pub(crate) fn read_or_known(
        alloc: Global,
        cursor: &mut Cursor<'a>,
        reader: RowReader<'a>,
        count: u64,
        step: usize,
        bad: Fault,
        table: TablePlace<'a>,
        known: &mut Option<KnownRows<'a>>,
    ) -> Result<MarkedRows<'a>, ReadErr>
        requires known { AreOf table.line.now (strings_view reader.strings) known.old }
        requires part { IsPart table.line.now table.start cursor.old }
        ensures read { TriesAt (λ rows. rows) bad cursor.new result (times_in (item_of reader.entry) count cursor.old) }
        ensures known { AreOf table.entry.line.now (strings_view reader.entry.strings) known.new }
    {
        learn_rows(alloc, known, table, &reader, cursor, count)?;
        match known_run(alloc, known, table, &reader, cursor, count, step)? {
            Some(run) => Ok(MarkedRows::of_run(cursor, reader, count, run)),
            None => MarkedRows::read(alloc, cursor, reader, count, step, bad),
        }
    }

    /// How many rows there are.
    pub(crate) fn len(&self) -> u64
        ensures { result ≡ length self.now }
    {
        self.count
    }

    /// The row with a number, counted from 0. None exactly where there is none.
    pub(crate) fn row(&self, index: u64) -> Option<Row<'a>>
        ensures { option_map row_view result ≡ slice_get self.now index }
    {
        if index >= self.count {
            return None;
        }
        let mark = nearest(&self.begin, &self.marks, index);
        let skipped = index - mark.number;
        self.reader.behind(mark.begin, skipped)
    }

    /// The path of the row with a number, and an empty one where there is none.
    pub(crate) fn path(&self, index: u64) -> &'a [u8]
        ensures { result.now ≡ path_or_none (map path_of self.now) index }
    {
        match self.row(index) {
            Some(row) => row.path,
            None => &[],
        }
    }
}
