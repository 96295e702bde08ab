//! Tables whose rows are known: where these end, and marks of some of them.

ghost use Rattle.std.specs.Prelude.{◌≡◌, ◌<◌, IfOk, IfSome};
ghost use Rattle.dwz_lines.specs.Known.{IsFurther, IsPart, Skips};
ghost use Rattle.dwz_lines.specs.KnownViews.{AreOf, IsOf, IsRun, IsSound};
ghost use Rattle.dwz_lines.specs.RowViews.{item_of, strings_view};

use crate::known_rows::KnownRows;
use crate::marked_rows::{Mark, RowReader, again};
use dwz_bytes::Cursor;
use dwz_model::NoMemory;
use std::alloc::Global;

// Fewer rows of a table aren't kept to be known.
const FEWEST: u64 = 16;

// A table's rows are kept in place of those of another reader where it has more of them than one for so many bytes of the section.
const BYTES_FOR_ROW: usize = 16;

/// A section, and where a table begins there.
#[derive(Clone, Copy)]
pub(crate) struct TablePlace<'a> {
    pub(crate) line: &'a [u8],
    pub(crate) start: usize,
}

/// Marks of some of so many rows, and where the rows end.
#[derive(Drop)]
pub(crate) struct Run<'a> {
    pub(crate) marks: Vec<Mark<'a>>,
    pub(crate) end: Cursor<'a>,
}

// Behind so many bytes, if there are.
fn further<'a>(cursor: &Cursor<'a>, bytes: usize) -> Option<Cursor<'a>>
    ensures { IsFurther bytes cursor.now result }
{
    let all = cursor.bytes();
    let at = cursor.at();
    if bytes > all.len() - at {
        return None;
    }
    Some(Cursor::new(all, at + bytes))
}

// Behind so many rows of a table that begins at a place, if they are known.
fn stretch<'a>(
    known: &KnownRows<'a>,
    start: usize,
    cursor: &Cursor<'a>,
    rows: u64,
) -> Option<Cursor<'a>>
    requires sound { IsSound known.now }
    requires part { IsPart known.now.line.now start cursor.now }
    ensures skips { IfSome result (Skips (item_of known.now.reader) rows cursor.now) }
    ensures part { IfSome result (IsPart known.now.line.now start) }
{
    let place = start.checked_add(cursor.at())?;
    let walked = known.walk(place, rows);
    if walked.left > 0 {
        return None;
    }
    further(cursor, walked.bytes)
}

// For how many of so many rows there is one mark: directories and files together get about one for `step` bytes that are left of their table.
fn rows_for_mark(cursor: &Cursor, count: u64, step: usize) -> u64
    ensures { 0 < result }
{
    let bytes = cursor.bytes().len() - cursor.at();
    let marks = bytes / step.max(1) / 2 + 2;
    count / marks as u64 + 1
}

// So many rows of a table that begins at a place, if they are known.
fn marked_run<'a>(
    alloc: Global,
    known: &KnownRows<'a>,
    start: usize,
    cursor: &Cursor<'a>,
    count: u64,
    step: usize,
) -> Result<Option<Run<'a>>, NoMemory>
    requires sound { IsSound known.now }
    requires part { IsPart known.now.line.now start cursor.now }
    ensures { IfOk result (λ o. IfSome o (IsRun (item_of known.now.reader) count cursor.now)) }
{
    let stride = rows_for_mark(cursor, count, step);
    let mut marks = Vec::new(alloc);
    let mut end = again(cursor);
    let mut number = 0;
    while number < count {
        let begin = again(&end);
        marks.push(Mark { number, begin })?;
        let rows = stride.min(count - number);
        let Some(next) = stretch(known, start, &end, rows) else {
            return Ok(None);
        };
        end = next;
        number += rows;
    }
    Ok(Some(Run { marks, end }))
}

/// So many rows of a table, if they are known of its reader, of which some are marked.
pub(crate) fn known_run<'a>(
    alloc: Global,
    known: &Option<KnownRows<'a>>,
    table: TablePlace<'a>,
    reader: &RowReader<'a>,
    cursor: &Cursor<'a>,
    count: u64,
    step: usize,
) -> Result<Option<Run<'a>>, NoMemory>
    requires known { AreOf table.line.now (strings_view reader.now.strings) known.now }
    requires part { IsPart table.line.now table.start cursor.now }
    ensures { IfOk result (λ o. IfSome o (IsRun (item_of reader.now) count cursor.now)) }
{
    match known {
        None => Ok(None),
        Some(rows) => {
            if rows.reader.is_same(reader) {
                marked_run(alloc, rows, table.start, cursor, count, step)
            } else {
                Ok(None)
            }
        }
    }
}

// The rows that are known of a reader.
fn rows_of<'a>(
    alloc: Global,
    known: Option<KnownRows<'a>>,
    line: &'a [u8],
    reader: &RowReader<'a>,
) -> Result<KnownRows<'a>, NoMemory>
    requires { AreOf line.now (strings_view reader.now.strings) known }
    ensures { IfOk result (IsOf line.now (strings_view reader.now.strings)) }
{
    if let Some(rows) = known {
        if rows.reader.is_same(reader) {
            return Ok(rows);
        }
    }
    let reader = reader.again(alloc)?;
    KnownRows::new(alloc, line, reader)
}

// Whether rows of a table are kept to be known.
fn is_worth<'a>(
    known: &Option<KnownRows<'a>>,
    bytes: usize,
    reader: &RowReader<'a>,
    rows: u64,
) -> bool {
    if rows < FEWEST {
        return false;
    }
    match known {
        None => true,
        Some(other) => other.reader.is_same(reader) || rows > (bytes / BYTES_FOR_ROW) as u64,
    }
}

/// Reads rows of a table, where it's worth it, so that they're known. As many again are read: another table may have these too.
pub(crate) fn learn_rows<'a>(
    alloc: Global,
    known: &mut Option<KnownRows<'a>>,
    table: TablePlace<'a>,
    reader: &RowReader<'a>,
    cursor: &Cursor<'a>,
    rows: u64,
) -> Result<(), NoMemory>
    requires { AreOf table.line.now (strings_view reader.now.strings) known.old }
    ensures { AreOf table.entry.line.now (strings_view reader.now.strings) known.new }
{
    if !is_worth(known, table.line.len(), reader, rows) {
        return Ok(());
    }
    let before = known.take();
    let mut more = rows_of(alloc, before, table.line, reader)?;
    let place = table.start.saturating_add(cursor.at());
    more.learn(alloc, place, rows.saturating_mul(2))?;
    *known = Some(more);
    Ok(())
}
