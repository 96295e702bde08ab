//! Files that values number (DWARF 5, 2.14 and 6.2.4): rows of their unit's line table.
//!
//! A line table is read once for each place that a unit names, and kept by its place. A row has a byte at least, so tables that don't
//! overlap keep all their rows; of those that do, rows that were read by the same formats before aren't read again.

ghost use Rattle.std.specs.Prelude.{◌≡◌, Some, true, slice_get};
ghost use Rattle.std.specs.Option.{is_some};
ghost use Rattle.dwz_forms.specs.RawValues.{raw_view};
ghost use Rattle.dwz_def_reading.specs.LineTables.{FileTable};
ghost use Rattle.dwz_def_reading.specs.Meanings;
ghost use Rattle.dwz_def_reading.specs.Classes;
ghost use Rattle.dwz_def_reading.specs.Meanings.{path_by};
ghost use Rattle.dwz_model.specs.declared.fault.ReadErr.TheVariants.{Refused};
ghost use Rattle.dwz_model.specs.declared.fault.Reason.TheVariants.{BadFile};
ghost use Rattle.dwz_def_reading.specs.Faults.{Answers, info_fault};
ghost use Rattle.dwz_graph_resolve.specs.FileRows.{FindsTable, IfLearns, IsLine, KnowTables, SaysConstant, SaysFile, line_of, number_at};
ghost use Rattle.dwz_graph_resolve.specs.FileRows.{unless_none};
ghost use Rattle.dwz_graph_resolve.specs.Quick.{HasFileAt};
ghost use Rattle.dwz_graph_resolve.specs.Resolved.{sources_view};

use crate::here::Here;
use crate::places::TablePlaces;
use crate::sections::InputSections;
use dwz_codes::names_file;
use dwz_forms::Raw;
use dwz_lines::{LineSections, TableRows};
use dwz_model::{DEBUG_INFO, Fault, ReadErr, Reason};
use std::alloc::Global;

/// The line tables that were read.
#[derive(Drop)]
pub(crate) struct Files<'a> {
    pub alloc: Global,
    /// The tables.
    pub tables: Vec<TableRows<'a>>,
    /// How many rows of directories and files they keep, all together: at most as many as `.debug_line` has bytes.
    pub rows: usize,
    /// The number of the table at a place of `.debug_line`.
    pub places: TablePlaces,
    /// The sections that tables are read from, once one was.
    pub line: Option<LineSections<'a>>,
}

fn bad_file(at: u64) -> ReadErr
    ensures { result ≡ Refused (info_fault at BadFile) }
{
    ReadErr::Refused(Fault {
        section: DEBUG_INFO,
        at,
        reason: Reason::BadFile,
    })
}

// The number that a value stores.
#[inline(always)]
fn number_of(raw: &Raw) -> i128
    ensures { result ≡ Meanings.number_of (raw_view raw.now) }
{
    match raw {
        Raw::Number(number) => *number,
        Raw::Bytes(_) => 0,
    }
}

// Whether a table has a file of that number. None has 2^64 files.
#[inline(always)]
fn has_path(table: &TableRows, number: i128) -> bool
    ensures { result ≡ is_some (path_by table.now number) }
{
    if number < 0 {
        return false;
    }
    if number > u64::MAX as i128 {
        return table.has_path(u64::MAX);
    }
    table.has_path(number as u64)
}

// The same of the table with a number.
#[inline(always)]
fn has_row(tables: &[TableRows], table: usize, number: i128) -> bool
    ensures { (t : FileTable) → slice_get tables.now table ≡ Some t → result ≡ is_some (path_by t number) }
{
    if table >= tables.len() {
        return false;
    }
    has_path(&tables[table], number)
}

// Goes on where a file is there.
#[inline(always)]
fn unless_missing(is_there: bool, at: u64) -> Result<(), ReadErr>
    ensures { Answers (λ u. tt) result (unless_none at is_there) }
{
    if is_there { Ok(()) } else { Err(bad_file(at)) }
}

// The sections that tables are read from: those that they were read from before, if one was.
fn line_sections<'a>(
    before: Option<LineSections<'a>>,
    sections: &InputSections<'a>,
) -> LineSections<'a>
    ensures { IsLine (sources_view sections.now) before.entry → result ≡ line_of (sources_view sections.now) }
{
    match before {
        Some(line) => line,
        None => LineSections::new(sections.line, sections.line_strs.bytes, sections.strs.bytes),
    }
}

impl<'a> Files<'a> {
    /// None was read.
    pub(crate) fn new(alloc: Global) -> Files<'a>
        ensures { (sources : Meanings.Sources) → KnowTables sources result }
    {
        Files {
            alloc,
            tables: Vec::new(alloc),
            rows: 0,
            places: TablePlaces::new(alloc),
            line: None,
        }
    }

    /// The number of the table at a place, if there is a place, and its table was read.
    pub(crate) fn number_at(&self, line: Option<u32>) -> Option<usize>
        ensures { result ≡ number_at self.now line }
    {
        match line {
            None => None,
            Some(place) => self.places.get(place),
        }
    }

    /// The number of the table at a place, which is read unless it was read before.
    fn table(&mut self, sections: &InputSections<'a>, place: u32) -> Result<usize, ReadErr>
        ensures learns { IfLearns true (Some place) self.old self.new result }
        ensures finds { KnowTables (sources_view sections.now) self.old → FindsTable (sources_view sections.now) place self.new result }
    {
        if let Some(table) = self.places.find(place) {
            return Ok(table);
        }
        let mut left = sections.line.len().saturating_sub(self.rows);
        let before = self.line.take();
        let mut line = line_sections(before, sections);
        let table = line.read(self.alloc, place as u64, &mut left)?;
        self.line = Some(line);
        self.rows = sections.line.len().saturating_sub(left);
        let number = self.tables.as_slice().len();
        self.tables.push(table)?;
        self.places.insert(place, number)?;
        Ok(number)
    }

    /// Whether a value numbers a file of the table that was asked for last, which begins at `line`.
    #[inline(always)]
    pub(crate) fn has_at_once(&self, line: Option<u32>, raw: &Raw) -> bool
        ensures { result ≡ true → HasFileAt self.now line (Meanings.number_of (raw_view raw.now)) }
    {
        match line {
            None => false,
            Some(place) => match self.places.last_at(place) {
                None => false,
                Some(table) => has_row(&self.tables, table, number_of(raw)),
            },
        }
    }

    /// Goes on where a value that stands at a place numbers a file of its unit, whose line table begins at `line`, if it has one.
    #[inline(always)]
    pub(crate) fn check(
        &mut self,
        sections: &InputSections<'a>,
        line: Option<u32>,
        at: u64,
        raw: &Raw,
    ) -> Result<(), ReadErr>
        ensures learns { IfLearns true line self.old self.new result }
        ensures says { KnowTables (sources_view sections.now) self.old
            → SaysFile (sources_view sections.now) line at (Meanings.number_of (raw_view raw.now)) self.new result }
    {
        let number = number_of(raw);
        match line {
            None => unless_missing(number == 0, at),
            Some(place) => {
                let table = self.table(sections, place)?;
                let is_there = has_row(&self.tables, table, number);
                unless_missing(is_there, at)
            }
        }
    }
}

/// Goes on where a number says something: one of a file is that of a row of the unit's line table.
#[inline(always)]
pub(crate) fn check_constant<'a>(
    sections: &InputSections<'a>,
    here: &Here,
    at: u64,
    name: u16,
    raw: &Raw,
    files: &mut Files<'a>,
) -> Result<(), ReadErr>
    ensures learns { IfLearns (Classes.names_file name) here.now.line files.old files.new result }
    ensures says { KnowTables (sources_view sections.now) files.old
        → SaysConstant (sources_view sections.now) here.now.line name at (Meanings.number_of (raw_view raw.now)) files.new result }
{
    if names_file(name) {
        files.check(sections, here.line, at, raw)
    } else {
        Ok(())
    }
}
