//! Tables that are read.

ghost use Rattle.std.specs.Prelude.{◌≡◌, All, IfErr, IfOk, IfSome, OnErr, true};
ghost use Rattle.std.specs.Option.{option_map};
ghost use Rattle.dwz_def_reading.specs.Abbrevs.{FitsTable, declaration_at, table_at};
ghost use Rattle.dwz_def_reading.specs.Faults.{Answers, AnswersAt, Fails};
ghost use Rattle.dwz_abbrev.specs.ReadParts.{IsIn};
ghost use Rattle.dwz_abbrev.specs.Starts.{IsReadUpTo, IsStop};
ghost use Rattle.dwz_abbrev.specs.ReadViews.{IsInRow, read_view, read_views};
ghost use Rattle.dwz_abbrev.specs.Written.{Begins};

use crate::pair_row::PairRow;
use crate::read_decl::ReadDecl;
use crate::read_pair::bad;
use crate::read_rows::ReadRows;
use crate::table::Table;
use dwz_bytes::Cursor;
use dwz_model::ReadErr;
use std::alloc::Global;

// A declaration behind the earlier ones, or the end of the table. Its names and forms are in the row.
#[tactic(auto, unfolding(dwz_def_reading::specs::Abbrevs::declaration_at))]
fn declaration<'a>(
    alloc: Global,
    earlier: &ReadRows,
    cursor: &mut Cursor<'a>,
    pairs: &mut PairRow<'a>,
) -> Result<Option<ReadDecl>, ReadErr>
    requires { IsIn pairs.old.section cursor.old }
    ensures decl { AnswersAt (option_map (read_view pairs.new.row)) cursor.new result (declaration_at (read_views pairs.old.row earlier.now) cursor.old) }
    ensures within { IfOk result (λ o. IfSome o (IsInRow pairs.new.row)) }
    ensures begins { Begins pairs.old.row pairs.new.row }
    ensures section { pairs.new.section ≡ pairs.old.section }
{
    let start = cursor.at();
    let fault = |_| bad(start);
    let code = cursor.uleb().map_err(fault)?;
    if code == 0 {
        return Ok(None);
    }
    let tag = cursor.uleb().map_err(fault)?;
    let children = cursor.u8().map_err(fault)?;
    if tag == 0 || tag > 0xffff || children > 1 || earlier.has(code) {
        return Err(bad(start));
    }
    let part = pairs.part_at(alloc, start, cursor)?;
    Ok(Some(ReadDecl {
        code,
        first: part.first,
        count: part.end - part.first,
        tag: tag as u16,
        children: children == 1,
    }))
}

/// Declarations of a table that were read, and where each begins, in bytes from the section's first.
#[derive(Drop)]
pub struct ReadTable {
    pub rows: ReadRows,
    pub starts: Vec<usize>,
    /// Where the table goes on, if it wasn't read to its end.
    pub stop: Option<usize>,
}

// For how many declarations there is room at once.
const ROOM: usize = 32;

// Whether a place is in one of the lists, which ascend.
fn is_stop(stops: &[&[usize]], place: usize) -> bool
    ensures { result ≡ true → IsStop stops.now place }
{
    for list in stops {
        if let Ok(_) = list.binary_search(&place) {
            return true;
        }
    }
    false
}

// The declarations of the table at a place, up to one of the stops or to the end. Their names and forms are in the row.
fn rows(
    alloc: Global,
    at: usize,
    stops: &[&[usize]],
    pairs: &mut PairRow,
) -> Result<ReadTable, ReadErr>
    ensures read { IfOk result (λ r. IsReadUpTo pairs.old.section at (read_views pairs.new.row r.rows) r.starts.items r.stop) }
    ensures fits { IfOk result (λ r. FitsTable (read_views pairs.new.row r.rows)) }
    ensures within { IfOk result (λ r. All (IsInRow pairs.new.row) r.rows) }
    ensures stop { IfOk result (λ r. IfSome r.stop (IsStop stops.now)) }
    ensures begins { Begins pairs.old.row pairs.new.row }
    ensures section { pairs.new.section ≡ pairs.old.section }
    ensures fault { IfErr result (λ e. Fails e (table_at pairs.old.section at)) }
{
    let section = pairs.section();
    if at > section.len() {
        return Err(bad(at));
    }
    let mut rows = ReadRows::with_capacity(alloc, ROOM)?;
    let mut starts = Vec::with_capacity(alloc, ROOM)?;
    let mut cursor = Cursor::new(section, at);
    let mut start = at;
    while !is_stop(stops, start) {
        let Some(decl) = declaration(alloc, &rows, &mut cursor, pairs)? else {
            return Ok(ReadTable {
                rows,
                starts,
                stop: None,
            });
        };
        rows.push(decl)?;
        starts.push(start)?;
        start = cursor.at();
    }
    Ok(ReadTable {
        rows,
        starts,
        stop: Some(start),
    })
}

impl ReadTable {
    /// Reads the table at an offset of `.debug_abbrev`, in bytes from the section's first (DWARF 5, 7.5.3), up to a declaration that
    /// begins at one of the `stops`, ascending lists of places, or else to its end. Names and forms that the row of the section hasn't yet
    /// are appended to it. Says where each declaration begins: the table there is the end of this one. Refused as `BadAbbrev` at the first
    /// declaration that isn't spelled, or whose code one before it has, or at the offset where that is past the end of the section. After an
    /// error the row is as before.
    pub fn read_up_to(
        alloc: Global,
        at: u32,
        stops: &[&[usize]],
        pairs: &mut PairRow,
    ) -> Result<ReadTable, ReadErr>
        ensures read { IfOk result (λ r. IsReadUpTo pairs.old.section at (read_views pairs.new.row r.rows) r.starts.items r.stop) }
        ensures within { IfOk result (λ r. All (IsInRow pairs.new.row) r.rows) }
        ensures stop { IfOk result (λ r. IfSome r.stop (IsStop stops.now)) }
        ensures begins { Begins pairs.old.row pairs.new.row }
        ensures section { pairs.new.section ≡ pairs.old.section }
        ensures fault { IfErr result (λ e. Fails e (table_at pairs.old.section at)) }
        ensures err { OnErr result (pairs.new.row ≡ pairs.old.row) }
    {
        let len = pairs.as_slice().len();
        let read = rows(alloc, at as usize, stops, pairs);
        if read.is_err() {
            pairs.truncate(len);
        }
        read
    }
}

impl Table {
    /// Reads the whole table at an offset of `.debug_abbrev`, in bytes from the section's first (DWARF 5, 7.5.3). Refused as `BadAbbrev` at
    /// the first declaration that isn't spelled, or whose code one before it has, or at the offset where that is past the end of the section.
    pub fn read(alloc: Global, section: &[u8], at: u32) -> Result<Table, ReadErr>
        ensures { Answers (λ t. t) result (table_at section.now at) }
    {
        let mut pairs = PairRow::new(alloc, section);
        let ReadTable { rows, .. } = rows(alloc, at as usize, &[], &mut pairs)?;
        let rows = rows.apart(alloc, pairs.as_slice())?;
        Ok(Table { rows })
    }
}
