//! Tables that were read, each with the end of another that follows its own declarations.

ghost use Rattle.std.specs.Prelude.{◌≡◌, IfSome, List, drop, true};
ghost use Rattle.dwz_def_reading.specs.Abbrevs.{find_decl};
ghost use Rattle.dwz_abbrev.specs.Starts.{HaveOtherCodes};
ghost use Rattle.dwz_abbrev.specs.ReadViews.{read_views};
ghost use Rattle.dwz_model.specs.declared.place.Pair.{Pair};
ghost use Rattle.dwz_unit.specs.Found.{Finds, all_pairs};
ghost use Rattle.dwz_unit.specs.TableViews.{HaveRow, table_views};
ghost use Rattle.dwz_unit.specs.Tails.{AreLinked, BeginsAt, StartsIn, whole_tables, tail_in};

use crate::joined_table::{JoinedTable, TableInRow};
use crate::numbered::Numbered;
use crate::tail::Tail;
use dwz_abbrev::ReadDecl;
use dwz_model::Pair;

impl<'t> TableInRow<'t> {
    ghost use Rattle.std.specs.Prelude.{drop};
    ghost use Rattle.dwz_def_reading.specs.Abbrevs.{find_decl};
    ghost use Rattle.dwz_unit.specs.Found.{FindsOwn};
    ghost use Rattle.dwz_unit.specs.RowViews.{in_row};

    /// Its own declaration with a code, of those behind the first so many.
    #[inline(always)]
    pub(crate) fn own(self, skip: usize, code: u64) -> Option<Numbered<'t>>
        ensures { FindsOwn (in_row self.entry) (find_decl (drop skip (in_row self.entry).table) code) result }
    {
        let place = self.read.rows.place_behind(skip, code)?;
        let decl = &self.read.rows.as_slice()[place];
        Some(Numbered {
            decl,
            pairs: &self.row[decl.first..decl.first + decl.count],
            number: self.read.first + place as u32,
        })
    }
}

// The end of the table with that number that begins with a declaration of its own at a place, if it has one.
fn tail_of(reads: &[JoinedTable], base: usize, place: usize) -> Option<Tail>
    ensures { (row : List Pair) → IfSome result (BeginsAt (table_views row reads.now) place) }
{
    let read = reads.get(base)?;
    match read.starts.as_slice().binary_search(&place) {
        Ok(skip) => Some(Tail { base, skip }),
        Err(_) => None,
    }
}

/// The end of one of the tables with these numbers that begins with a declaration of its own at a place, if one has it.
pub(crate) fn tail_among(reads: &[JoinedTable], numbers: &[usize], place: usize) -> Option<Tail>
    ensures { (row : List Pair) → IfSome result (BeginsAt (table_views row reads.now) place) }
{
    for base in numbers {
        let tail = tail_of(reads, *base, place);
        if tail.is_some() {
            return tail;
        }
    }
    None
}

/// The declaration with a code of the end of a table, behind the first so many of that end. Names and forms lie in the row.
pub(crate) fn find_past<'t>(
    reads: &'t [JoinedTable],
    row: &'t [Pair],
    tail: Tail,
    past: usize,
    code: u64,
) -> Option<Numbered<'t>>
    requires linked { AreLinked (table_views row.now reads.now) (whole_tables (table_views row.now reads.now)) }
    requires tail { StartsIn (table_views row.now reads.now) tail }
    requires row { HaveRow row.now reads.now }
    ensures { Finds (all_pairs (table_views row.now reads.now)) (find_decl (drop past (tail_in (whole_tables (table_views row.now reads.now)) tail)) code) result }
{
    let mut tail = tail;
    let mut past = past;
    while let Some(read) = reads.get(tail.base) {
        let left = read.rows.len() - tail.skip;
        let first = tail.skip.saturating_add(past);
        let table = TableInRow { read, row };
        if let Some(found) = table.own(first, code) {
            return Some(found);
        }
        past = past.saturating_sub(left);
        tail = read.next?;
    }
    None
}

/// Whether none of the declarations has its code in the end of a table.
pub(crate) fn are_apart(reads: &[JoinedTable], row: &[Pair], decls: &[ReadDecl], tail: Tail) -> bool
    requires linked { AreLinked (table_views row.now reads.now) (whole_tables (table_views row.now reads.now)) }
    requires tail { StartsIn (table_views row.now reads.now) tail }
    requires row { HaveRow row.now reads.now }
    ensures { result ≡ true → HaveOtherCodes (read_views row.now decls.now) (tail_in (whole_tables (table_views row.now reads.now)) tail) }
{
    for decl in decls {
        if find_past(reads, row, tail, 0, decl.code).is_some() {
            return false;
        }
    }
    true
}
