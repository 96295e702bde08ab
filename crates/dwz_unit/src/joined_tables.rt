//! Abbreviation tables that were read, and the ends of them that are others.

ghost use Rattle.std.specs.Prelude.{◌≡◌, ◌<◌, ◌++◌, [], IfOk, IfSome, OnOk, drop, length, map};
ghost use Rattle.dwz_def_reading.specs.Abbrevs.{find_decl};
ghost use Rattle.dwz_unit.specs.FixedRuns.{TellRuns};
ghost use Rattle.dwz_unit.specs.Found.{Finds, StandsIn};
ghost use Rattle.dwz_unit.specs.RowViews.{in_row, spans_of};
ghost use Rattle.dwz_unit.specs.Tails.{FindsFirst, FindsTail, HasTail, tail_in};

use crate::fixed_run::{FixedRun, put_runs_in};
use crate::flat_rows::{FlatRows, PairRows, Span};
use crate::joined::{find_past, tail_among};
use crate::joined_table::{JoinedTable, TableInRow};
use crate::joins::{close_before, read_joined};
use crate::numbered::Numbered;
use crate::tail::Tail;
use dwz_abbrev::{PairRow, ReadDecl};
use dwz_model::{NoMemory, ReadErr};
use std::alloc::Global;
use std::collections::BTreeMap;
use std::marker::Model;

/// Abbreviation tables of a section: of each its own declarations, and the end of another with which it goes on. Clauses see the
/// section and the tables, by their numbers.
#[derive(Drop)]
pub(crate) struct JoinedTables<'a> {
    reads: Vec<JoinedTable>,
    // The section, and the names and forms of their declarations.
    pairs: PairRow<'a>,
    // The numbers of those whose last own declaration may begin at the last offset that was asked for, or behind it.
    open: Vec<usize>,
    // The end of a table that begins at an offset.
    tails: BTreeMap<u32, Tail>,
    // How many declarations they have.
    count: u32,
}

// Appends where the names and forms of each declaration are in the row.
fn put_spans(decls: &[ReadDecl], spans: &mut Vec<Span>) -> Result<(), NoMemory>
    ensures { OnOk result (spans.new.items ≡ spans.old.items ++ spans_of decls.now) }
{
    for decl in decls {
        spans.push(Span {
            first: decl.first,
            count: decl.count,
        })?;
    }
    Ok(())
}

impl<'a> Model for JoinedTables<'a> {
    ghost use Rattle.dwz_unit.specs.Tables.{Stored};

    ghost Value = { Stored };

    ghost use Rattle.dwz_unit.specs.TableViews.{HaveRow, table_views};
    ghost use Rattle.dwz_unit.specs.Tails.{AreJoinedTables, read_from};

    ghost view = { λ b. read_from b.pairs.section (table_views b.pairs.row b.reads.items) };

    ghost invariant = { λ b. AreJoinedTables b.pairs.section (table_views b.pairs.row b.reads.items) b.tails b.count × HaveRow b.pairs.row b.reads.items };
}

impl<'a> JoinedTables<'a> {
    /// No table of the section yet.
    pub fn new(alloc: Global, section: &'a [u8]) -> JoinedTables<'a>
        ensures { result ≡ record { section = section.now; tables = []; decls = [] } }
    {
        JoinedTables {
            reads: Vec::new(alloc),
            pairs: PairRow::new(alloc, section),
            open: Vec::new(alloc),
            tails: BTreeMap::new(alloc),
            count: 0,
        }
    }

    /// The table at an offset as the end of one of these, if it was asked for before.
    pub fn known_tail(&self, offset: u32) -> Option<Tail>
        ensures { IfSome result (HasTail self.now offset) }
    {
        self.tails.get(&offset).copied()
    }

    // The same, where it wasn't asked for before: the end of an open one, or else it is read.
    #[tactic(auto, using(crate::proofs::TailLemmas::grows_none))]
    fn new_tail(&mut self, alloc: Global, offset: u32) -> Result<Tail, ReadErr>
        ensures { FindsTail self.old self.new offset result }
    {
        let reads = self.reads.as_slice();
        let open = self.open.as_slice();
        if let Some(tail) = tail_among(reads, open, offset as usize) {
            return Ok(tail);
        }
        let read = read_joined(alloc, offset, reads, open, self.count, &mut self.pairs)?;
        let base = self.reads.len();
        let count = self.count + read.rows.len() as u32;
        self.reads.push(read)?;
        self.count = count;
        self.open.push(base)?;
        Ok(Tail { base, skip: 0 })
    }

    /// The table at an offset of the section, as the end of one of these. It is read if none is known to have such an end. Least
    /// memory is taken where offsets ascend.
    #[tactic(auto, using(crate::proofs::TailLemmas::grows_none))]
    pub fn tail_at(&mut self, alloc: Global, offset: u32) -> Result<Tail, ReadErr>
        ensures { FindsTail self.old self.new offset result }
    {
        if let Some(tail) = self.known_tail(offset) {
            return Ok(tail);
        }
        close_before(self.reads.as_slice(), offset as usize, &mut self.open);
        let tail = self.new_tail(alloc, offset)?;
        self.tails.insert(offset, tail)?;
        Ok(tail)
    }

    /// The table of which that is an end. Its own declarations that aren't passed over are found first in the end.
    #[inline(always)]
    pub fn own(&self, tail: Tail) -> TableInRow<'_>
        requires { tail.base < length self.now.tables }
        ensures first { FindsFirst (drop tail.skip (in_row result).table) (tail_in self.now.tables tail) }
        ensures stands { StandsIn self.now.decls (in_row result) }
    {
        TableInRow {
            read: &self.reads[tail.base],
            row: self.pairs.as_slice(),
        }
    }

    /// The declaration with a code of the end of one of these tables. None exactly where it has none.
    #[inline(never)]
    pub fn find(&self, tail: Tail, code: u64) -> Option<Numbered<'_>>
        ensures { Finds self.now.decls (find_decl (tail_in self.now.tables tail) code) result }
    {
        let read = self.reads.get(tail.base)?;
        let row = self.pairs.as_slice();
        let table = TableInRow { read, row };
        if let Some(found) = table.own(tail.skip, code) {
            return Some(found);
        }
        let past = tail.skip.saturating_sub(read.rows.len());
        find_past(self.reads.as_slice(), row, read.next?, past, code)
    }

    /// How many tables there are.
    pub fn len(&self) -> usize
        ensures { result ≡ length self.now.tables }
    {
        self.reads.len()
    }

    /// Appends the runs of the declarations of all tables but the first so many, behind those whose runs are there.
    pub fn put_runs(&self, skip: usize, runs: &mut Vec<FixedRun>) -> Result<(), NoMemory>
        requires { TellRuns self.now.decls runs.old.items }
        ensures { TellRuns self.now.decls runs.new.items }
    {
        for base in skip..self.reads.len() {
            let tail = Tail { base, skip: 0 };
            put_runs_in(self.own(tail), runs)?;
        }
        Ok(())
    }

    /// The names and forms of all declarations, by their numbers.
    pub fn into_pairs(self, alloc: Global) -> Result<PairRows, NoMemory>
        ensures { IfOk result (λ pairs. pairs ≡ self.entry.decls) }
    {
        let JoinedTables {
            reads,
            pairs,
            count,
            ..
        } = self;
        let mut spans = Vec::with_capacity(alloc, count as usize)?;
        for read in reads.as_slice() {
            put_spans(read.rows.as_slice(), &mut spans)?;
        }
        Ok(FlatRows::from_parts(pairs.into_row(), spans))
    }
}
