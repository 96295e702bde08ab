//! Reading a table, up to where it goes on as the end of another.
//!
//! A table that begins where a declaration of another does is read as the end of that one: the same bytes stand there. One that begins
//! inside a declaration goes on so once both are at a declaration, which is soon, since each ends with two numbers 0, and numbers end at
//! the same bytes for whoever reads them. No clause rests on that: where they don't meet, a table is read to its own end. Only tables are
//! searched whose last own declaration begins at the offset or behind it, which are few where offsets ascend.

ghost use Rattle.std.specs.Prelude.{◌≡◌, IfErr, IfOk};
ghost use Rattle.dwz_model.specs.declared.fault.ReadErr.TheVariants.{NoMemory};
ghost use Rattle.dwz_abbrev.specs.Written.{Begins};
ghost use Rattle.dwz_def_reading.specs.Abbrevs.{table_at};
ghost use Rattle.dwz_def_reading.specs.Faults.{Fails};
ghost use Rattle.dwz_unit.specs.TableViews.{HasRow, HaveRow, table_views};
ghost use Rattle.dwz_unit.specs.Tails.{AreReadTables, FindsJoined, IsWhole, whole_tables};

use crate::joined::{are_apart, tail_among};
use crate::joined_table::JoinedTable;
use crate::tail::Tail;
use dwz_abbrev::{PairRow, ReadRows, ReadTable};
use dwz_model::{NoMemory, ReadErr};
use std::alloc::Global;

// Whether the last declaration of a table's own begins at a place or behind it.
fn reaches(reads: &[JoinedTable], base: usize, place: usize) -> bool {
    match reads.get(base) {
        Some(read) => match read.starts.as_slice().last() {
            Some(last) => *last >= place,
            None => false,
        },
        None => false,
    }
}

/// Drops the numbers of the tables whose own declarations all begin before a place.
pub(crate) fn close_before(reads: &[JoinedTable], place: usize, open: &mut Vec<usize>) {
    open.retain(|base| reaches(reads, *base, place));
}

// Where the declarations of tables begin, by their numbers.
fn starts_of<'t>(
    alloc: Global,
    reads: &'t [JoinedTable],
    open: &[usize],
) -> Result<Vec<&'t [usize]>, NoMemory> {
    let mut starts = Vec::with_capacity(alloc, open.len())?;
    for base in open {
        if let Some(read) = reads.get(*base) {
            starts.push(read.starts.as_slice())?;
        }
    }
    Ok(starts)
}

// A table that was read, whose declarations have the numbers from that one on, if these fit 32 bits.
fn joined(
    rows: ReadRows,
    starts: Vec<usize>,
    next: Option<Tail>,
    first: u32,
) -> Result<JoinedTable, ReadErr>
    ensures ok { IfOk result (λ r. (r.rows ≡ rows) × (r.starts.items ≡ starts.items) × (r.next ≡ next) × (r.first ≡ first)) }
    ensures err { IfErr result (λ e. e ≡ NoMemory) }
{
    if rows.len() > (u32::MAX - first) as usize {
        return Err(ReadErr::NoMemory);
    }
    Ok(JoinedTable {
        rows,
        starts,
        next,
        first,
    })
}

// Reads the whole table at an offset, whose declarations have the numbers from that one on.
fn read_whole(
    alloc: Global,
    offset: u32,
    first: u32,
    pairs: &mut PairRow,
) -> Result<JoinedTable, ReadErr>
    ensures read { IfOk result (λ r. IsWhole pairs.old.section pairs.new.row offset r) }
    ensures fault { IfErr result (λ e. Fails e (table_at pairs.old.section offset)) }
    ensures first { IfOk result (λ r. r.first ≡ first) }
    ensures within { IfOk result (HasRow pairs.new.row) }
    ensures begins { Begins pairs.old.row pairs.new.row }
    ensures section { pairs.new.section ≡ pairs.old.section }
{
    let ReadTable { rows, stop, .. } = ReadTable::read_up_to(alloc, offset, &[], pairs)?;
    if stop.is_some() {
        unreachable!()
    }
    joined(rows, Vec::new(alloc), None, first)
}

/// Reads the table at an offset, up to the first of its declarations that begins where one does of the open tables. A code that
/// stands again behind that place is a fault of the table, which is found by reading it whole. Its declarations have the numbers from
/// `first` on; NoMemory is answered too where they don't fit 32 bits. Names and forms that the row hasn't yet are appended to it.
pub(crate) fn read_joined(
    alloc: Global,
    offset: u32,
    reads: &[JoinedTable],
    open: &[usize],
    first: u32,
    pairs: &mut PairRow,
) -> Result<JoinedTable, ReadErr>
    requires known { AreReadTables pairs.old.section (table_views pairs.old.row reads.now) (whole_tables (table_views pairs.old.row reads.now)) }
    requires row { HaveRow pairs.old.row reads.now }
    ensures read { FindsJoined pairs.old.section pairs.new.row reads.now offset result }
    ensures first { IfOk result (λ r. r.first ≡ first) }
    ensures within { IfOk result (HasRow pairs.new.row) }
    ensures begins { Begins pairs.old.row pairs.new.row }
    ensures section { pairs.new.section ≡ pairs.old.section }
{
    let stops = starts_of(alloc, reads, open)?;
    let ReadTable { rows, starts, stop } = ReadTable::read_up_to(
        alloc,
        offset,
        stops.as_slice(),
        pairs,
    )?;
    let next = match stop {
        Some(place) => tail_among(reads, open, place),
        None => {
            return joined(rows, starts, None, first);
        }
    };
    match next {
        Some(tail) if are_apart(reads, pairs.as_slice(), rows.as_slice(), tail) => {
            joined(rows, starts, next, first)
        }
        _ => read_whole(alloc, offset, first, pairs),
    }
}
