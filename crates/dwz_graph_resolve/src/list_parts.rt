//! Entries of a location list that are read up to one that was read before.
//!
//! A place at which an entry was read has a mark, the number of the row that was made then. So a list is read once, however many values
//! name what is behind one of its entries.

ghost use Rattle.std.specs.Prelude.{◌≡◌, ◌≤◌, [], length, OnOk};
ghost use Rattle.dwz_graph_resolve.specs.ListParts.{Fits, IsMark, Marks, MayStop, Puts, ReadsUp};

use crate::lists::ListRow;
use dwz_expr::Operand;
use dwz_lists::entry_into;
use dwz_model::ReadErr;
use std::alloc::AllocError;

/// Where reading stops.
#[derive(Clone, Copy)]
pub(crate) struct Stop {
    /// The place behind the last byte that a row has.
    pub end: u64,
    /// Whether the list ends there, and no operand is in what wasn't read again.
    pub plain: bool,
}

/// The row that was made as an entry at a place was read, if one was.
pub(crate) fn row_at(rows: &[ListRow], marks: &[u32], place: u64) -> Option<ListRow>
    ensures { IsMark rows.now marks.now place result }
{
    match marks.get(place as usize) {
        None => None,
        Some(mark) => {
            if *mark == 0 {
                return None;
            }
            match rows.get(*mark as usize - 1) {
                None => None,
                Some(row) => Some(*row),
            }
        }
    }
}

// Where reading for a unit stops at a place, if it does.
fn stop_at(rows: &[ListRow], marks: &[u32], unit: u32, place: u64) -> Option<Stop>
    ensures { MayStop rows.now marks.now unit place result }
{
    match row_at(rows, marks, place) {
        None => None,
        Some(row) => {
            if row.plain {
                return Some(Stop {
                    end: row.end,
                    plain: true,
                });
            }
            if row.unit == unit {
                return Some(Stop {
                    end: place,
                    plain: false,
                });
            }
            None
        }
    }
}

/// Reads entries of the list at a place up to where reading stops, and appends their operands and their places.
pub(crate) fn read_up(
    operands: &mut Vec<Operand>,
    places: &mut Vec<u64>,
    section: &[u8],
    rows: &[ListRow],
    marks: &[u32],
    unit: u32,
    from: u64,
) -> Result<Stop, ReadErr>
    requires { from ≤ length section.now }
    ensures { operands.old.items ≡ [] → places.old.items ≡ []
        → ReadsUp section.now rows.now marks.now unit from operands.new.items places.new.items result }
{
    let mut place = from;
    loop {
        places.push(place)?;
        match entry_into(operands, section, place)? {
            None => {
                return Ok(Stop {
                    end: place + 1,
                    plain: true,
                });
            }
            Some(next) => place = next,
        }
        if let Some(stop) = stop_at(rows, marks, unit, place) {
            return Ok(stop);
        }
    }
}

/// Makes room for the marks of a section.
pub(crate) fn fit(marks: &mut Vec<u32>, section: &[u8]) -> Result<(), AllocError>
    ensures { OnOk result (Fits marks.old.items marks.new.items) }
{
    if marks.len() < section.len() {
        marks.resize(section.len(), 0)?;
    }
    Ok(())
}

// Marks a place.
fn put(marks: &mut Vec<u32>, place: u64, number: u32)
    ensures { Puts marks.old.items place number marks.new.items }
{
    if place < marks.len() as u64 {
        marks[place as usize] = number;
    }
}

/// Marks places with the number of a row.
pub(crate) fn mark(marks: &mut Vec<u32>, places: &[u64], number: u32)
    ensures { Marks marks.old.items places.now number marks.new.items }
{
    for place in places {
        put(marks, *place, number);
    }
}
