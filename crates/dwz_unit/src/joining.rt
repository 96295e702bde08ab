//! Units of two stretches, put together.

ghost use Rattle.std.specs.Prelude.{◌≡◌, ◌≤◌, ℕ, ◌+◌, ◌++◌, List, IfOk, IfSome, map, true};
ghost use Rattle.dwz_unit.specs.Stretches.{IsStretch, later_row, later_unit};
ghost use Rattle.dwz_unit.specs.Tables.{Stored};

use crate::mode::Mode;
use crate::rows::{RawUnit, Row};
use crate::stretches::Stretch;
use dwz_model::NoMemory;

// A unit behind so many entries.
fn unit_behind(unit: &RawUnit, entries: u32) -> Option<RawUnit>
    ensures { IfSome result (λ u. u ≡ later_unit entries unit.now) }
{
    let first = entries.checked_add(unit.first)?;
    Some(RawUnit { first, ..*unit })
}

// Appends units, which stand behind so many entries. Answers whether their numbers fit.
fn add_units(units: &mut Vec<RawUnit>, more: &[RawUnit], entries: u32) -> Result<bool, NoMemory>
    ensures { IfOk result (λ fits. fits ≡ true → units.new.items ≡ units.old.items ++ map (later_unit entries) more.now) }
{
    for unit in more {
        let Some(raised) = unit_behind(unit, entries) else {
            return Ok(false);
        };
        units.push(raised)?;
    }
    Ok(true)
}

// The row of an entry behind so many units and entries.
#[inline(always)]
fn row_behind(row: &Row, units: u32, entries: u32) -> Option<Row>
    ensures { IfSome result (λ r. r ≡ later_row units entries row.now) }
{
    let unit = units.checked_add(row.unit)?;
    let end = entries.checked_add(row.end)?;
    Some(Row { unit, end, ..*row })
}

// Appends entries, which stand behind so many units and others. Answers whether their numbers fit.
fn add_rows(rows: &mut Vec<Row>, more: &[Row], units: u32, entries: u32) -> Result<bool, NoMemory>
    ensures { IfOk result (λ fits. fits ≡ true → rows.new.items ≡ rows.old.items ++ map (later_row units entries) more.now) }
{
    for row in more {
        let Some(raised) = row_behind(row, units, entries) else {
            return Ok(false);
        };
        rows.push(raised)?;
    }
    Ok(true)
}

// Whether there is room for so many entries and for others behind them.
fn is_room(before: usize, more: usize, room: u32) -> bool
    ensures { result ≡ true → before + more ≤ room }
{
    let room = room as usize;
    before <= room && more <= room - before
}

/// The units of two stretches as one, if the second begins where the first ends, and there is room for all entries.
pub(crate) fn joined(front: Stretch, next: Stretch, mode: Mode) -> Result<Option<Stretch>, NoMemory>
    ensures { (info : List ℕ) (s : Stored) → IsStretch info mode s front → IsStretch info mode s next
        → IfOk result (λ both. IfSome both (IsStretch info mode s)) }
{
    if front.end != next.first {
        return Ok(None);
    }
    let mut units = front.units;
    let mut entries = front.entries;
    let before = entries.len();
    let more = next.entries.len();
    let number = units.len();
    if !is_room(before, more, mode.room) {
        return Ok(None);
    }
    if number > before {
        return Ok(None);
    }
    if !add_units(&mut units, next.units.as_slice(), before as u32)? {
        return Ok(None);
    }
    let more_rows = next.entries.as_slice();
    if !add_rows(&mut entries, more_rows, number as u32, before as u32)? {
        return Ok(None);
    }
    Ok(Some(Stretch {
        first: front.first,
        end: next.end,
        units,
        entries,
    }))
}
