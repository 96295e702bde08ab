//! Units whose values say the same where texts move.

ghost use Rattle.std.specs.Prelude.{◌≡◌, ℕ, ◌+◌, ◌<◌, ◌≤◌, ◌↔◌, ◌++◌, List, Ok, Some, drop, length, slice_get, true, IfOk};
ghost use Rattle.std.specs.List.{list_all};
ghost use Rattle.std.specs.List.Sorted.{IsStrictlyIncreasing};
ghost use Rattle.dwz_def_reading.specs.Units.{RawUnit, entries_in};
ghost use Rattle.dwz_def_reading.specs.Documents.{DwUnit};
ghost use Rattle.dwz_def_reading.specs.Meanings.{Around, text_sections_of};
ghost use Rattle.dwz_def_reading.specs.Meant.{unit_meaning, units_meaning};
ghost use Rattle.dwz_graph_pruning.specs.Stays;
ghost use Rattle.dwz_graph_pruning.specs.Stays.{row_stays};
ghost use Rattle.dwz_graph.specs.Parts.{HasLine, HaveLines};
ghost use Rattle.dwz_def_reading.specs.Lists.{Each};
ghost use Rattle.dwz_unit.specs.Declarations.{AreOf};
ghost use Rattle.dwz_unit.specs.Rows.{EntryRow, rows_of, units_of};
ghost use Rattle.dwz_def_encoding.specs.Pruned.{UnitStays};

use crate::asked::{AskedEntries, any_asks};
use crate::values::{Known, stays};
use dwz_graph::here_of;
use dwz_lines::TableRows;
use dwz_model::NoMemory;
use dwz_unit::{Units, Values, known_value};
use std::alloc::Global;

// Whether each value of an entry stays. Its values are read only where it has to be asked of one.
fn entry_stays(units: &Units, asked: &AskedEntries, i: u32, slots: &[u32], known: &Known) -> bool
    requires asked { AreOf (rows_of (units_of units.now)) asked.now }
    requires slots { IsStrictlyIncreasing slots.now }
    requires entry { i < entries_in (units_of units.now) }
    ensures { (row : EntryRow) → slice_get (rows_of (units_of units.now)) i ≡ Some row
        → result ≡ row_stays slots.now known.now row }
{
    if !known.strp && !asked.has(i) {
        return true;
    }
    let Values { pairs, mut cursor } = units.values(i);
    if !any_asks(known.strp, pairs) {
        return true;
    }
    for pair in pairs {
        let raw = known_value(&mut cursor, pair);
        if !stays(slots, known, pair, &raw) {
            return false;
        }
    }
    true
}

// Whether those of the entries do from one number to before another.
fn entries_stay(
    units: &Units,
    asked: &AskedEntries,
    first: u32,
    end: u32,
    slots: &[u32],
    known: &Known,
) -> bool
    requires asked { AreOf (rows_of (units_of units.now)) asked.now }
    requires slots { IsStrictlyIncreasing slots.now }
    requires entries { end ≤ entries_in (units_of units.now) }
    ensures { (rows after : List EntryRow) → drop first (rows_of (units_of units.now)) ≡ rows ++ after → first + length rows ≡ end
        → result ≡ list_all (row_stays slots.now known.now) rows }
{
    for i in first..end {
        if !entry_stays(units, asked, i, slots, known) {
            return false;
        }
    }
    true
}

// Whether a format of the line table with a number has the form strp, if there is one.
fn line_strp(tables: &[TableRows], line: Option<usize>) -> bool
    ensures { result ≡ Stays.line_strp tables.now line }
{
    let Some(number) = line else {
        return false;
    };
    match tables.get(number) {
        None => false,
        Some(table) => table.has_strp(),
    }
}

// Whether each value of a unit stays, where slots stand at these places. Its line table has that number, if one is asked for.
fn unit_stays(
    units: &Units,
    asked: &AskedEntries,
    tables: &[TableRows],
    line: Option<usize>,
    n: u32,
    slots: &[u32],
) -> bool
    requires asked { AreOf (rows_of (units_of units.now)) asked.now }
    requires slots { IsStrictlyIncreasing slots.now }
    requires unit { n < length (units_of units.now) }
    ensures { (around : Around ℕ) (u : RawUnit) (v : DwUnit ℕ) → slice_get (units_of units.now) n ≡ Some u → unit_meaning around u ≡ Ok v
        → HasLine around u tables.now line → (result ≡ true) ↔ UnitStays (text_sections_of around.sources) around.sources.line slots.now v }
{
    let unit = units.unit(n);
    let here = here_of(units, n, &unit);
    let known = Known {
        base: here.offsets,
        strp: line_strp(tables, line),
    };
    entries_stay(units, asked, here.first, here.end, slots, &known)
}

/// Whether each value of all units of a file stays, where slots stand at these places, which ascend. For each unit is given the number
/// of its line table, if one is asked for.
pub(crate) fn units_stay(
    alloc: Global,
    units: &Units,
    tables: &[TableRows],
    lines: &[Option<usize>],
    slots: &[u32],
) -> Result<bool, NoMemory>
    requires slots { IsStrictlyIncreasing slots.now }
    requires lines { length lines.now ≡ length (units_of units.now) }
    ensures { (around : Around ℕ) (said : List (DwUnit ℕ)) → units_meaning around (units_of units.now) ≡ Ok said
        → HaveLines around (units_of units.now) (length (units_of units.now)) tables.now lines.now
        → IfOk result (λ stay. (stay ≡ true) ↔ Each (UnitStays (text_sections_of around.sources) around.sources.line slots.now) said) }
{
    let asked = AskedEntries::new(alloc, units)?;
    for n in 0..units.len() {
        if !unit_stays(units, &asked, tables, lines[n as usize], n, slots) {
            return Ok(false);
        }
    }
    Ok(true)
}
