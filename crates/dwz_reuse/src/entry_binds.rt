//! Entries that bind the top that they stand in.

ghost use Rattle.std.specs.Prelude.{◌≡◌, ℕ, ◌<◌, ◌≤◌, List, IfOk, map};
ghost use Rattle.std.specs.List.{list_any};
ghost use Rattle.dwz_def_reading.specs.Documents.{Node, node_map};
ghost use Rattle.dwz_def_reading.specs.Meanings.{MeaningContext};
ghost use Rattle.dwz_def_reading.specs.Units.{entries_in};
ghost use Rattle.dwz_def_tops.specs.Alike;
ghost use Rattle.dwz_def_tops.specs.Spots.{EntryName, Top};
ghost use Rattle.dwz_graph.specs.Rows.{AreRowsMeant, IsEntryMeant, node_refs};
ghost use Rattle.dwz_move.specs.Bound.{AreInto, EachInto, HasTops};
ghost use Rattle.dwz_unit.specs.Rows.{EntryRow, units_of};

use crate::into::from_entry;
use crate::value_binds::{count_of, value_binds};
use dwz_codes::{DW_AT_SIBLING, DW_TAG_IMPORTED_UNIT};
use dwz_expr::Operand;
use dwz_model::NoMemory;
use dwz_move::TopRange;
use dwz_unit::{Units, Values, known_value};

// Whether what an entry holds binds the top that it stands in, which is one of these of its unit. The tops that its references go into
// stand first.
fn entry_binds(
    units: &Units,
    own: &TopRange,
    into: &[Option<u32>],
    i: u32,
    operands: &mut Vec<Operand>,
) -> Result<bool, NoMemory>
    requires { i < entries_in (units_of units.now) }
    ensures { (s : MeaningContext ℕ) (numbers : List ℕ) (row : EntryRow) (d : Node ℕ) (tops : List Top) (unit : ℕ) (name : ℕ → EntryName)
        → HasTops tops unit own.now → IsEntryMeant (units_of units.now) s i numbers row d → AreInto name into.now (node_refs d)
        → IfOk result (λ b. b ≡ Alike.entry_binds tops unit (node_map name d)) }
{
    if units.entry(i).tag == DW_TAG_IMPORTED_UNIT {
        return Ok(true);
    }
    let Values { pairs, mut cursor } = units.values(i);
    let mut next = 0;
    for pair in pairs {
        let raw = known_value(&mut cursor, pair);
        let end = cursor.at() as u64;
        if pair.name == DW_AT_SIBLING {
            continue;
        }
        if value_binds(own, into, next, end, pair, &raw, operands)? {
            return Ok(true);
        }
        next += count_of(pair.form);
    }
    Ok(false)
}

/// Whether one of the entries from one number to before another binds the top that they stand in, which is one of these of its unit. For
/// each reference of the file is given the top that it goes into, and for each entry where its references begin.
pub(crate) fn entries_bind(
    units: &Units,
    own: &TopRange,
    into: &[Option<u32>],
    starts: &[u32],
    first: u32,
    end: u32,
    operands: &mut Vec<Operand>,
) -> Result<bool, NoMemory>
    requires { end ≤ entries_in (units_of units.now) }
    ensures { (s : MeaningContext ℕ) (numbers : List ℕ) (rows after : List EntryRow) (ds : List (Node ℕ)) (tops : List Top) (unit : ℕ)
        (name : ℕ → EntryName) → HasTops tops unit own.now → AreRowsMeant (units_of units.now) s first end numbers rows after ds
        → EachInto name into.now starts.now first ds
        → IfOk result (λ b. b ≡ list_any (Alike.entry_binds tops unit) (map (node_map name) ds)) }
{
    for i in first..end {
        let rest = from_entry(into, starts, i as usize);
        if entry_binds(units, own, rest, i, operands)? {
            return Ok(true);
        }
    }
    Ok(false)
}
