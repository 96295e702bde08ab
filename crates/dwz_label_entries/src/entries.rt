//! Entries, with what their attributes say.

ghost use Rattle.std.specs.Prelude.{◌≡◌, ℕ, ◌+◌, ◌-◌, ◌<◌, ◌≤◌, ◌++◌, List, IfOk, OnOk, drop};
ghost use Rattle.dwz_def_tops.specs.Spots.{EntryName};
ghost use Rattle.dwz_label_entries.specs.Sources.{IsReady, KnowsUnit, TellsAttrs, TellsEntry, raw_of, rows_label, scope_at};
ghost use Rattle.dwz_label_entries.specs.Words.{kept};
ghost use Rattle.dwz_def_reading.specs.Units.{RawUnit, entries_in};
ghost use Rattle.dwz_graph.specs.Rows.{AreRowsMeant, IsEntryMeant};
ghost use Rattle.dwz_def_reading.specs.Documents.{Node};
ghost use Rattle.dwz_def_reading.specs.Lists.{Each};
ghost use Rattle.dwz_unit.specs.Rows.{EntryRow};

use crate::source::{Scratch, Source};
use crate::values::put_attr;
use dwz_codes::DW_AT_SIBLING;
use dwz_graph::Here;
use dwz_label::put_number;
use dwz_model::{NoMemory, Pair};
use dwz_unit::{Values, known_value};

/// How many attributes an entry has besides `DW_AT_sibling`.
pub fn count_of(pairs: &[Pair]) -> usize
    ensures { result ≡ kept pairs.now }
{
    let mut count: usize = 0;
    for pair in pairs {
        if pair.name != DW_AT_SIBLING {
            count += 1;
        }
    }
    count
}

// Appends what the attributes of an entry say, behind their number. The references of the entry begin at `next`; the answer is where
// they end.
fn put_values(
    source: &Source,
    out: &mut Vec<u8>,
    here: &Here,
    line: Option<usize>,
    i: u32,
    next: usize,
    scratch: &mut Scratch,
) -> Result<usize, NoMemory>
    requires ready { IsReady source.now here.now }
    requires row { i < entries_in (raw_of source.now) }
    ensures { (u : RawUnit) (name : ℕ → EntryName) (row : EntryRow) (d : Node ℕ) → KnowsUnit source.now here.now line u name
        → row.unit ≡ here.now.number → IsEntryMeant (raw_of source.now) (scope_at source.now u) i (drop next source.now.refs.now) row d
        → IfOk result (λ behind. TellsAttrs name d.attrs (drop next source.now.refs.now) (drop behind source.now.refs.now) out.old.items
        out.new.items) }
{
    let Values { pairs, mut cursor } = source.units.values(i);
    put_number(out, count_of(pairs) as u128)?;
    let mut behind = next;
    for pair in pairs {
        let raw = known_value(&mut cursor, pair);
        let end = cursor.at() as u64;
        behind = put_attr(source, out, here, line, end, pair, &raw, behind, scratch)?;
    }
    Ok(behind)
}

// Appends what an entry says. Its references begin at `next`; the answer is where they end.
fn put_entry(
    source: &Source,
    out: &mut Vec<u8>,
    here: &Here,
    line: Option<usize>,
    i: u32,
    next: usize,
    scratch: &mut Scratch,
) -> Result<usize, NoMemory>
    requires ready { IsReady source.now here.now }
    requires row { i < entries_in (raw_of source.now) }
    ensures { (u : RawUnit) (name : ℕ → EntryName) (row : EntryRow) (d : Node ℕ) → KnowsUnit source.now here.now line u name
        → row.unit ≡ here.now.number → IsEntryMeant (raw_of source.now) (scope_at source.now u) i (drop next source.now.refs.now) row d
        → IfOk result (λ behind. TellsEntry name (row.end - i - 1) d (drop next source.now.refs.now) (drop behind source.now.refs.now)
        out.old.items out.new.items) }
{
    let entry = source.units.entry(i);
    put_number(out, entry.end.saturating_sub(i).saturating_sub(1) as u128)?;
    put_number(out, entry.tag as u128)?;
    let behind = put_values(source, out, here, line, i, next, scratch)?;
    Ok(behind)
}

/// Appends what the entries of a unit from number `first` to before `end` say, each by itself: how many are below it, its tag, and its
/// attributes. Their references begin at `next`. `line` is the number of the unit's line table.
pub fn put_rows(
    source: &Source,
    out: &mut Vec<u8>,
    here: &Here,
    line: Option<usize>,
    first: u32,
    end: u32,
    next: usize,
    scratch: &mut Scratch,
) -> Result<(), NoMemory>
    requires ready { IsReady source.now here.now }
    requires rows { end ≤ entries_in (raw_of source.now) }
    ensures { (u : RawUnit) (name : ℕ → EntryName) (rows after : List EntryRow) (ds : List (Node ℕ))
        → KnowsUnit source.now here.now line u name
        → Each (λ row. row.unit ≡ here.now.number) rows
        → AreRowsMeant (raw_of source.now) (scope_at source.now u) first end (drop next source.now.refs.now) rows after ds
        → OnOk result (out.new.items ≡ out.old.items ++ rows_label name first rows ds) }
{
    let mut at = next;
    for i in first..end {
        at = put_entry(source, out, here, line, i, at, scratch)?;
    }
    Ok(())
}
