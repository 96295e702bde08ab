//! Entries, with what their attributes say.

ghost use Rattle.std.specs.Prelude.{◌≡◌, ℕ, ◌+◌, ◌-◌, ◌<◌, ◌≤◌, ◌∷◌, List, IfOk, IsOk, OnOk, drop};
ghost use Rattle.dwz_def_reading.specs.Documents.{Attr, Node};
ghost use Rattle.dwz_def_reading.specs.Entries.{RawAttr};
ghost use Rattle.dwz_def_reading.specs.Lists.{Each};
ghost use Rattle.dwz_def_reading.specs.Units.{RawUnit, entries_in};
ghost use Rattle.dwz_def_reading.specs.Values.{value_at, written_rows};
ghost use Rattle.dwz_def_tops.specs.Spots.{EntryName};
ghost use Rattle.dwz_graph.specs.Resolved.{stored, value_between};
ghost use Rattle.dwz_graph.specs.Rows.{AreAttrsMeant, IsEntryMeant};
ghost use Rattle.dwz_label_entries.specs.Plain.{KnowsLine};
ghost use Rattle.dwz_label_entries.specs.Sources.{IsReady, KnowsUnit, raw_of, scope_at};
ghost use Rattle.dwz_label_words.specs.Known.{StaysNamed};
ghost use Rattle.dwz_label_words.specs.Told.{AreNamesOf, IsUsual, TellsAttrs, TellsEntry, TellsFirst};
ghost use Rattle.dwz_unit.specs.Rows.{EntryRow};

use crate::FileNames;
use crate::room::Room;
use crate::values::put_value;
use dwz_bytes::Cursor;
use dwz_codes::{
    DW_AT_SIBLING, DW_FORM_DATA1, DW_FORM_DATA2, DW_FORM_FLAG_PRESENT, DW_FORM_IMPLICIT_CONST,
    DW_FORM_REF4, DW_FORM_STRP,
};
use dwz_forms::Raw;
use dwz_graph::Here;
use dwz_label_entries::Source;
use dwz_label_marks::{put_named, put_plainly};
use dwz_model::{NoMemory, Pair};
use dwz_unit::{Values, known_value};

// Appends what an attribute says. `DW_AT_sibling` says nothing.
#[inline(always)]
fn put_attr(
    source: &Source,
    names: &mut FileNames,
    out: &mut Vec<u8>,
    here: &Here,
    line: Option<usize>,
    end: u64,
    pair: &Pair,
    raw: &Raw,
    next: usize,
    room: &mut Room,
) -> Result<usize, NoMemory>
    requires ready { IsReady source.now here.now }
    requires names { AreNamesOf source.now names.old }
    ensures stays { OnOk result (StaysNamed names.old names.new) }
    ensures told { (u : RawUnit) (name : ℕ → EntryName) (at : ℕ) (values : List RawAttr) (attrs : List (Attr ℕ))
        → KnowsUnit source.now here.now line u name
        → KnowsLine (scope_at source.now u) (stored at end pair.now raw.now) source.now.tables.now line
        → AreAttrsMeant (raw_of source.now) (scope_at source.now u) (drop next source.now.refs.now)
        (stored at end pair.now raw.now ∷ values) attrs → Each IsUsual attrs
        → IfOk result (λ behind. TellsFirst (raw_of source.now) (scope_at source.now u) values name attrs names.new.names
        (drop next source.now.refs.now) (drop behind source.now.refs.now) out.old.items out.new.items) }
{
    if pair.name == DW_AT_SIBLING {
        return Ok(next);
    }
    put_value(source, names, out, here, line, end, pair, raw, next, room)
}

// Appends what the next attribute says, whose value was read before, and passes over its value.
#[inline(always)]
fn put_next(
    source: &Source,
    names: &mut FileNames,
    out: &mut Vec<u8>,
    here: &Here,
    line: Option<usize>,
    cursor: &mut Cursor,
    pair: &Pair,
    next: usize,
    room: &mut Room,
) -> Result<usize, NoMemory>
    requires ready { IsReady source.now here.now }
    requires names { AreNamesOf source.now names.old }
    requires read { IsOk (value_at written_rows pair.now cursor.old) }
    ensures read { IfOk (value_at written_rows pair.now cursor.old) (λ x. cursor.new ≡ x.1) }
    ensures stays { OnOk result (StaysNamed names.old names.new) }
    ensures told { IfOk (value_at written_rows pair.now cursor.old) (λ x. (u : RawUnit) (name : ℕ → EntryName) (values : List RawAttr)
        (attrs : List (Attr ℕ)) → KnowsUnit source.now here.now line u name
        → KnowsLine (scope_at source.now u) (value_between cursor.old x.1 pair.now x.0) source.now.tables.now line
        → AreAttrsMeant (raw_of source.now) (scope_at source.now u) (drop next source.now.refs.now)
        (value_between cursor.old x.1 pair.now x.0 ∷ values) attrs → Each IsUsual attrs
        → IfOk result (λ behind. TellsFirst (raw_of source.now) (scope_at source.now u) values name attrs names.new.names
        (drop next source.now.refs.now) (drop behind source.now.refs.now) out.old.items out.new.items)) }
{
    let raw = known_value(cursor, pair);
    let end = cursor.at() as u64;
    put_attr(source, names, out, here, line, end, pair, &raw, next, room)
}

// The same, where each form that most values have is a case of its own: so how it is read and what it says is decided once.
#[inline(always)]
fn put_by_form(
    source: &Source,
    names: &mut FileNames,
    out: &mut Vec<u8>,
    here: &Here,
    line: Option<usize>,
    cursor: &mut Cursor,
    pair: &Pair,
    next: usize,
    room: &mut Room,
) -> Result<usize, NoMemory>
    requires ready { IsReady source.now here.now }
    requires names { AreNamesOf source.now names.old }
    requires read { IsOk (value_at written_rows pair.now cursor.old) }
    ensures read { IfOk (value_at written_rows pair.now cursor.old) (λ x. cursor.new ≡ x.1) }
    ensures stays { OnOk result (StaysNamed names.old names.new) }
    ensures told { IfOk (value_at written_rows pair.now cursor.old) (λ x. (u : RawUnit) (name : ℕ → EntryName) (values : List RawAttr)
        (attrs : List (Attr ℕ)) → KnowsUnit source.now here.now line u name
        → KnowsLine (scope_at source.now u) (value_between cursor.old x.1 pair.now x.0) source.now.tables.now line
        → AreAttrsMeant (raw_of source.now) (scope_at source.now u) (drop next source.now.refs.now)
        (value_between cursor.old x.1 pair.now x.0 ∷ values) attrs → Each IsUsual attrs
        → IfOk result (λ behind. TellsFirst (raw_of source.now) (scope_at source.now u) values name attrs names.new.names
        (drop next source.now.refs.now) (drop behind source.now.refs.now) out.old.items out.new.items)) }
{
    match pair.form {
        DW_FORM_STRP => put_next(source, names, out, here, line, cursor, pair, next, room),
        DW_FORM_REF4 => put_next(source, names, out, here, line, cursor, pair, next, room),
        DW_FORM_DATA1 => put_next(source, names, out, here, line, cursor, pair, next, room),
        DW_FORM_DATA2 => put_next(source, names, out, here, line, cursor, pair, next, room),
        DW_FORM_IMPLICIT_CONST => {
            put_next(source, names, out, here, line, cursor, pair, next, room)
        }
        DW_FORM_FLAG_PRESENT => {
            put_next(source, names, out, here, line, cursor, pair, next, room)
        }
        _ => put_next(source, names, out, here, line, cursor, pair, next, room),
    }
}

// Appends what the attributes of an entry say. The references of the entry begin at `next`; the answer is where they end.
fn put_values(
    source: &Source,
    names: &mut FileNames,
    out: &mut Vec<u8>,
    here: &Here,
    line: Option<usize>,
    i: u32,
    next: usize,
    room: &mut Room,
) -> Result<usize, NoMemory>
    requires ready { IsReady source.now here.now }
    requires names { AreNamesOf source.now names.old }
    requires row { i < entries_in (raw_of source.now) }
    ensures stays { OnOk result (StaysNamed names.old names.new) }
    ensures told { (u : RawUnit) (name : ℕ → EntryName) (row : EntryRow) (d : Node ℕ) → KnowsUnit source.now here.now line u name
        → row.unit ≡ here.now.number → IsEntryMeant (raw_of source.now) (scope_at source.now u) i (drop next source.now.refs.now) row d
        → Each IsUsual d.attrs
        → IfOk result (λ behind. TellsAttrs name d.attrs names.new.names (drop next source.now.refs.now) (drop behind source.now.refs.now)
        out.old.items out.new.items) }
{
    let Values { pairs, mut cursor } = source.units.values(i);
    let mut behind = next;
    for pair in pairs {
        behind = put_by_form(
            source,
            names,
            out,
            here,
            line,
            &mut cursor,
            pair,
            behind,
            room,
        )?;
    }
    Ok(behind)
}

/// Appends the marks of an entry: its shape, how many entries are below it, and what its attributes say, which name entries only as
/// references. Its references begin at `next`; the answer is where they end. `line` is the number of the unit's line table.
pub fn put_entry_marks(
    source: &Source,
    names: &mut FileNames,
    out: &mut Vec<u8>,
    here: &Here,
    line: Option<usize>,
    i: u32,
    next: usize,
    room: &mut Room,
) -> Result<usize, NoMemory>
    requires ready { IsReady source.now here.now }
    requires names { AreNamesOf source.now names.old }
    requires row { i < entries_in (raw_of source.now) }
    ensures stays { OnOk result (StaysNamed names.old names.new) }
    ensures told { (u : RawUnit) (name : ℕ → EntryName) (row : EntryRow) (d : Node ℕ) → KnowsUnit source.now here.now line u name
        → row.unit ≡ here.now.number → IsEntryMeant (raw_of source.now) (scope_at source.now u) i (drop next source.now.refs.now) row d
        → Each IsUsual d.attrs
        → IfOk result (λ behind. TellsEntry name (row.end - i - 1) d names.new.names (drop next source.now.refs.now)
        (drop behind source.now.refs.now) out.old.items out.new.items) }
{
    let entry = source.units.entry(i);
    let shape = names.shape(i, entry.tag)?;
    put_named(out, shape)?;
    put_plainly(out, entry.end.saturating_sub(i).saturating_sub(1) as u64)?;
    put_values(source, names, out, here, line, i, next, room)
}
