//! How many bytes entries have, and their names and forms.

ghost use Rattle.std.specs.Prelude.{◌≡◌, ◌+◌, ◌<◌, ◌++◌, ◌∷◌, [], ℕ, All, IfOk, IsOk, OnOk, length};
ghost use Rattle.dwz_def_reading.specs.Spelling.{uleb};
ghost use Rattle.dwz_def_reading.specs.Abbrevs.{IsPlainPair};
ghost use Rattle.dwz_def_reading.specs.Values.{HasSpelling, value_at, written_rows};
ghost use Rattle.dwz_forms.specs.RawValues.{raw_view};
ghost use Rattle.dwz_def_reading.specs.Meanings.{bytes_of};
ghost use Rattle.dwz_layout.specs.declared.walk.Origin.TheVariants.{Read};
ghost use Rattle.dwz_layout.specs.Attributes.{after, attrs_of, here_view, line_attrs, name_by, no_numbers, out_attr, space_attrs};
ghost use Rattle.dwz_layout.specs.Attributes.{stored_all, value_read};
ghost use Rattle.dwz_layout.specs.Ways;
ghost use Rattle.dwz_layout.specs.Ways.{holder_view};
ghost use Rattle.dwz_layout.specs.Attributes;
ghost use Rattle.dwz_layout.specs.Stored.{pairs_of, values_bytes};

use crate::exprs::read_operands;
use crate::known::{EntryTable, Row, SpaceRow, TextAt, ValueCounts};
use crate::pairs::{entry_pair, expr_pair, file_pair, import_pair, line_pair, text_pair};
use crate::shapes::Shapes;
use crate::walk::Origin;
use crate::ways::{Rewrite, UnitRole, WritingContext, way_of};
use dwz_bytes::Cursor;
use dwz_codes::{
    DW_AT_NAME, DW_FORM_ADDR, DW_FORM_DATA1, DW_FORM_DATA2, DW_FORM_EXPRLOC, DW_FORM_FLAG_PRESENT,
    DW_FORM_IMPLICIT_CONST, DW_FORM_REF4, DW_FORM_SEC_OFFSET, DW_FORM_STRP, DW_FORM_UDATA,
    DW_TAG_IMPORTED_UNIT, DW_TAG_NAMESPACE, DW_TAG_PARTIAL_UNIT,
};
use dwz_def_reading::Operand;
use dwz_forms::{Raw, size_of_value};
use dwz_model::{NoMemory, Pair};
use dwz_unit::{Values, known_value};
use std::alloc::AllocError;

// How many bytes the number of an entry or the offset of a text has.
const OFFSET: u64 = 4;

/// Room for the names and forms of an entry, for the operands of an expression, and for the codes and the shapes of a unit's entries.
#[derive(Drop)]
pub(crate) struct Scratch {
    pub(crate) pairs: Vec<Pair>,
    pub(crate) operands: Vec<Operand>,
    pub(crate) codes: Vec<u32>,
    pub(crate) shapes: Shapes,
}

/// So many bytes more. More than can be counted count as memory that there isn't.
#[inline(always)]
pub fn more(count: u64, by: u64) -> Result<u64, NoMemory>
    ensures { IfOk result (λ sum. sum ≡ count + by) }
{
    match count.checked_add(by) {
        Some(sum) => Ok(sum),
        None => Err(AllocError),
    }
}

// How many bytes a number has as ULEB128.
#[inline(always)]
pub(crate) fn uleb_len(number: u64) -> u64
    ensures { result ≡ length (uleb number) }
{
    if number < 128 {
        return 1;
    }
    size_of_value(DW_FORM_UDATA as u16, &Raw::Number(number as i128))
}

// The same of what some value stores, and the room gets the name and the form.
#[inline(always)]
#[tactic(auto, using(crate::proofs::PlainLemmas::plain_more))]
fn measure_stored(room: &mut Scratch, pair: Pair, size: u64) -> Result<u64, NoMemory>
    requires plain { IsPlainPair pair }
    requires room { All IsPlainPair room.old.pairs.items }
    ensures pairs { OnOk result (room.new.pairs.items ≡ room.old.pairs.items ++ pair ∷ []) }
    ensures size { IfOk result (λ same. same ≡ size) }
    ensures plain { OnOk result (All IsPlainPair room.new.pairs.items) }
{
    room.pairs.push(pair)?;
    Ok(size)
}

// How many bytes an expression has.
#[inline(always)]
fn expr_len(bytes: &[u8]) -> Result<u64, NoMemory>
    ensures { IfOk result (λ len. len ≡ length (uleb (length bytes.now) ++ bytes.now)) }
{
    let len = bytes.len() as u64;
    more(len, uleb_len(len))
}

/// The bytes that a value stores.
#[inline(always)]
pub fn content_of<'a>(raw: &Raw<'a>) -> &'a [u8]
    ensures { result.now ≡ bytes_of (raw_view raw.now) }
{
    match *raw {
        Raw::Bytes(bytes) => bytes,
        Raw::Number(_) => &[],
    }
}

// Appends what is written of a value that was read to the names and forms in the room. The answer is how many bytes it has. `end` is the
// place behind the value.
#[inline(always)]
fn measure_value(
    room: &mut Scratch,
    known: &EntryTable,
    file: u32,
    here: WritingContext,
    next: &mut ValueCounts,
    pair: &Pair,
    raw: &Raw,
    end: u64,
) -> Result<u64, NoMemory>
    requires writable { HasSpelling pair.now.form (raw_view raw.now) }
    requires plain { IsPlainPair pair.now }
    requires room { All IsPlainPair room.old.pairs.items }
    ensures pairs { OnOk result (room.new.pairs.items ≡ room.old.pairs.items
        ++ pairs_of (stored_all no_numbers (out_attr known.now file (here_view here) next.old
        (value_read end pair.now (raw_view raw.now))))) }
    ensures size { IfOk result (λ size. size ≡ length
        (values_bytes (stored_all no_numbers (out_attr known.now file (here_view here) next.old
        (value_read end pair.now (raw_view raw.now)))))) }
    ensures next { OnOk result (next.new ≡ after (here_view here) next.old (value_read end pair.now (raw_view raw.now))) }
    ensures plain { OnOk result (All IsPlainPair room.new.pairs.items) }
{
    match way_of(here.holder, pair) {
        Rewrite::Dropped => Ok(0),
        Rewrite::AsRead => measure_stored(room, *pair, size_of_value(pair.form as u16, raw)),
        Rewrite::KeepsText => {
            next.text = more(next.text, 1)?;
            measure_stored(room, *pair, size_of_value(pair.form as u16, raw))
        }
        Rewrite::AsText => {
            let text = known.text(file, next.text);
            next.text = more(next.text, 1)?;
            measure_stored(room, text_pair(pair.name, text), OFFSET)
        }
        Rewrite::AsFile => {
            let number = known.file(file, next.file);
            next.file = more(next.file, 1)?;
            measure_stored(room, file_pair(pair.name), uleb_len(number as u64))
        }
        Rewrite::AsEntry => {
            let target = known.reference(file, next.reference);
            next.reference = more(next.reference, 1)?;
            measure_stored(
                room,
                entry_pair(known, here.unit, pair.name, target),
                OFFSET,
            )
        }
        Rewrite::AsExpression => {
            let bytes = content_of(raw);
            read_operands(&mut room.operands, bytes, end)?;
            next.reference = more(next.reference, room.operands.len() as u64)?;
            let size = expr_len(bytes)?;
            measure_stored(room, expr_pair(pair.name), size)
        }
    }
}

// The same of the next value, which is passed over.
#[inline(always)]
fn measure_next(
    room: &mut Scratch,
    known: &EntryTable,
    file: u32,
    here: WritingContext,
    next: &mut ValueCounts,
    pair: &Pair,
    cursor: &mut Cursor,
) -> Result<u64, NoMemory>
    requires read { IsOk (value_at written_rows pair.now cursor.old) }
    requires plain { IsPlainPair pair.now }
    requires room { All IsPlainPair room.old.pairs.items }
    ensures read { IfOk (value_at written_rows pair.now cursor.old) (λ x. OnOk result (cursor.new ≡ x.1)) }
    ensures pairs { IfOk (value_at written_rows pair.now cursor.old) (λ x. OnOk result (room.new.pairs.items ≡ room.old.pairs.items
        ++ pairs_of (stored_all no_numbers (out_attr known.now file (here_view here) next.old (value_read x.1.at pair.now x.0))))) }
    ensures size { IfOk (value_at written_rows pair.now cursor.old) (λ x. IfOk result (λ size. size ≡ length
        (values_bytes (stored_all no_numbers (out_attr known.now file (here_view here) next.old (value_read x.1.at pair.now x.0)))))) }
    ensures next { IfOk (value_at written_rows pair.now cursor.old) (λ x. OnOk result
        (next.new ≡ after (here_view here) next.old (value_read x.1.at pair.now x.0))) }
    ensures plain { OnOk result (All IsPlainPair room.new.pairs.items) }
{
    let raw = known_value(cursor, pair);
    let end = cursor.at() as u64;
    measure_value(room, known, file, here, next, pair, &raw, end)
}

// The same, where each form that most values have is a case of its own: so how it is read and written is decided once.
#[inline(always)]
fn measure_by_form(
    room: &mut Scratch,
    known: &EntryTable,
    file: u32,
    here: WritingContext,
    next: &mut ValueCounts,
    pair: &Pair,
    cursor: &mut Cursor,
) -> Result<u64, NoMemory>
    requires read { IsOk (value_at written_rows pair.now cursor.old) }
    requires plain { IsPlainPair pair.now }
    requires room { All IsPlainPair room.old.pairs.items }
    ensures read { IfOk (value_at written_rows pair.now cursor.old) (λ x. OnOk result (cursor.new ≡ x.1)) }
    ensures pairs { IfOk (value_at written_rows pair.now cursor.old) (λ x. OnOk result (room.new.pairs.items ≡ room.old.pairs.items
        ++ pairs_of (stored_all no_numbers (out_attr known.now file (here_view here) next.old (value_read x.1.at pair.now x.0))))) }
    ensures size { IfOk (value_at written_rows pair.now cursor.old) (λ x. IfOk result (λ size. size ≡ length
        (values_bytes (stored_all no_numbers (out_attr known.now file (here_view here) next.old (value_read x.1.at pair.now x.0)))))) }
    ensures next { IfOk (value_at written_rows pair.now cursor.old) (λ x. OnOk result
        (next.new ≡ after (here_view here) next.old (value_read x.1.at pair.now x.0))) }
    ensures plain { OnOk result (All IsPlainPair room.new.pairs.items) }
{
    match pair.form {
        DW_FORM_STRP => measure_next(room, known, file, here, next, pair, cursor),
        DW_FORM_REF4 => measure_next(room, known, file, here, next, pair, cursor),
        DW_FORM_DATA1 => measure_next(room, known, file, here, next, pair, cursor),
        DW_FORM_DATA2 => measure_next(room, known, file, here, next, pair, cursor),
        DW_FORM_IMPLICIT_CONST => measure_next(room, known, file, here, next, pair, cursor),
        DW_FORM_FLAG_PRESENT => measure_next(room, known, file, here, next, pair, cursor),
        DW_FORM_SEC_OFFSET => measure_next(room, known, file, here, next, pair, cursor),
        DW_FORM_EXPRLOC => measure_next(room, known, file, here, next, pair, cursor),
        DW_FORM_ADDR => measure_next(room, known, file, here, next, pair, cursor),
        _ => measure_next(room, known, file, here, next, pair, cursor),
    }
}

// Puts the names and forms of what is written of an entry that was read into the room. The answer is how many bytes its values have.
fn measure_row(
    room: &mut Scratch,
    known: &EntryTable,
    here: WritingContext,
    row: Row,
) -> Result<u64, NoMemory>
    requires { room.old.pairs.items ≡ [] }
    ensures pairs { OnOk result (room.new.pairs.items ≡ pairs_of (stored_all no_numbers (attrs_of known.now (here_view here) (Read row)))) }
    ensures size { IfOk result (λ size. size ≡ length
        (values_bytes (stored_all no_numbers (attrs_of known.now (here_view here) (Read row))))) }
    ensures plain { OnOk result (All IsPlainPair room.new.pairs.items) }
{
    let Some(Values { pairs, mut cursor }) = known.values(row) else {
        return Ok(0);
    };
    let mut next = known.firsts(row);
    let mut size = 0;
    for pair in pairs {
        let one = measure_by_form(room, known, row.file, here, &mut next, pair, &mut cursor)?;
        size = more(size, one)?;
    }
    Ok(size)
}

// The same of a name of a space.
#[inline(always)]
fn measure_as_name(
    room: &mut Scratch,
    holder: UnitRole,
    pair: &Pair,
    raw: &Raw,
    text: TextAt,
) -> Result<u64, NoMemory>
    requires empty { room.old.pairs.items ≡ [] }
    requires writable { HasSpelling pair.now.form (raw_view raw.now) }
    requires plain { IsPlainPair pair.now }
    ensures pairs { (end : ℕ) → OnOk result (room.new.pairs.items
        ≡ pairs_of (stored_all no_numbers (name_by text (value_read end pair.now (raw_view raw.now))
        (Ways.rewrite_of (holder_view holder) pair.now) ∷ []))) }
    ensures size { (end : ℕ) → IfOk result (λ size. size
        ≡ length (values_bytes (stored_all no_numbers
        (name_by text (value_read end pair.now (raw_view raw.now)) (Ways.rewrite_of (holder_view holder) pair.now) ∷ [])))) }
    ensures plain { OnOk result (All IsPlainPair room.new.pairs.items) }
{
    match way_of(holder, pair) {
        Rewrite::AsText => measure_stored(room, text_pair(DW_AT_NAME, text), OFFSET),
        _ => measure_stored(room, *pair, size_of_value(pair.form as u16, raw)),
    }
}

// The same of the name of a space of a partial unit.
fn measure_name(
    room: &mut Scratch,
    known: &EntryTable,
    holder: UnitRole,
    space: SpaceRow,
) -> Result<u64, NoMemory>
    requires { room.old.pairs.items ≡ [] }
    ensures pairs { OnOk result (room.new.pairs.items
        ≡ pairs_of (stored_all no_numbers (space_attrs known.now (holder_view holder) space))) }
    ensures size { IfOk result (λ size. size ≡ length
        (values_bytes (stored_all no_numbers (space_attrs known.now (holder_view holder) space)))) }
    ensures plain { OnOk result (All IsPlainPair room.new.pairs.items) }
{
    let Some(Values { pairs, mut cursor }) = known.values(space.row) else {
        return Ok(0);
    };
    for pair in pairs {
        let raw = known_value(&mut cursor, pair);
        if pair.name == DW_AT_NAME {
            return measure_as_name(room, holder, pair, &raw, space.text_in(holder));
        }
    }
    Ok(0)
}

// The same of the root of a partial unit.
fn measure_line(room: &mut Scratch, line: Option<u32>) -> Result<u64, NoMemory>
    requires { room.old.pairs.items ≡ [] }
    ensures pairs { OnOk result (room.new.pairs.items ≡ pairs_of (stored_all no_numbers (line_attrs line))) }
    ensures size { IfOk result (λ size. size ≡ length (values_bytes (stored_all no_numbers (line_attrs line)))) }
    ensures plain { OnOk result (All IsPlainPair room.new.pairs.items) }
{
    match line {
        None => Ok(0),
        Some(_) => measure_stored(room, line_pair(), OFFSET),
    }
}

/// Puts the names and forms of what is written of an entry into the room. The answer is how many bytes its values have.
#[inline(always)]
pub(crate) fn measure(
    room: &mut Scratch,
    known: &EntryTable,
    here: WritingContext,
    origin: Origin,
) -> Result<u64, NoMemory>
    ensures pairs { OnOk result (room.new.pairs.items ≡ pairs_of (stored_all no_numbers (attrs_of known.now (here_view here) origin))) }
    ensures size { IfOk result (λ size. size ≡ length (values_bytes (stored_all no_numbers (attrs_of known.now (here_view here) origin)))) }
    ensures plain { OnOk result (All IsPlainPair room.new.pairs.items) }
{
    room.pairs.clear();
    match origin {
        Origin::Read(row) => measure_row(room, known, here, row),
        Origin::OwnRoot(line) => measure_line(room, line),
        Origin::Chained { space, .. } => measure_name(room, known, here.holder, known.space(space)),
        Origin::Imported(part) => {
            let pair = import_pair(known, here.unit, known.part(part));
            measure_stored(room, pair, OFFSET)
        }
    }
}

/// The tag of what is written.
#[inline(always)]
pub(crate) fn tag_of(known: &EntryTable, origin: Origin) -> u16
    ensures tag { result ≡ Attributes.tag_of known.now origin }
    ensures some { 0 < result }
{
    match origin {
        Origin::Read(row) => match known.entry(row) {
            Some(entry) => entry.tag,
            None => DW_TAG_IMPORTED_UNIT,
        },
        Origin::OwnRoot(_) => DW_TAG_PARTIAL_UNIT,
        Origin::Chained { .. } => DW_TAG_NAMESPACE,
        Origin::Imported(_) => DW_TAG_IMPORTED_UNIT,
    }
}
