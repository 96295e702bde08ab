//! What the attributes of an entry store.

ghost use Rattle.std.specs.Prelude.{◌≡◌, ◌-◌, ◌++◌, ◌∷◌, [], ℕ, IfOk, IsOk, OnOk, length};
ghost use Rattle.dwz_bytes.specs.Spelling.{le_bytes, uleb};
ghost use Rattle.dwz_def_reading.specs.Values.{HasSpelling, value_at, value_bytes, written_rows};
ghost use Rattle.dwz_def_reading.specs.Exprs.{parts_from};
ghost use Rattle.dwz_def_reading.specs.Patching.{filled};
ghost use Rattle.dwz_forms.specs.RawValues.{raw_view};
ghost use Rattle.dwz_layout.specs.declared.walk.Origin.TheVariants.{Read};
ghost use Rattle.dwz_layout.specs.Attributes;
ghost use Rattle.dwz_layout.specs.Known.{owner_of};
ghost use Rattle.dwz_layout.specs.Attributes.{OfEntry, after, attrs_of, here_view, line_attrs, name_by, operand_count, operand_numbers};
ghost use Rattle.dwz_layout.specs.Attributes.{out_attr, raw_of, references_from, space_attrs, stored_all, text_offset, value_read};
ghost use Rattle.dwz_layout.specs.Stored.{values_bytes};
ghost use Rattle.dwz_layout.specs.Ways;
ghost use Rattle.dwz_layout.specs.Ways.{holder_view};
ghost use Rattle.dwz_encode.specs.Views.{numbers_view};

use crate::numbers::{Numbers, number_by_form, put_four};
use crate::parts::put_parts;
use dwz_bytes::{Cursor, put_uleb};
use dwz_codes::{
    DW_AT_NAME, DW_FORM_ADDR, DW_FORM_DATA1, DW_FORM_DATA2, DW_FORM_EXPRLOC, DW_FORM_FLAG_PRESENT,
    DW_FORM_IMPLICIT_CONST, DW_FORM_REF4, DW_FORM_SEC_OFFSET, DW_FORM_STRP,
};
use dwz_def_reading::Operand;
use dwz_forms::{Raw, write_value};
use dwz_layout::{
    EntryTable, Origin, Rewrite, Row, SpaceRow, TextAt, UnitRole, ValueCounts, WritingContext,
    content_of, form_to, more, read_operands, way_of,
};
use dwz_model::{NoMemory, Pair, at_or};
use dwz_unit::{Values, known_value};

// Appends the number of an entry, by its number among all files.
#[inline(always)]
fn put_entry(
    out: &mut Vec<u8>,
    known: &EntryTable,
    here: u32,
    target: u32,
    numbers: Numbers,
) -> Result<(), NoMemory>
    ensures { let form = Attributes.form_to known.now here (owner_of known.now target) in OnOk result
        (out.new.items ≡ out.old.items ++ value_bytes form (raw_of (numbers_view numbers.entry) form (OfEntry target))) }
{
    let form = form_to(known, here, known.owner(target));
    put_four(
        out,
        number_by_form(numbers, form, at_or(numbers.places, target as usize, 0)),
    )
}

// Appends the offset of a text.
#[inline(always)]
fn put_text(out: &mut Vec<u8>, text: TextAt) -> Result<(), NoMemory>
    ensures { OnOk result (out.new.items ≡ out.old.items ++ le_bytes 4 (text_offset text)) }
{
    match text {
        TextAt::Own(offset) => put_four(out, offset as u64),
        TextAt::Shared(offset) => put_four(out, offset as u64),
        TextAt::Pooled(offset) => put_four(out, offset as u64),
    }
}

// Appends an expression that ends before a place, with the numbers of the entries that its operands name: these are references of a file,
// from the one with that number on.
fn put_expr(
    out: &mut Vec<u8>,
    known: &EntryTable,
    file: u32,
    first: u64,
    numbers: Numbers,
    bytes: &[u8],
    end: u64,
    operands: &[Operand],
) -> Result<(), NoMemory>
    ensures { let parts = parts_from (end - length bytes.now) bytes.now operands.now in OnOk result
        (out.new.items ≡ out.old.items ++ (uleb (length bytes.now)
        ++ filled parts (operand_numbers (numbers_view numbers.entry) parts
        (references_from known.now file first (operand_count parts))))) }
{
    let len = bytes.len() as u64;
    put_uleb(out, len)?;
    put_parts(
        out,
        known,
        file,
        first,
        numbers,
        end.saturating_sub(len),
        bytes,
        operands,
    )
}

// Appends what is written of a value that was read. `end` is the place behind the value.
#[inline(always)]
fn put_value(
    out: &mut Vec<u8>,
    room: &mut Vec<Operand>,
    known: &EntryTable,
    file: u32,
    here: WritingContext,
    numbers: Numbers,
    next: &mut ValueCounts,
    pair: &Pair,
    raw: &Raw,
    end: u64,
) -> Result<(), NoMemory>
    requires { HasSpelling pair.now.form (raw_view raw.now) }
    ensures bytes { OnOk result (out.new.items ≡ out.old.items
        ++ values_bytes (stored_all (numbers_view numbers.entry)
        (out_attr known.now file (here_view here) next.old (value_read end pair.now (raw_view raw.now))))) }
    ensures next { OnOk result (next.new ≡ after (here_view here) next.old (value_read end pair.now (raw_view raw.now))) }
{
    match way_of(here.holder, pair) {
        Rewrite::Dropped => Ok(()),
        Rewrite::AsRead => write_value(pair.form as u16, raw, out),
        Rewrite::KeepsText => {
            next.text = more(next.text, 1)?;
            write_value(pair.form as u16, raw, out)
        }
        Rewrite::AsText => {
            let text = known.text(file, next.text);
            next.text = more(next.text, 1)?;
            put_text(out, text)
        }
        Rewrite::AsFile => {
            let number = known.file(file, next.file);
            next.file = more(next.file, 1)?;
            put_uleb(out, number as u64)
        }
        Rewrite::AsEntry => {
            let target = known.reference(file, next.reference);
            next.reference = more(next.reference, 1)?;
            put_entry(out, known, here.unit, target, numbers)
        }
        Rewrite::AsExpression => {
            let bytes = content_of(raw);
            read_operands(room, bytes, end)?;
            let first = next.reference;
            next.reference = more(first, room.len() as u64)?;
            put_expr(out, known, file, first, numbers, bytes, end, room)
        }
    }
}

// Appends what is written of the next value, which is passed over.
#[inline(always)]
fn put_next(
    out: &mut Vec<u8>,
    room: &mut Vec<Operand>,
    known: &EntryTable,
    file: u32,
    here: WritingContext,
    numbers: Numbers,
    next: &mut ValueCounts,
    pair: &Pair,
    cursor: &mut Cursor,
) -> Result<(), NoMemory>
    requires { IsOk (value_at written_rows pair.now cursor.old) }
    ensures read { IfOk (value_at written_rows pair.now cursor.old) (λ x. OnOk result (cursor.new ≡ x.1)) }
    ensures bytes { IfOk (value_at written_rows pair.now cursor.old) (λ x. OnOk result (out.new.items ≡ out.old.items
        ++ values_bytes (stored_all (numbers_view numbers.entry)
        (out_attr known.now file (here_view here) next.old (value_read x.1.at pair.now x.0))))) }
    ensures next { IfOk (value_at written_rows pair.now cursor.old) (λ x. OnOk result
        (next.new ≡ after (here_view here) next.old (value_read x.1.at pair.now x.0))) }
{
    let raw = known_value(cursor, pair);
    let end = cursor.at() as u64;
    put_value(out, room, known, file, here, numbers, next, pair, &raw, end)
}

// The same, where each form that most values have is a case of its own: so how it is read and written is decided once.
#[inline(always)]
fn put_by_form(
    out: &mut Vec<u8>,
    room: &mut Vec<Operand>,
    known: &EntryTable,
    file: u32,
    here: WritingContext,
    numbers: Numbers,
    next: &mut ValueCounts,
    pair: &Pair,
    cursor: &mut Cursor,
) -> Result<(), NoMemory>
    requires { IsOk (value_at written_rows pair.now cursor.old) }
    ensures read { IfOk (value_at written_rows pair.now cursor.old) (λ x. OnOk result (cursor.new ≡ x.1)) }
    ensures bytes { IfOk (value_at written_rows pair.now cursor.old) (λ x. OnOk result (out.new.items ≡ out.old.items
        ++ values_bytes (stored_all (numbers_view numbers.entry)
        (out_attr known.now file (here_view here) next.old (value_read x.1.at pair.now x.0))))) }
    ensures next { IfOk (value_at written_rows pair.now cursor.old) (λ x. OnOk result
        (next.new ≡ after (here_view here) next.old (value_read x.1.at pair.now x.0))) }
{
    match pair.form {
        DW_FORM_STRP => put_next(out, room, known, file, here, numbers, next, pair, cursor),
        DW_FORM_REF4 => put_next(out, room, known, file, here, numbers, next, pair, cursor),
        DW_FORM_DATA1 => put_next(out, room, known, file, here, numbers, next, pair, cursor),
        DW_FORM_DATA2 => put_next(out, room, known, file, here, numbers, next, pair, cursor),
        DW_FORM_IMPLICIT_CONST => {
            put_next(out, room, known, file, here, numbers, next, pair, cursor)
        }
        DW_FORM_FLAG_PRESENT => {
            put_next(out, room, known, file, here, numbers, next, pair, cursor)
        }
        DW_FORM_SEC_OFFSET => put_next(out, room, known, file, here, numbers, next, pair, cursor),
        DW_FORM_EXPRLOC => put_next(out, room, known, file, here, numbers, next, pair, cursor),
        DW_FORM_ADDR => put_next(out, room, known, file, here, numbers, next, pair, cursor),
        _ => put_next(out, room, known, file, here, numbers, next, pair, cursor),
    }
}

// Appends the values of an entry that was read.
fn put_row(
    out: &mut Vec<u8>,
    room: &mut Vec<Operand>,
    known: &EntryTable,
    here: WritingContext,
    numbers: Numbers,
    row: Row,
) -> Result<(), NoMemory>
    ensures { OnOk result (out.new.items ≡ out.old.items
        ++ values_bytes (stored_all (numbers_view numbers.entry) (attrs_of known.now (here_view here) (Read row)))) }
{
    let Some(Values { pairs, mut cursor }) = known.values(row) else {
        return Ok(());
    };
    let mut next = known.firsts(row);
    for pair in pairs {
        put_by_form(
            out,
            room,
            known,
            row.file,
            here,
            numbers,
            &mut next,
            pair,
            &mut cursor,
        )?;
    }
    Ok(())
}

// Appends the value of an attribute that names a space.
#[inline(always)]
fn put_as_name(
    out: &mut Vec<u8>,
    holder: UnitRole,
    pair: &Pair,
    raw: &Raw,
    text: TextAt,
) -> Result<(), NoMemory>
    requires { HasSpelling pair.now.form (raw_view raw.now) }
    ensures { (n : Attributes.Numbers) (end : ℕ) → OnOk result
        (out.new.items ≡ out.old.items ++ values_bytes
        (stored_all n (name_by text (value_read end pair.now (raw_view raw.now)) (Ways.rewrite_of (holder_view holder) pair.now) ∷ []))) }
{
    match way_of(holder, pair) {
        Rewrite::AsText => put_text(out, text),
        _ => write_value(pair.form as u16, raw, out),
    }
}

// Appends the name of a space of a partial unit.
fn put_name(
    out: &mut Vec<u8>,
    known: &EntryTable,
    holder: UnitRole,
    space: SpaceRow,
) -> Result<(), NoMemory>
    ensures { (n : Attributes.Numbers) → OnOk result
        (out.new.items ≡ out.old.items ++ values_bytes (stored_all n (space_attrs known.now (holder_view holder) space))) }
{
    let Some(Values { pairs, mut cursor }) = known.values(space.row) else {
        return Ok(());
    };
    for pair in pairs {
        let raw = known_value(&mut cursor, pair);
        if pair.name == DW_AT_NAME {
            return put_as_name(out, holder, pair, &raw, space.text_in(holder));
        }
    }
    Ok(())
}

// Appends the line table of the root of a partial unit.
#[inline(always)]
fn put_line(out: &mut Vec<u8>, line: Option<u32>) -> Result<(), NoMemory>
    ensures { (n : Attributes.Numbers) → OnOk result (out.new.items ≡ out.old.items ++ values_bytes (stored_all n (line_attrs line))) }
{
    match line {
        None => Ok(()),
        Some(line) => put_four(out, line as u64),
    }
}

// Appends the number of the root of a unit.
fn put_root(
    out: &mut Vec<u8>,
    known: &EntryTable,
    here: u32,
    unit: u32,
    numbers: Numbers,
) -> Result<(), NoMemory>
    ensures { OnOk result (out.new.items ≡ out.old.items
        ++ values_bytes (stored_all (numbers_view numbers.entry) (Attributes.import_attr known.now here unit ∷ []))) }
{
    let form = form_to(known, here, unit);
    put_four(
        out,
        number_by_form(numbers, form, at_or(numbers.roots, unit as usize, 0)),
    )
}

/// Appends the values of what is written.
#[inline(always)]
pub(crate) fn put_values(
    out: &mut Vec<u8>,
    room: &mut Vec<Operand>,
    known: &EntryTable,
    here: WritingContext,
    numbers: Numbers,
    origin: Origin,
) -> Result<(), NoMemory>
    ensures { OnOk result (out.new.items ≡ out.old.items
        ++ values_bytes (stored_all (numbers_view numbers.entry) (attrs_of known.now (here_view here) origin))) }
{
    match origin {
        Origin::Read(row) => put_row(out, room, known, here, numbers, row),
        Origin::OwnRoot(line) => put_line(out, line),
        Origin::Chained { space, .. } => put_name(out, known, here.holder, known.space(space)),
        Origin::Imported(part) => put_root(out, known, here.unit, known.part(part), numbers),
    }
}
