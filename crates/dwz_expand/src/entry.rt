//! The operands of the location lists that an entry's values name, with their new numbers.

ghost use Rattle.std.specs.Prelude.{◌≡◌, ℕ, ◌+◌, ◌<◌, ◌≤◌, ◌++◌, ◌∷◌, [], true, List, None, Ok, OnOk, Some, slice_get, slice_index, slice_index_or, ◌-◌};
ghost use Rattle.dwz_def_expand.specs.OneFile.{OneFile};
ghost use Rattle.dwz_def_reading.specs.Documents.{Value};
ghost use Rattle.dwz_def_reading.specs.Entries.{RawAttr};
ghost use Rattle.dwz_def_reading.specs.Exprs.{first_unnamed};
ghost use Rattle.dwz_def_reading.specs.LocLists.{LocList};
ghost use Rattle.dwz_def_reading.specs.Meanings.{without_siblings};
ghost use Rattle.dwz_def_reading.specs.Meant.{list_meaning, list_read};
ghost use Rattle.dwz_def_reading.specs.PatchedLists.{with_number};
ghost use Rattle.dwz_def_encoding.specs.Writing.{base_place};
ghost use Rattle.dwz_expand_layout.specs.Laid.{layout_view};
ghost use Rattle.dwz_def_reading.specs.Shared.{operands_of};
ghost use Rattle.dwz_def_reading.specs.Texts;
ghost use Rattle.dwz_def_reading.specs.Units.{RawUnit, entries_in};
ghost use Rattle.dwz_graph.specs.Operands.{is_named};
ghost use Rattle.dwz_graph.specs.Resolved.{stored};
ghost use Rattle.dwz_unit.specs.Rows.{EntryRow, rows_of};
ghost use Rattle.dwz_expand.specs.Gathered.{AllKept, CanBeRead, CanTell, LosesOne, Tells, own_around, own_scope, spoken_at, told_at, told_in};
ghost use Rattle.dwz_expand_sections.specs.Narrow.{operand_after};
ghost use Rattle.dwz_expand_passes.specs.Files.{raw_in};

use dwz_codes::{Class, DW_AT_SIBLING, class_of, names_list};
use dwz_def_reading::Operand;
use dwz_expand_layout::{LaidUnit, NewLayout};
use dwz_expand_passes::NewFile;
use dwz_expand_sources::Copies;
use dwz_forms::Raw;
use dwz_graph::{Here, entry_of, offset_of, slot};
use dwz_lists::walk_into;
use dwz_model::{Base, NoMemory, Pair, ReadErr, at_or};
use dwz_unit::{Values, known_value};
use std::alloc::AllocError;

/// A new unit, of whose values operands are told.
#[derive(Clone, Copy)]
pub(crate) struct AtUnit<'x, 's, 'a> {
    pub(crate) file: &'x NewFile<'s, 'a>,
    /// How all new units are laid.
    pub(crate) layout: &'x NewLayout,
    /// Which copies entries stand for in the new unit at hand.
    pub(crate) copies: &'x Copies,
    /// The number of that unit.
    pub(crate) unit: usize,
    /// What the values of the unit that it comes of stand in.
    pub(crate) here: &'x Here,
}

// Where the new unit begins.
fn start_of(x: &AtUnit) -> u64
    ensures { result ≡ (slice_index_or (layout_view x.now.layout.now).units x.now.unit (record { at = 0; end = 0; table = 0 })).at }
{
    let none = LaidUnit {
        at: 0,
        end: 0,
        table: 0,
    };
    let layout = x.layout;
    at_or(layout.units.as_slice(), x.unit, none).at
}

// An operand with the number of a copy.
fn renumbered(x: &AtUnit, operand: &Operand, copy: u64) -> Operand
    ensures { result ≡ with_number (λ at. slice_index (layout_view x.now.layout.now).places copy
        - base_place (slice_index_or (layout_view x.now.layout.now).units x.now.unit (record { at = 0; end = 0; table = 0 })).at operand.now.base) operand.now }
{
    let layout = x.layout;
    let place = at_or(layout.places.as_slice(), copy as usize, 0);
    let number = match operand.base {
        Base::Unit => place.saturating_sub(start_of(x)),
        Base::Info => place,
    };
    Operand {
        at: operand.at,
        width: operand.width,
        uleb: operand.uleb,
        base: operand.base,
        number,
    }
}

// Adds an operand with its new number.
fn put_operand(x: &AtUnit, told: &mut Vec<Operand>, operand: &Operand) -> Result<(), NoMemory>
    requires { CanTell x.now }
    ensures { (f : OneFile) (u : RawUnit) (t : Tells f x.now u) → is_named (own_scope x.now.file.now u) operand.now ≡ true
        → ¬ LosesOne x.now.file.now t.known.w x.now.unit u operand.now
        → OnOk result (told.new.items ≡ told.old.items ++ operand_after f (spoken_at x.now.unit u.at operand.now) ∷ []) }
{
    let file = x.file;
    let Some(entry) = entry_of(file.own.units, file.own.sections, x.here, operand) else {
        return Ok(());
    };
    let Some(copy) = x.copies.copy_of(entry) else {
        return Ok(());
    };
    told.push(renumbered(x, operand, copy.number))?;
    Ok(())
}

// Adds operands.
fn put_operands(x: &AtUnit, told: &mut Vec<Operand>, operands: &[Operand]) -> Result<(), NoMemory>
    requires { CanTell x.now }
    ensures { (f : OneFile) (u : RawUnit) (t : Tells f x.now u) → first_unnamed (is_named (own_scope x.now.file.now u)) operands.now ≡ None
        → AllKept x.now.file.now t.known.w x.now.unit u operands.now
        → OnOk result (told.new.items ≡ told.old.items ++ told_at f x.now.unit (own_scope x.now.file.now u) operands.now) }
{
    for operand in operands {
        put_operand(x, told, operand)?;
    }
    Ok(())
}

// Adds those of the location list at a place of `.debug_loclists`. `read` is room.
fn put_list_at(
    x: &AtUnit,
    told: &mut Vec<Operand>,
    place: u128,
    read: &mut Vec<Operand>,
) -> Result<(), NoMemory>
    requires { CanTell x.now }
    ensures { (f : OneFile) (u : RawUnit) (t : Tells f x.now u) (a : RawAttr) (v : Value ℕ) (l : LocList)
        → list_meaning (own_scope x.now.file.now u) a place ≡ Ok v → list_read (own_scope x.now.file.now u) place ≡ Ok l
        → AllKept x.now.file.now t.known.w x.now.unit u (operands_of l.exprs)
        → OnOk result (told.new.items ≡ told.old.items ++ told_at f x.now.unit (own_scope x.now.file.now u) (operands_of l.exprs)) }
{
    let file = x.file;
    let sections = file.own.sections;
    let lists = sections.lists;
    read.clear();
    if place >= lists.len() as u128 {
        return Ok(());
    }
    match walk_into(read, lists, place as u64) {
        Err(ReadErr::NoMemory) => Err(AllocError),
        Err(ReadErr::Refused(_fault)) => Ok(()),
        Ok(_end) => put_operands(x, told, read),
    }
}

// Those of the list whose offset from a base stands in a slot behind the base (DWARF 5, 7.29).
fn put_list_by_slot(
    x: &AtUnit,
    told: &mut Vec<Operand>,
    index: u128,
    read: &mut Vec<Operand>,
) -> Result<(), NoMemory>
    requires { CanTell x.now }
    ensures { (f : OneFile) (u : RawUnit) (t : Tells f x.now u) (a : RawAttr) (v : Value ℕ) (l : LocList) (base offset : ℕ)
        → x.now.here.now.lists ≡ Some base
        → Texts.slot (own_around x.now.file.now).sources.lists base index ≡ Some offset
        → list_meaning (own_scope x.now.file.now u) a (base + offset) ≡ Ok v → list_read (own_scope x.now.file.now u) (base + offset) ≡ Ok l
        → AllKept x.now.file.now t.known.w x.now.unit u (operands_of l.exprs)
        → OnOk result (told.new.items ≡ told.old.items ++ told_at f x.now.unit (own_scope x.now.file.now u) (operands_of l.exprs)) }
{
    let file = x.file;
    let sections = file.own.sections;
    let here = x.here;
    let Some(base) = here.lists else {
        return Ok(());
    };
    let Some(offset) = slot(sections.lists, base as u128, index) else {
        return Ok(());
    };
    put_list_at(x, told, base as u128 + offset as u128, read)
}

// Those of the list that a value names, if it names one. `DW_AT_sibling` names none.
fn put_attr(
    x: &AtUnit,
    told: &mut Vec<Operand>,
    pair: &Pair,
    raw: &Raw,
    read: &mut Vec<Operand>,
) -> Result<(), NoMemory>
    requires { CanTell x.now }
    ensures { (f : OneFile) (u : RawUnit) (t : Tells f x.now u) (at end : ℕ) → CanBeRead x.now.file.now t.known.w x.now.unit u
        (without_siblings (stored at end pair.now raw.now ∷ []))
        → OnOk result (told.new.items ≡ told.old.items ++ told_in f x.now.unit (own_scope x.now.file.now u)
        (without_siblings (stored at end pair.now raw.now ∷ []))) }
{
    if pair.name == DW_AT_SIBLING {
        return Ok(());
    }
    match class_of(pair.form) {
        Class::Offset => {
            if names_list(pair.name) {
                put_list_at(x, told, offset_of(raw), read)
            } else {
                Ok(())
            }
        }
        Class::ListIndex => put_list_by_slot(x, told, offset_of(raw), read),
        _ => Ok(()),
    }
}

/// Adds the operands of the lists that the values of an entry name. `read` is room.
pub(crate) fn put_values(
    x: &AtUnit,
    i: u32,
    told: &mut Vec<Operand>,
    read: &mut Vec<Operand>,
) -> Result<(), NoMemory>
    requires can { CanTell x.now }
    requires there { i < entries_in (raw_in x.now.file.now.own) }
    ensures { (f : OneFile) (u : RawUnit) (row : EntryRow) (t : Tells f x.now u) → slice_get (rows_of (raw_in x.now.file.now.own)) i ≡ Some row
        → CanBeRead x.now.file.now t.known.w x.now.unit u (without_siblings row.entry.attrs)
        → OnOk result (told.new.items ≡ told.old.items ++ told_in f x.now.unit (own_scope x.now.file.now u) (without_siblings row.entry.attrs)) }
{
    let file = x.file;
    let Values { pairs, mut cursor } = file.own.units.values(i);
    for pair in pairs {
        let raw = known_value(&mut cursor, pair);
        put_attr(x, told, pair, &raw, read)?;
    }
    Ok(())
}
