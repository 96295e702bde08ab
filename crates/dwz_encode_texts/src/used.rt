//! The texts that values name by their offsets in `.debug_str` of their own file (`DW_FORM_strp`).

ghost use Rattle.std.specs.Prelude.{◌≡◌, ◌++◌, IfOk, OnOk};
ghost use Rattle.std.specs.List.{flat_map};
ghost use Rattle.dwz_layout.specs.declared.walk.Origin.TheVariants.{Read};
ghost use Rattle.dwz_layout.specs.Attributes.{here_view, space_attrs};
ghost use Rattle.dwz_layout.specs.Ways;
ghost use Rattle.dwz_layout.specs.Ways.{holder_view};
ghost use Rattle.dwz_encode_texts.specs.Used.{items_uses, order_uses, origin_uses, out_uses};
ghost use Rattle.dwz_encode_texts.specs.Steps.{text_behind, text_uses, way_uses};

use dwz_codes::DW_AT_NAME;
use dwz_layout::{
    EntryTable, Origin, Rewrite, Row, SpaceRow, TextAt, UnitItems, UnitRole, Walk, WritingContext,
    behind, here_of, more, way_of,
};
use dwz_model::{NoMemory, Pair};
use dwz_unit::Values;
use std::alloc::Global;

// Appends the offset of a text that stands in the file of the unit itself.
#[inline(always)]
fn put_text(uses: &mut Vec<u32>, text: TextAt) -> Result<(), NoMemory>
    ensures { OnOk result (uses.new.items ≡ uses.old.items ++ text_uses text) }
{
    match text {
        TextAt::Own(offset) => uses.push(offset)?,
        TextAt::Shared(_) => {}
        TextAt::Pooled(offset) => uses.push(offset)?,
    }
    Ok(())
}

// Appends that of a value of an entry that was read: only a text that has a new place is written with this form. `next` counts the texts
// of the file.
#[inline(always)]
fn put_value(
    uses: &mut Vec<u32>,
    known: &EntryTable,
    file: u32,
    holder: UnitRole,
    next: &mut u64,
    pair: &Pair,
) -> Result<(), NoMemory>
    ensures uses { OnOk result (uses.new.items ≡ uses.old.items
        ++ way_uses known.now file next.old (Ways.rewrite_of (holder_view holder) pair.now)) }
    ensures next { OnOk result (next.new ≡ text_behind next.old (Ways.rewrite_of (holder_view holder) pair.now)) }
{
    match way_of(holder, pair) {
        Rewrite::AsText => {
            let text = known.text(file, *next);
            *next = more(*next, 1)?;
            put_text(uses, text)
        }
        Rewrite::KeepsText => {
            *next = more(*next, 1)?;
            Ok(())
        }
        _ => Ok(()),
    }
}

// Appends those of an entry that was read.
fn put_row(
    uses: &mut Vec<u32>,
    known: &EntryTable,
    here: WritingContext,
    row: Row,
) -> Result<(), NoMemory>
    ensures { OnOk result (uses.new.items ≡ uses.old.items ++ origin_uses known.now (here_view here) (Read row)) }
{
    let Some(Values { pairs, cursor: _ }) = known.values(row) else {
        return Ok(());
    };
    let mut next = known.firsts(row).text;
    for pair in pairs {
        put_value(uses, known, row.file, here.holder, &mut next, pair)?;
    }
    Ok(())
}

// Appends that of the name of a space of a partial unit.
fn put_name(
    uses: &mut Vec<u32>,
    known: &EntryTable,
    holder: UnitRole,
    space: SpaceRow,
) -> Result<(), NoMemory>
    ensures { OnOk result (uses.new.items ≡ uses.old.items ++ flat_map out_uses (space_attrs known.now (holder_view holder) space)) }
{
    let Some(Values { pairs, cursor: _ }) = known.values(space.row) else {
        return Ok(());
    };
    for pair in pairs {
        if pair.name == DW_AT_NAME {
            return match way_of(holder, pair) {
                Rewrite::AsText => put_text(uses, space.text_in(holder)),
                _ => Ok(()),
            };
        }
    }
    Ok(())
}

// Appends those of an entry that is written.
#[inline(always)]
fn put_entry(
    uses: &mut Vec<u32>,
    known: &EntryTable,
    here: WritingContext,
    origin: Origin,
) -> Result<(), NoMemory>
    ensures { OnOk result (uses.new.items ≡ uses.old.items ++ origin_uses known.now (here_view here) origin) }
{
    match origin {
        Origin::Read(row) => put_row(uses, known, here, row),
        Origin::OwnRoot(_) => Ok(()),
        Origin::Chained { space, .. } => put_name(uses, known, here.holder, known.space(space)),
        Origin::Imported(_) => Ok(()),
    }
}

// Appends those of the unit with a number.
fn put_unit(
    uses: &mut Vec<u32>,
    known: &EntryTable,
    unit: u32,
    items: &UnitItems,
) -> Result<(), NoMemory>
    ensures { OnOk result (uses.new.items ≡ uses.old.items ++ items_uses known.now unit items.now) }
{
    let here = here_of(known, unit, items.sort);
    let mut walk = Walk::new(known, items);
    while let Some(entry) = walk.next() {
        put_entry(uses, known, here, entry.origin)?;
    }
    Ok(())
}

/// The offsets of texts in all values of form `DW_FORM_strp` (DWARF 5, 7.5.5) that are written of these units, entry by entry and value by
/// value. The first of the units has that number among all that are written.
pub fn uses_of(
    alloc: Global,
    known: &EntryTable,
    first: u32,
    units: &[UnitItems],
) -> Result<Vec<u32>, NoMemory>
    ensures { IfOk result (λ uses. uses.items ≡ order_uses known.now first units.now) }
{
    let mut uses = Vec::new(alloc);
    let mut unit = first;
    for items in units {
        put_unit(&mut uses, known, unit, items)?;
        unit = behind(unit, 1)?;
    }
    Ok(uses)
}
