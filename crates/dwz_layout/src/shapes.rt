//! The shapes of a unit's entries, each once, and their codes.
//!
//! Most shapes of a unit come many times. They are found in slots (`Slots`): where a shape is there, it nearly always stands in the slot that is
//! looked into first. Those in whose slots others stand are found by an ordered map. A key is a row of words, a hash and then the shape itself:
//! so the first words nearly always decide, and the hash needs no properties. It is made in room that is kept, and copied only where the shape
//! is new.

ghost use Rattle.std.specs.Prelude.{◌≡◌, ◌<◌, [], All, IfOk, None, OnErr, OnOk, Some};
ghost use Rattle.dwz_def_encoding.specs.Writing.{code_in, with_shape};
ghost use Rattle.dwz_def_reading.specs.Abbrevs.{IsPlainPair};
ghost use Rattle.dwz_layout.specs.Keys.{HasBits, key_of};
ghost use Rattle.dwz_layout.specs.Shapes.{IsCoded, shape_of, shapes_in, table_for};
ghost use Rattle.dwz_layout.specs.Slots.{AreFound, HoldOthers, IsFree, home_of, places_in};

use crate::codes::Codes;
use crate::slots::{Slots, Spot};
use dwz_abbrev::Table;
use dwz_model::{NoMemory, Pair, Pairs};
use std::alloc::Global;
use std::marker::Model;

// How many bytes most declarations have room in.
const DECL_ROOM: usize = 24;

// Where shapes are found.
#[derive(Drop)]
struct ShapeIndex {
    slots: Slots,
    // The codes of those in whose slots others stand, which are looked up: among n that takes log n comparisons, whatever they are.
    codes: Codes,
}

/// The shapes of a unit's entries, each once. Clauses see them in the order of their codes.
#[derive(Drop)]
pub struct Shapes {
    table: Table,
    index: ShapeIndex,
}

impl Model for Shapes {
    ghost use Rattle.std.specs.Prelude.{List};
    ghost use Rattle.dwz_def_encoding.specs.Writing.{DeclarationShape};
    ghost use Rattle.dwz_layout.specs.Shapes.{IsCoded, shapes_in};
    ghost use Rattle.dwz_layout.specs.Slots.{AreFound, places_in};

    ghost Value = { List DeclarationShape };

    ghost view = { λ s. shapes_in s.table };

    ghost invariant = { λ s. IsCoded s.table × AreFound s.index.codes.by_key (places_in s.index.slots) (shapes_in s.table) };
}

// Appends a shape for which a slot is free, and puts it there. After an error the table is as before.
#[inline(never)]
fn add_in_slot(
    table: &mut Table,
    index: &mut ShapeIndex,
    slot: usize,
    tag: u16,
    children: bool,
    pairs: Pairs,
) -> Result<u64, NoMemory>
    requires coded { IsCoded table.old }
    requires found { AreFound index.old.codes.by_key (places_in index.old.slots) (shapes_in table.old) }
    requires free { let s = shape_of tag children pairs in
        IsFree (places_in index.old.slots) (shapes_in table.old) s (home_of s) slot }
    requires some_tag { 0 < tag }
    requires plain { All IsPlainPair pairs }
    ensures coded { IsCoded table.new }
    ensures found { AreFound index.new.codes.by_key (places_in index.new.slots) (shapes_in table.new) }
    ensures code { IfOk result (λ code. code_in 1 (shapes_in table.new) (shape_of tag children pairs) ≡ Some code) }
    ensures shapes { OnOk result (shapes_in table.new ≡ with_shape (shapes_in table.old) (shape_of tag children pairs)) }
    ensures err { OnErr result (table.new ≡ table.old) }
{
    let place = table.len();
    let code = table.append(tag, children, pairs)?;
    index.slots.put(slot, place);
    Ok(code)
}

// Appends a shape that isn't in the table, in whose slots others stand, and whose key was made. After an error the table is as before.
#[inline(never)]
fn add(
    table: &mut Table,
    index: &mut ShapeIndex,
    tag: u16,
    children: bool,
    pairs: Pairs,
) -> Result<u64, NoMemory>
    requires coded { IsCoded table.old }
    requires found { AreFound index.old.codes.by_key (places_in index.old.slots) (shapes_in table.old) }
    requires crowded { let s = shape_of tag children pairs in
        HoldOthers (places_in index.old.slots) (shapes_in table.old) s (home_of s) 16 }
    requires key { index.old.codes.key.items ≡ key_of (shape_of tag children pairs) }
    requires is_new { code_in 1 (shapes_in table.old) (shape_of tag children pairs) ≡ None }
    requires some_tag { 0 < tag }
    requires plain { All IsPlainPair pairs }
    requires bits { All HasBits pairs }
    ensures coded { IsCoded table.new }
    ensures found { AreFound index.new.codes.by_key (places_in index.new.slots) (shapes_in table.new) }
    ensures code { IfOk result (λ code. code_in 1 (shapes_in table.new) (shape_of tag children pairs) ≡ Some code) }
    ensures shapes { OnOk result (shapes_in table.new ≡ with_shape (shapes_in table.old) (shape_of tag children pairs)) }
    ensures err { OnErr result (table.new ≡ table.old) }
{
    index.codes.keep(table.len() as u64 + 1)?;
    match table.append(tag, children, pairs) {
        Ok(code) => Ok(code),
        Err(failed) => {
            index.codes.forget();
            Err(failed)
        }
    }
}

// The code of a shape in whose slots others stand. It is added if it is new.
#[inline(never)]
fn code_by_key(
    alloc: Global,
    table: &mut Table,
    index: &mut ShapeIndex,
    tag: u16,
    children: bool,
    pairs: &[Pair],
) -> Result<u64, NoMemory>
    requires coded { IsCoded table.old }
    requires found { AreFound index.old.codes.by_key (places_in index.old.slots) (shapes_in table.old) }
    requires crowded { let s = shape_of tag children pairs.now in
        HoldOthers (places_in index.old.slots) (shapes_in table.old) s (home_of s) 16 }
    requires some_tag { 0 < tag }
    requires plain { All IsPlainPair pairs.now }
    ensures coded { IsCoded table.new }
    ensures found { AreFound index.new.codes.by_key (places_in index.new.slots) (shapes_in table.new) }
    ensures code { IfOk result (λ code. code_in 1 (shapes_in table.new) (shape_of tag children pairs.now) ≡ Some code) }
    ensures shapes { OnOk result (shapes_in table.new ≡ with_shape (shapes_in table.old) (shape_of tag children pairs.now)) }
    ensures err { OnErr result (table.new ≡ table.old) }
{
    match index.codes.code_of(tag, children, pairs)? {
        Some(code) => Ok(code),
        None => {
            let copied = Pairs::new(Vec::from_slice(alloc, pairs)?);
            add(table, index, tag, children, copied)
        }
    }
}

impl Shapes {
    /// No shapes, all of which are to be found by their keys.
    pub fn new(alloc: Global) -> Shapes
        ensures { result ≡ [] }
    {
        Shapes {
            table: Table::new(alloc),
            index: ShapeIndex {
                slots: Slots::none(alloc),
                codes: Codes::new(alloc),
            },
        }
    }

    /// No shapes, and slots for them.
    pub(crate) fn with_slots(alloc: Global) -> Result<Shapes, NoMemory>
        ensures { IfOk result (λ shapes. shapes ≡ []) }
    {
        Ok(Shapes {
            table: Table::new(alloc),
            index: ShapeIndex {
                slots: Slots::empty(alloc)?,
                codes: Codes::new(alloc),
            },
        })
    }

    /// Takes all shapes away. The room for slots is kept.
    pub(crate) fn clear(&mut self, alloc: Global)
        ensures { self.new ≡ [] }
    {
        self.index.slots.pass(self.table.len());
        self.index.codes = Codes::new(alloc);
        self.table = Table::new(alloc);
    }

    /// The code of a shape, which is added if it is new. The pairs stand in the room that is lent, and are copied where the shape is new:
    /// so the room is kept.
    #[inline(always)]
    pub fn code_for(
        &mut self,
        alloc: Global,
        tag: u16,
        children: bool,
        room: &mut Vec<Pair>,
    ) -> Result<u64, NoMemory>
        requires some_tag { 0 < tag }
        requires plain { All IsPlainPair room.old.items }
        ensures code { IfOk result (λ code. code_in 1 self.new (shape_of tag children room.old.items) ≡ Some code) }
        ensures shapes { OnOk result (self.new ≡ with_shape self.old (shape_of tag children room.old.items)) }
        ensures err { OnErr result (self.new ≡ self.old) }
    {
        let pairs = room.as_slice();
        match self
            .index
            .slots
            .find(self.table.decls(), tag, children, pairs)
        {
            Spot::At(place) => Ok(place as u64 + 1),
            Spot::Free(slot) => {
                let copied = Pairs::new(Vec::from_slice(alloc, pairs)?);
                add_in_slot(
                    &mut self.table,
                    &mut self.index,
                    slot,
                    tag,
                    children,
                    copied,
                )
            }
            Spot::Crowded => code_by_key(
                alloc,
                &mut self.table,
                &mut self.index,
                tag,
                children,
                pairs,
            ),
        }
    }

    /// The bytes of their table.
    pub fn table(&self, alloc: Global) -> Result<Vec<u8>, NoMemory>
        ensures { IfOk result (λ table. table.items ≡ table_for self.now) }
    {
        let mut table = Vec::with_capacity(alloc, self.table.len().saturating_mul(DECL_ROOM))?;
        self.table.write(&mut table)?;
        Ok(table)
    }
}
