//! The entries of a unit, laid one behind the other.
//!
//! A first pass measures, and a second one writes (`dwz_encode`). Neither keeps attributes of entries: both read them again. Places have 64
//! bits; whether there are too many bytes is asked of the finished layout.

ghost use Rattle.std.specs.Prelude.{◌≡◌, [], IfOk, OnOk};
ghost use Rattle.dwz_layout.specs.Attributes.{call_of, here_of, here_view, no_numbers};
ghost use Rattle.dwz_layout.specs.Laid;
ghost use Rattle.dwz_layout.specs.Laid.{laid_unit, laying_of, with_call};

use crate::Shapes;
use crate::known::EntryTable;
use crate::order::{Sort, UnitItems};
use crate::sizes::{Scratch, measure, more, tag_of, uleb_len};
use crate::walk::{Entry, Origin, Walk};
use crate::ways::{WritingContext, here_of};
use dwz_model::NoMemory;
use std::alloc::{AllocError, Global};
use std::mem;

/// The entries of a unit that are laid so far.
#[derive(Drop)]
pub(crate) struct Laying {
    pub(crate) shapes: Shapes,
    pub(crate) at: u64,
    pub(crate) codes: Vec<u32>,
}

// A code as it is kept.
#[inline(always)]
fn kept_code(code: u64) -> Result<u32, NoMemory>
    ensures { IfOk result (λ kept. kept ≡ code) }
{
    if code > u32::MAX as u64 {
        return Err(AllocError);
    }
    Ok(code as u32)
}

// Keeps the place of an entry that was read.
#[inline(always)]
fn note(known: &EntryTable, origin: Origin, at: u64, places: &mut [u64])
    ensures { places.new ≡ Laid.note known.now origin at places.old }
{
    if let Origin::Read(row) = origin {
        let number = known.number(row);
        if number < places.len() as u64 {
            places[number as usize] = at;
        }
    }
}

impl Laying {
    // Lays an entry.
    #[inline(always)]
    fn entry(
        &mut self,
        alloc: Global,
        room: &mut Scratch,
        known: &EntryTable,
        here: WritingContext,
        entry: &Entry,
        places: &mut [u64],
    ) -> Result<(), NoMemory>
        ensures { OnOk result (laying_of self.new places.new ≡ with_call known.now entry.now.origin
            (call_of known.now (here_view here) no_numbers entry.now) (laying_of self.old places.old)) }
    {
        let values = measure(room, known, here, entry.origin)?;
        let tag = tag_of(known, entry.origin);
        let code = self
            .shapes
            .code_for(alloc, tag, entry.children, &mut room.pairs)?;
        self.codes.push(kept_code(code)?)?;
        note(known, entry.origin, self.at, places);
        let coded = more(uleb_len(code), values)?;
        self.at = more(more(self.at, coded)?, entry.ends)?;
        Ok(())
    }
}

/// How many bytes a header has.
pub(crate) fn header_size(sort: Sort) -> u64
    ensures { result ≡ Laid.header_size sort }
{
    match sort {
        Sort::OfType { .. } => 24,
        _ => 12,
    }
}

// The room for codes, with none in it.
#[inline(always)]
fn codes_room(alloc: Global, room: &mut Scratch) -> Vec<u32>
    ensures { result.items ≡ [] }
{
    let mut codes = mem::replace(&mut room.codes, Vec::new(alloc));
    codes.clear();
    codes
}

// The room for shapes, with none in it.
#[inline(always)]
fn shapes_room(alloc: Global, room: &mut Scratch) -> Shapes
    ensures { result ≡ [] }
{
    let mut shapes = mem::replace(&mut room.shapes, Shapes::new(alloc));
    shapes.clear(alloc);
    shapes
}

/// Lays the unit with a number, which begins at a place. The codes and the shapes stand in the room that is lent.
pub(crate) fn lay(
    alloc: Global,
    room: &mut Scratch,
    known: &EntryTable,
    here: u32,
    unit: &UnitItems,
    at: u64,
    places: &mut [u64],
) -> Result<Laying, NoMemory>
    ensures { IfOk result (λ laying. laying_of laying places.new ≡ laid_unit known.now here at places.old unit.now) }
{
    let mut laying = Laying {
        shapes: shapes_room(alloc, room),
        at: more(at, header_size(unit.sort))?,
        codes: codes_room(alloc, room),
    };
    let of = here_of(known, here, unit.sort);
    let mut walk = Walk::new(known, unit);
    while let Some(entry) = walk.next() {
        laying.entry(alloc, room, known, of, &entry, places)?;
    }
    Ok(laying)
}
