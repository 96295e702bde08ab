//! Places of shapes in slots: each is looked for in a few of them, from the one that its hash gives on.

ghost use Rattle.std.specs.Prelude.{◌≡◌, ◌≢◌, ◌+◌, ◌%◌, ◌<◌, ◌^◌, [], true, false, IfOk, length, slice_index, slice_set};
ghost use Rattle.dwz_abbrev.specs.Views.{decl_view, views};
ghost use Rattle.dwz_def_reading.specs.Abbrevs.{children_byte};
ghost use Rattle.dwz_layout.specs.Shapes.{shape_in, shape_of, shapes_in};
ghost use Rattle.dwz_layout.specs.Slots.{IsHeld, IsSpot, home_of, pair_word, places_in};

use crate::codes::mix;
use dwz_abbrev::Decl;
use dwz_model::{NoMemory, Pair};
use std::alloc::Global;

// In how many slots a shape is looked for.
const STEPS: usize = 16;

// How many slots there are to begin at: one for each number of 11 bits.
const SIZE: usize = 2048;

// Behind how many hashes the next slot is that of a shape.
const STRETCH: u64 = 0x0020_0000_0000_0000;

// What a slot holds in which no shape stood: no place of one, since there are fewer.
const EMPTY: usize = usize::MAX;

// How far the form and the constant of a pair are moved, so that they stand beside its name.
const AT_FORM: u64 = 0x1_0000;

const AT_CONSTANT: u64 = 0x1_0000_0000;

/// Where a shape is, or where it may stand.
#[derive(Clone, Copy)]
pub(crate) enum Spot {
    /// It is at this place among the shapes, counted from 0.
    At(usize),
    /// It isn't there; this slot is free for it.
    Free(usize),
    /// Other shapes stand in all its slots.
    Crowded,
}

// What a slot holds.
#[derive(Clone, Copy)]
enum Held {
    // The shape that is looked for, which is at this place.
    Same(usize),
    // Another shape.
    Other,
    // No shape.
    Nothing,
}

/// Slots in which places of the shapes of a unit stand. They hold numbers that count on from unit to unit: a place is what its number is behind
/// the base, and numbers of units before are places that no shape has. So no slot is written where a unit begins.
#[derive(Drop)]
pub(crate) struct Slots {
    numbers: Vec<usize>,
    base: usize,
}

// A pair in one word.
#[inline(always)]
fn word_of(pair: &Pair) -> u64
    ensures { result ≡ pair_word pair.now }
{
    let constant = pair.constant.cast_unsigned().wrapping_mul(AT_CONSTANT);
    let form = pair.form.wrapping_mul(AT_FORM);
    (constant ^ form) ^ pair.name as u64
}

// Whether there are children, as a word.
#[inline(always)]
fn children_word(children: bool) -> u64
    ensures { result ≡ children_byte children }
{
    if children { 1 } else { 0 }
}

// The slot from which on a shape is looked for.
#[inline(always)]
fn home(tag: u16, children: bool, pairs: &[Pair]) -> usize
    ensures value { result ≡ home_of (shape_of tag children pairs.now) }
    ensures below { result < 2 ^ 11 }
{
    let mut hash = mix(tag as u64, children_word(children));
    for pair in pairs {
        let word = word_of(pair);
        hash = mix(hash, word);
    }
    (hash / STRETCH) as usize
}

// Whether a declaration is of that shape.
#[inline(always)]
fn is_decl(decl: &Decl, tag: u16, children: bool, pairs: &[Pair]) -> bool
    ensures yes { result ≡ true → shape_in (decl_view decl.now) ≡ shape_of tag children pairs.now }
    ensures no { result ≡ false → shape_in (decl_view decl.now) ≢ shape_of tag children pairs.now }
{
    if decl.tag != tag {
        return false;
    }
    if decl.children != children {
        return false;
    }
    decl.pairs.as_slice() == pairs
}

impl Slots {
    /// No slots: so none is free.
    pub(crate) fn none(alloc: Global) -> Slots
        ensures { places_in result ≡ [] }
    {
        Slots {
            numbers: Vec::new(alloc),
            base: 0,
        }
    }

    /// Slots in which no shape stands. Behind those to begin at are as many as a shape may be moved by.
    pub(crate) fn empty(alloc: Global) -> Result<Slots, NoMemory>
        ensures len { IfOk result (λ slots. length slots.numbers.items ≡ 2064) }
        ensures base { IfOk result (λ slots. slots.base ≡ 0) }
    {
        Ok(Slots {
            numbers: vec![in alloc; EMPTY; SIZE + STEPS]?,
            base: 0,
        })
    }

    /// Frees the slots that hold places below a count.
    pub(crate) fn pass(&mut self, count: usize)
        ensures numbers { self.new.numbers ≡ self.old.numbers }
        ensures base { self.new.base ≡ (self.old.base + count) % 2 ^ 64 }
    {
        self.base = self.base.wrapping_add(count);
    }

    // How many slots there are.
    #[inline(always)]
    fn len(&self) -> usize
        ensures { result ≡ length (places_in self.now) }
    {
        self.numbers.len()
    }

    // The place that a slot holds.
    #[inline(always)]
    #[tactic(auto, using(crate::proofs::SlotLemmas::slots_len))]
    fn place(&self, slot: usize) -> usize
        requires { slot < length (places_in self.now) }
        ensures { result ≡ slice_index (places_in self.now) slot }
    {
        let number = self.numbers[slot];
        number.wrapping_sub(self.base)
    }

    // What a slot holds, where a shape is looked for. One behind the last counts as one that holds another shape.
    #[inline(always)]
    fn held(&self, decls: &[Decl], tag: u16, children: bool, pairs: &[Pair], slot: usize) -> Held
        ensures { IsHeld (places_in self.now) (shapes_in (views decls.now)) (shape_of tag children pairs.now) slot result }
    {
        if slot >= self.len() {
            return Held::Other;
        }
        let place = self.place(slot);
        if place >= decls.len() {
            return Held::Nothing;
        }
        let decl = &decls[place];
        if is_decl(decl, tag, children, pairs) {
            return Held::Same(place);
        }
        Held::Other
    }

    // Where a shape is, or may stand, of the slots from `start` on.
    #[inline(always)]
    fn find_from(
        &self,
        decls: &[Decl],
        tag: u16,
        children: bool,
        pairs: &[Pair],
        start: usize,
    ) -> Spot
        requires { start < 2 ^ 11 }
        ensures { IsSpot (places_in self.now) (shapes_in (views decls.now)) (shape_of tag children pairs.now) start result }
    {
        for step in 0..STEPS {
            let slot = start + step;
            match self.held(decls, tag, children, pairs, slot) {
                Held::Same(place) => return Spot::At(place),
                Held::Nothing => return Spot::Free(slot),
                Held::Other => {}
            }
        }
        Spot::Crowded
    }

    /// Where a shape is, or may stand.
    #[inline(always)]
    pub(crate) fn find(&self, decls: &[Decl], tag: u16, children: bool, pairs: &[Pair]) -> Spot
        ensures { let s = shape_of tag children pairs.now in
            IsSpot (places_in self.now) (shapes_in (views decls.now)) s (home_of s) result }
    {
        let start = home(tag, children, pairs);
        self.find_from(decls, tag, children, pairs, start)
    }

    /// Puts a place into a slot.
    #[inline(always)]
    #[tactic(auto, using(crate::proofs::SlotLemmas::slots_len))]
    pub(crate) fn put(&mut self, slot: usize, place: usize)
        requires { slot < length (places_in self.old) }
        ensures { places_in self.new ≡ slice_set (places_in self.old) slot place }
    {
        self.numbers[slot] = self.base.wrapping_add(place);
    }
}
