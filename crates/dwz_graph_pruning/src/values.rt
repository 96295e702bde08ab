//! Values that say the same where texts move.

ghost use Rattle.std.specs.Prelude.{◌≡◌, ◌^◌, ◌≤◌, MatchOption};
ghost use Rattle.std.specs.List.Sorted.{IsStrictlyIncreasing};
ghost use Rattle.dwz_def_reading.specs.Spelling.{reach};
ghost use Rattle.dwz_def_reading.specs.Texts.{slot_place};
ghost use Rattle.dwz_forms.specs.RawValues.{raw_view};
ghost use Rattle.dwz_def_reading.specs.Meanings.{number_of};
ghost use Rattle.dwz_graph_pruning.specs.Stays;

use dwz_codes::{Class, DW_AT_SIBLING, class_of, names_file};
use dwz_forms::Raw;
use dwz_graph::offset_of;
use dwz_model::Pair;

/// What is known of a unit.
#[derive(Clone, Copy)]
pub(crate) struct Known {
    /// Where its slots begin in `.debug_str_offsets`, if it has some.
    pub(crate) base: Option<u32>,
    /// Whether a format of the line table has the form strp by which its files are numbered.
    pub(crate) strp: bool,
}

// How many bytes a slot has.
const SLOT: u64 = 4;

#[inline(always)]
fn asks_as(class: Class, strp: bool, name: u16) -> bool
    ensures { result ≡ Stays.asks_as class strp name }
{
    match class {
        Class::TextBySlot => true,
        Class::Constant => strp && names_file(name),
        _ => false,
    }
}

/// Whether it has to be asked of a value of that name and form whether it stays: a text by a slot, or the number of a file of a table with
/// the form strp.
#[inline(always)]
pub(crate) fn asks(strp: bool, pair: &Pair) -> bool
    ensures { result ≡ Stays.asks strp pair.now }
{
    pair.name != DW_AT_SIBLING && asks_as(class_of(pair.form), strp, pair.name)
}

// The place of the slot of an index, where it has four bytes.
#[inline(always)]
fn place_of(base: u32, index: u128) -> Option<u32>
    ensures { MatchOption result (2 ^ 32 ≤ slot_place base index) (λ place. place ≡ slot_place base index) }
{
    if index > u32::MAX as u128 {
        return None;
    }
    let place = base as u64 + SLOT * index as u64;
    if place > u32::MAX as u64 {
        return None;
    }
    Some(place as u32)
}

// Whether the slot of an index is one of these, which ascend; or there is no base.
#[inline(always)]
fn is_slot(slots: &[u32], base: Option<u32>, index: u128) -> bool
    requires { IsStrictlyIncreasing slots.now }
    ensures { result ≡ Stays.is_slot slots.now base index }
{
    let Some(base) = base else {
        return true;
    };
    match place_of(base, index) {
        None => false,
        Some(place) => slots.binary_search(&place).is_ok(),
    }
}

#[inline(always)]
fn stays_as(class: Class, slots: &[u32], base: Option<u32>, index: u128) -> bool
    requires { IsStrictlyIncreasing slots.now }
    ensures { result ≡ Stays.stays_as class slots.now base index }
{
    match class {
        Class::TextBySlot => is_slot(slots, base, index),
        _ => false,
    }
}

/// Whether a value stays: it isn't asked, or its slot is one of these, which ascend.
#[inline(always)]
pub(crate) fn stays(slots: &[u32], known: &Known, pair: &Pair, raw: &Raw) -> bool
    requires { IsStrictlyIncreasing slots.now }
    ensures { result ≡ Stays.stays slots.now known.now pair.now (reach (number_of (raw_view raw.now))) }
{
    if !asks(known.strp, pair) {
        return true;
    }
    stays_as(class_of(pair.form), slots, known.base, offset_of(raw))
}
