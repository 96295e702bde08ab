//! Rows of tops that are written down, and whether they are as `dwz_takes` asks: what clauses say of its answers rests on that.

ghost use Rattle.std.specs.Prelude.{◌≡◌, ℕ, ◌<◌, IsTrue, length, slice_index_or};
ghost use Rattle.dwz_model.specs.Lists.{In};
ghost use Rattle.dwz_takes.specs.Blocked.{AreKin};
ghost use Rattle.dwz_takes.specs.Images.{AreApart};
ghost use Rattle.dwz_takes.specs.Takes.{AreBelow, AreRows, list_at};

use dwz_groups::{Edge, Groups, group};
use dwz_model::at_or;
use dwz_takes::Rows;
use std::alloc::Global;
use std::process::Abort;

// So many of each kind are enough for any test.
const MANY: usize = 1_000_000;

/// The edges from numbers below the count, grouped by these.
pub(crate) fn grouped(rt: &impl Abort, alloc: Global, count: usize, edges: &[Edge]) -> Groups {
    let mut below = Vec::new(alloc);
    for edge in edges {
        if (edge.key as usize) < count {
            below.push(*edge).expect(rt, "memory");
        }
    }
    group(alloc, count, below.as_slice()).expect(rt, "memory")
}

/// The lists of a text: each word has the digits of one, and `-` is one without any.
pub(crate) fn lists_of(rt: &impl Abort, alloc: Global, text: &str) -> Groups {
    let mut edges = Vec::new(alloc);
    let mut key = 0u32;
    for &byte in text.as_bytes() {
        match byte {
            b' ' => key = key.saturating_add(1),
            b'-' => {}
            _ => {
                let value = u32::from(byte.wrapping_sub(b'0'));
                edges.push(Edge { key, value }).expect(rt, "memory");
            }
        }
    }
    grouped(
        rt,
        alloc,
        (key as usize).saturating_add(1),
        edges.as_slice(),
    )
}

// Whether all numbers are below that one.
fn are_less(numbers: &[u32], bound: usize) -> bool
    ensures { IsTrue result → (n : ℕ) → In n numbers.now → n < bound }
{
    for number in numbers {
        if *number as usize >= bound {
            return false;
        }
    }
    true
}

// Whether all numbers of these lists are below that one.
fn are_below(lists: &Groups, bound: usize) -> bool
    ensures { IsTrue result → AreBelow bound lists.now }
{
    for key in 0..lists.len() {
        if !are_less(lists.get(key), bound) {
            return false;
        }
    }
    true
}

// Whether all these tops have that unit.
fn are_of(units: &[u32], tops: &[u32], unit: u32) -> bool
    ensures { IsTrue result → (t : ℕ) → In t tops.now → slice_index_or units.now t 0 ≡ unit }
{
    for top in tops {
        if at_or(units, *top as usize, 0) != unit {
            return false;
        }
    }
    true
}

/// Whether each top that may move is in its unit alone, by these numbers.
pub(crate) fn are_apart(rows: &Rows, units: &[u32]) -> bool
    ensures { IsTrue result → AreApart rows.now }
{
    if rows.unit_tops.len() >= MANY {
        return false;
    }
    for unit in 0..rows.unit_tops.len() {
        if !are_of(units, rows.unit_tops.get(unit), unit as u32) {
            return false;
        }
    }
    true
}

/// Whether rows are as they have to be.
pub(crate) fn are_rows(rows: &Rows) -> bool
    ensures { IsTrue result → AreRows rows.now }
{
    let tops = rows.classes.len();
    let units = rows.unit_tops.len();
    let parts = rows.part_tops.len();
    if tops >= MANY || units >= MANY || parts >= MANY {
        return false;
    }
    if rows.unit_names.len() != units {
        return false;
    }
    if rows.part_names.len() != parts || rows.part_targets.len() != parts {
        return false;
    }
    if !are_less(rows.classes.as_slice(), tops) {
        return false;
    }
    if !are_below(&rows.unit_tops, tops) || !are_below(&rows.part_tops, tops) {
        return false;
    }
    let names = rows.names as usize;
    if !are_below(&rows.unit_names, names) || !are_below(&rows.part_names, names) {
        return false;
    }
    are_below(&rows.part_targets, parts)
}

/// Whether what `blocked` is given is as it has to be.
pub(crate) fn are_kin(kin: &[u32], images: &[Option<u32>], targets: &Groups) -> bool
    ensures { IsTrue result → AreKin kin.now images.now targets.now }
{
    if kin.len() >= MANY || images.len() != kin.len() || targets.len() != kin.len() {
        return false;
    }
    if !are_less(kin, kin.len()) {
        return false;
    }
    are_below(targets, kin.len())
}
