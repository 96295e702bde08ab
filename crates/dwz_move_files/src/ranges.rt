//! The tops of the unit that a top is of.

ghost use Rattle.std.specs.Prelude.{◌≡◌, ◌≢◌, ◌↔◌, ℕ, suc, ◌+◌, ◌<◌, ◌≤◌, ◌^◌, true, List, Some, length, slice_get};
ghost use Rattle.dwz_def_tops.specs.Spots.{Top};
ghost use Rattle.dwz_graph.specs.declared.index.TopEntry.{TopEntry};
ghost use Rattle.dwz_move_files.specs.Ranges.{Continues, HaveUnits};
ghost use Rattle.dwz_move.specs.Bound.{HasTops};

use dwz_graph::TopEntry;
use dwz_move::TopRange;

// How many tops at the front are of a unit.
fn run_length(tops: &[TopEntry], unit: u32) -> usize
    ensures within { result ≤ length tops.now }
    ensures same { (k : ℕ) (x : TopEntry) → k < result → slice_get tops.now k ≡ Some x → x.unit ≡ unit }
    ensures next { (x : TopEntry) → slice_get tops.now result ≡ Some x → x.unit ≢ unit }
{
    for (k, top) in tops.iter().enumerate() {
        if top.unit != unit {
            return k;
        }
    }
    tops.len()
}

// Whether a top is of the unit of the one before it.
fn continues_unit(tops: &[TopEntry], i: usize) -> bool
    requires { i < length tops.now }
    ensures { (x : TopEntry) → slice_get tops.now i ≡ Some x → (result ≡ true) ↔ Continues tops.now i x }
{
    if i == 0 {
        return false;
    }
    tops[i - 1].unit == tops[i].unit
}

// The tops of the unit of which the i-th of these is the first.
fn range_from(tops: &[TopEntry], i: usize, first: u32) -> TopRange
    requires within { i < length tops.now }
    requires room { first + length tops.now < 2 ^ 32 }
    ensures { (all : List Top) (x : TopEntry) → HaveUnits all first tops.now → slice_get tops.now i ≡ Some x
        → (Continues tops.now i x → ⊥) → HasTops all x.unit result }
{
    let run = run_length(&tops[i..], tops[i].unit);
    TopRange {
        first: first + i as u32,
        end: first + (i + run) as u32,
    }
}

// The first top of the unit of the i-th.
fn unit_start(tops: &[TopEntry], i: usize) -> usize
    requires { i < length tops.now }
    ensures within { result ≤ i }
    ensures first { (x : TopEntry) → slice_get tops.now result ≡ Some x → Continues tops.now result x → ⊥ }
    ensures same { (x y : TopEntry) → slice_get tops.now result ≡ Some x → slice_get tops.now i ≡ Some y → x.unit ≡ y.unit }
{
    let mut k = i;
    while continues_unit(tops, k) {
        k -= 1;
    }
    k
}

/// The tops of the unit of the one before the i-th of these tops of a file, if there is one. The first of them has a number.
pub(crate) fn range_before(tops: &[TopEntry], i: usize, first: u32) -> TopRange
    requires within { i ≤ length tops.now }
    requires room { first + length tops.now < 2 ^ 32 }
    ensures { (all : List Top) (j : ℕ) (y : TopEntry) → HaveUnits all first tops.now → suc j ≡ i → slice_get tops.now j ≡ Some y
        → HasTops all y.unit result }
{
    if i == 0 {
        return TopRange { first: 0, end: 0 };
    }
    range_from(tops, unit_start(tops, i - 1), first)
}

/// The tops of the unit of the i-th of these tops of a file, the first of which has a number. Those of the unit of the one before it are
/// given.
pub(crate) fn range_at(own: TopRange, tops: &[TopEntry], i: usize, first: u32) -> TopRange
    requires within { i < length tops.now }
    requires room { first + length tops.now < 2 ^ 32 }
    ensures { (all : List Top) (x : TopEntry) → HaveUnits all first tops.now → slice_get tops.now i ≡ Some x
        → ((j : ℕ) (y : TopEntry) → suc j ≡ i → slice_get tops.now j ≡ Some y → HasTops all y.unit own) → HasTops all x.unit result }
{
    if continues_unit(tops, i) {
        return own;
    }
    range_from(tops, i, first)
}
