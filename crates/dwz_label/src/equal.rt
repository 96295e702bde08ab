//! For each top that may move the least one with an equal label.

ghost use Rattle.std.specs.Prelude.{◌≡◌, ℕ, ◌+◌, ◌-◌, ◌<◌, ◌≤◌, ◌^◌, All, length, IfOk, slice_index};
ghost use Rattle.dwz_label.specs.Shown.{AreFirstEquals};
ghost use Rattle.dwz_label.specs.Keyed.{AreOneKey, AreLeastPut, IsNewKey};
ghost use Rattle.dwz_label.specs.Slots.{AreSlotted};

use crate::labels::Labels;
use crate::slots::Slots;
use dwz_model::NoMemory;
use std::alloc::Global;

/// A number under a key. It is ordered by the key, and then by itself.
#[derive(Clone, Copy, PartialEq, Eq, PartialOrd, Ord)]
pub(crate) struct Keyed<K> {
    pub(crate) key: K,
    pub(crate) number: u32,
}

// Whether a row's key is another one than that of the row before it.
fn is_new<K: Ord>(rows: &[Keyed<K>], at: usize) -> bool
    requires { at < length rows.now }
    ensures { IsNewKey K.cmp rows.now result at }
{
    at == 0 || rows[at - 1].key.cmp(&rows[at].key).is_ne()
}

// The same numbers, but at the number of each row the least under its key.
fn with_least<K: Ord + Copy>(mut rows: Vec<Keyed<K>>, mut firsts: Vec<u32>) -> Vec<u32>
    requires inside { All (λ r. r.number < length firsts.items) rows.items }
    requires one { AreOneKey K.cmp rows.items }
    ensures { AreLeastPut K.cmp rows.items firsts.items result.items }
{
    rows.sort_unstable();
    let mut first = 0;
    for at in 0..rows.len() {
        let number = rows[at].number;
        if is_new(rows.as_slice(), at) {
            first = number;
        }
        firsts[number as usize] = first;
    }
    firsts
}

// The numbers from 0 on.
fn numbers(alloc: Global, count: usize) -> Result<Vec<u32>, NoMemory>
    requires { count < 2 ^ 32 }
    ensures len { IfOk result (λ numbers. length numbers.items ≡ count) }
    ensures each { IfOk result (λ numbers. (n : ℕ) → n < count → slice_index numbers.items n ≡ n) }
{
    let mut numbers = Vec::with_capacity(alloc, count)?;
    for n in 0..count {
        numbers.push(n as u32)?;
    }
    Ok(numbers)
}

// How many may move.
fn count_free(movable: &[bool]) -> usize
    ensures { result ≤ length movable.now }
{
    movable.iter().filter(|free| **free).count()
}

// The labels of those that may move in slots, one after the other.
fn put_all<'l>(alloc: Global, labels: &'l Labels, movable: &[bool]) -> Result<Slots<'l>, NoMemory>
    requires many { length movable.now ≡ length labels.now }
    requires few { length labels.now < 2 ^ 32 }
    ensures len { IfOk result (λ slots. length slots.firsts.items ≡ length labels.now) }
    ensures put { IfOk result (λ slots. AreSlotted labels.now movable.now (length labels.now) slots) }
{
    let own = numbers(alloc, labels.len())?;
    let mut slots = Slots::new(alloc, own, count_free(movable))?;
    for (n, free) in movable.iter().enumerate() {
        if *free {
            slots.put(labels, n)?;
        }
    }
    Ok(slots)
}

/// For each top that may move the least one that may and has an equal label, and for each other one its own number.
///
/// A label is looked for in a few slots, from the one that its hash gives on. Those in whose slots other labels stand are put in order: so
/// however many labels have one hash, it takes n log n comparisons.
pub fn firsts(alloc: Global, labels: &Labels, movable: &[bool]) -> Result<Vec<u32>, NoMemory>
    requires many { length movable.now ≡ length labels.now }
    requires few { length labels.now < 2 ^ 32 }
    ensures { IfOk result (λ firsts. AreFirstEquals labels.now movable.now firsts.items) }
{
    let Slots { firsts, rest, .. } = put_all(alloc, labels, movable)?;
    Ok(with_least(rest, firsts))
}
