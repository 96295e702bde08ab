//! Labels in slots: each is looked for in a few of them, from the one that its hash gives on.

ghost use Rattle.std.specs.Prelude.{◌≡◌, ℕ, ◌+◌, ◌<◌, ◌≤◌, ◌^◌, [], List, Bool, true, false, length, slice_index, slice_index_or, IfOk, OnOk};
ghost use Rattle.dwz_label.specs.Slots.{AreSlotted, IsFound, home_of};

use crate::equal::Keyed;
use crate::labels::Labels;
use dwz_model::NoMemory;
use std::alloc::Global;
use std::hash::{FoldHasher, Hasher};

// In how many slots a label is looked for.
const STEPS: usize = 16;

// What an empty slot holds: no number of a label, since there are fewer than 2^32.
const EMPTY: u32 = u32::MAX;

// The slot from which on a label is looked for, where there are so many to begin at.
#[inline(always)]
fn home(label: &[u8], size: usize) -> usize
    requires { 0 < size }
    ensures value { result ≡ home_of size label.now }
    ensures below { result < size }
{
    let mut hasher = FoldHasher::default();
    hasher.write(label);
    (hasher.finish() % size as u64) as usize
}

// Of the slots from `start` on the first that is empty or holds a label.
#[inline(always)]
fn find_slot(labels: &Labels, slots: &[u32], label: &[u8], start: usize) -> Option<usize>
    requires { start + 16 ≤ length slots.now }
    ensures { IsFound labels.now slots.now label.now start result }
{
    for step in 0..STEPS {
        let at = start + step;
        let first = slots[at] as usize;
        if first >= labels.len() || label == labels.get(first) {
            return Some(at);
        }
    }
    None
}

/// Labels that are put into slots, one after the other.
#[derive(Drop)]
pub(crate) struct Slots<'l> {
    // How many slots there are to begin at. Behind these are as many as a label may be moved by.
    size: usize,
    // Of each label that stands there the least number.
    slots: Vec<u32>,
    /// Of each label that was found in a slot the least number, and of each other one its own.
    pub(crate) firsts: Vec<u32>,
    /// Those in whose slots other labels stand.
    pub(crate) rest: Vec<Keyed<&'l [u8]>>,
}

impl<'l> Slots<'l> {
    /// No labels, in twice as many slots as there are labels to come. The numbers are from 0 on.
    pub(crate) fn new(alloc: Global, firsts: Vec<u32>, count: usize) -> Result<Slots<'l>, NoMemory>
        requires { count < 2 ^ 32 }
        ensures size { IfOk result (λ s. 0 < s.size) }
        ensures len { IfOk result (λ s. length s.slots.items ≡ s.size + 16) }
        ensures each { IfOk result (λ s. (n : ℕ) → n < length s.slots.items → slice_index s.slots.items n ≡ EMPTY) }
        ensures firsts { IfOk result (λ s. s.firsts.items ≡ firsts.items) }
        ensures rest { IfOk result (λ s. s.rest.items ≡ []) }
    {
        let size = 2 * count + 1;
        Ok(Slots {
            size,
            slots: vec![in alloc; EMPTY; size + STEPS]?,
            firsts,
            rest: Vec::new(alloc),
        })
    }

    /// The label with the next number is put into a slot, or found in one, or is left for the rest.
    #[inline(always)]
    pub(crate) fn put(&mut self, labels: &'l Labels, n: usize) -> Result<(), NoMemory>
        requires inside { n < length labels.now }
        requires few { length labels.now < 2 ^ 32 }
        requires size { (0 < self.old.size) × (length self.old.slots.items ≡ self.old.size + 16) }
        requires len { length self.old.firsts.items ≡ length labels.now }
        ensures size { OnOk result (self.new.size ≡ self.old.size) }
        ensures slots { OnOk result (length self.new.slots.items ≡ length self.old.slots.items) }
        ensures firsts { OnOk result (length self.new.firsts.items ≡ length self.old.firsts.items) }
        ensures put { (movable : List Bool) → OnOk result (AreSlotted labels.now movable n self.old → slice_index_or movable n false ≡ true
            → AreSlotted labels.now movable (n + 1) self.new) }
    {
        let label = labels.get(n);
        match find_slot(labels, self.slots.as_slice(), label, home(label, self.size)) {
            Some(at) => {
                let first = self.slots[at];
                if (first as usize) < labels.len() {
                    self.firsts[n] = first;
                } else {
                    self.slots[at] = n as u32;
                }
            }
            None => {
                self.rest.push(Keyed {
                    key: label,
                    number: n as u32,
                })?;
            }
        }
        Ok(())
    }
}
