//! Numbers of entries, kept for when the same entries are named again.

use dwz_model::NoMemory;
use std::alloc::Global;

// How many are kept.
const HINTS: usize = 1 << 16;

/// Numbers of entries that were found, each kept by the place where its entry begins. No clause speaks of them: whether an entry begins at
/// a place is seen of the entry.
#[derive(Drop)]
pub(crate) struct Hints {
    numbers: Vec<u32>,
}

// Where the number of the entry at a place is kept.
#[inline(always)]
fn slot_of(place: u128) -> usize {
    (place % HINTS as u128) as usize
}

impl Hints {
    /// None that helps is kept yet.
    pub(crate) fn new(alloc: Global) -> Result<Hints, NoMemory> {
        Ok(Hints {
            numbers: vec![in alloc; 0; HINTS]?,
        })
    }

    /// The number that is kept for a place.
    #[inline(always)]
    pub(crate) fn get(&self, place: u128) -> u32 {
        match self.numbers.get(slot_of(place)) {
            Some(number) => *number,
            None => 0,
        }
    }

    /// Keeps a number for a place.
    #[inline(always)]
    pub(crate) fn keep(&mut self, place: u128, number: u32) {
        if let Some(slot) = self.numbers.get_mut(slot_of(place)) {
            *slot = number;
        }
    }
}
