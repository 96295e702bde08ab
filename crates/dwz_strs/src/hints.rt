//! Hints where a number stands in a row.

ghost use Rattle.std.specs.Prelude.{◌≡◌, ◌+◌, ◌*◌, ◌-◌, ◌^◌, ◌<◌, ◌≤◌, All, IfOk, bit_and, length, slice_index};

use dwz_model::{NoMemory, at_or};
use std::alloc::Global;

// The least number of hints, and where doubling ends.
const LEAST: usize = 16;

const MOST: usize = 1 << 32;

// How many hints there are for a row of so many numbers: a power of two, twice as many as numbers or up to four times, where there
// is room for so many.
fn room_for(count: usize) -> usize
    ensures low { 16 ≤ result }
    ensures high { result ≤ 2 ^ 33 }
    ensures enough { result < 2 ^ 32 → 2 * count ≤ result + 1 }
{
    let mut room = LEAST;
    'doubling: while room / 2 < count && room < MOST {
        room *= 2;
    }
    room
}

// By which low bits a number finds its hint, among so many hints.
#[inline(always)]
fn slot_of(number: u32, hints: usize) -> usize
    ensures { result ≡ bit_and number (hints - 1) }
{
    number as usize & hints.saturating_sub(1)
}

/// Where a number may stand in a row, by its low bits. Whether it stands there has to be seen there.
#[derive(Drop)]
pub(crate) struct Hints {
    pub(crate) places: Vec<u32>,
}

impl Hints {
    /// The hints of a row. Of numbers with the same low bits the last has the hint.
    pub(crate) fn new(alloc: Global, numbers: &[u32]) -> Result<Hints, NoMemory>
        ensures { IfOk result (λ hints. All (λ place. place ≤ length numbers.now) hints.places.items) }
    {
        let room = room_for(numbers.len());
        let mut places = vec![in alloc; 0u32; room]?;
        for (place, number) in numbers.iter().enumerate() {
            let slot = slot_of(*number, room);
            places[slot] = (place & 0xffff_ffff) as u32;
        }
        Ok(Hints { places })
    }

    /// Where the number may stand.
    #[inline(always)]
    pub(crate) fn place(&self, number: u32) -> usize
        ensures { let places = self.now.places.items in result ≡ slice_index places (bit_and number (length places - 1)) }
    {
        at_or(
            self.places.as_slice(),
            slot_of(number, self.places.len()),
            0,
        ) as usize
    }
}
