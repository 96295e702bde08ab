//! Where the slots of string offsets tables are (DWARF 5, 7.26).

ghost use Rattle.std.specs.Prelude.{◌≡◌, ◌+◌, ◌*◌, ◌^◌, ◌<◌, ◌≤◌, ◌++◌, IfOk, IsTrue, OnOk, drop, length, take};
ghost use Rattle.dwz_def_reading.specs.OffsetTables.{count_at, is_contribution, places_from, size_at, slots_in};
ghost use Rattle.dwz_bytes.specs.Spelling.{le_value};

use dwz_model::{NoMemory, Numbers};
use std::alloc::Global;

// The version of a string offsets table.
const VERSION: u16 = 5;

// How many bytes stand before the slots of a contribution, and how many a slot has.
const HEADER: u32 = 8;

const SLOT: u32 = 4;

// How many bytes a contribution says that follow its length.
fn size_at(rest: &[u8]) -> u32
    requires { 8 ≤ length rest.now }
    ensures { result ≡ size_at rest.now }
{
    u32::from_le_bytes([rest[0], rest[1], rest[2], rest[3]])
}

fn version_at(rest: &[u8]) -> u16
    requires { 8 ≤ length rest.now }
    ensures { result ≡ le_value (take 2 (drop 4 rest.now)) }
{
    u16::from_le_bytes([rest[4], rest[5]])
}

// Whether a contribution stands at the front.
#[tactic(auto, unfolding(dwz_def_reading::specs::OffsetTables::is_contribution))]
fn is_contribution(rest: &[u8]) -> bool
    ensures { result ≡ is_contribution rest.now }
{
    if rest.len() < HEADER as usize {
        return false;
    }
    let size = size_at(rest);
    version_at(rest) == VERSION
        && size >= SLOT
        && size % SLOT == 0
        && 4 + size as usize <= rest.len()
}

// How many slots it has then.
#[tactic(auto, unfolding(dwz_def_reading::specs::OffsetTables::count_at))]
fn count_at(rest: &[u8]) -> u32
    requires { IsTrue (is_contribution rest.now) }
    ensures { result ≡ count_at rest.now }
{
    (size_at(rest) - SLOT) / SLOT
}

// Appends so many places, from one on.
fn put_places(places: &mut Vec<u32>, from: u32, count: u32) -> Result<(), NoMemory>
    requires { from + 4 * count < 2 ^ 32 }
    ensures { OnOk result (places.new.items ≡ places.old.items ++ places_from from count) }
{
    for i in 0..count {
        places.push(from + SLOT * i)?;
    }
    Ok(())
}

/// The places of all slots of `.debug_str_offsets`, in bytes from the section's first. None exactly where the section isn't a row of
/// contributions without gaps, each of its length, version 5, two bytes of padding and slots of four bytes up to that length. A
/// section without bytes is such a row, and has no slots.
pub fn slots(alloc: Global, section: &[u8]) -> Result<Option<Numbers>, NoMemory>
    requires { length section.now < 2 ^ 32 }
    ensures { IfOk result (λ slots. slots ≡ slots_in section.now) }
{
    let mut places = Vec::new(alloc);
    let mut at = 0;
    while at < section.len() {
        let rest = &section[at..];
        if !is_contribution(rest) {
            return Ok(None);
        }
        let count = count_at(rest);
        let from = at as u32 + HEADER;
        put_places(&mut places, from, count)?;
        at = (from + SLOT * count) as usize;
    }
    Ok(Some(Numbers::new(places)))
}
