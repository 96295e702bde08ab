//! Sets of address ranges whose units stand elsewhere (DWARF 5, 6.1.2).

ghost use Rattle.std.specs.Prelude.{◌≡◌, IfOk, IsOk, Ok, length, map};
ghost use Rattle.std.specs.List.Sorted.{IsStrictlyIncreasing};
ghost use Rattle.dwz_def_reading.specs.Input.{input};
ghost use Rattle.dwz_def_reading.specs.Ranges.{sets_at};
ghost use Rattle.dwz_aranges.specs.Views.{any_unit, set_views};
ghost use Rattle.dwz_encode_sections.specs.Ranges.{AreMoved, beside};

use dwz_aranges::{Set, Sets, patched, read};
use dwz_model::{NoMemory, Numbers, ReadErr};
use std::alloc::{AllocError, Global};

// The place of the unit that began at an offset.
fn place_of(starts: &[u32], places: &[u32], unit: u32) -> u32
    requires rises { IsStrictlyIncreasing starts.now }
    requires as_many { length places.now ≡ length starts.now }
    ensures { result ≡ beside starts.now places.now unit }
{
    match starts.binary_search(&unit) {
        Ok(i) => places[i],
        Err(_) => 0,
    }
}

// The places of the units of sets.
fn places_of(
    alloc: Global,
    sets: &[Set],
    starts: &[u32],
    places: &[u32],
) -> Result<Vec<u32>, NoMemory>
    requires rises { IsStrictlyIncreasing starts.now }
    requires as_many { length places.now ≡ length starts.now }
    ensures { IfOk result (λ numbers. numbers.items ≡ map (λ s. beside starts.now places.now s.unit) sets.now) }
{
    let mut numbers = Vec::new(alloc);
    for set in sets {
        numbers.push(place_of(starts, places, set.unit))?;
    }
    Ok(numbers)
}

// The sets of a section that has no bad one.
fn sets_in(alloc: Global, section: &[u8]) -> Result<Sets, NoMemory>
    requires { IsOk (sets_at any_unit (input section.now 0)) }
    ensures { IfOk result (λ sets. sets_at any_unit (input section.now 0) ≡ Ok (set_views sets)) }
{
    match read(alloc, section) {
        Ok(sets) => Ok(sets),
        Err(ReadErr::NoMemory) => Err(AllocError),
        Err(ReadErr::Refused(_)) => unreachable!(),
    }
}

/// `.debug_aranges` of a file whose units stand elsewhere: each set has in place of its unit's offset the new one, and all other bytes
/// are as they were. `starts` says where the units began, in ascending order, and `places` where each begins now. The section reads.
pub fn ranges(
    alloc: Global,
    section: &[u8],
    starts: &[u32],
    places: &[u32],
) -> Result<Vec<u8>, NoMemory>
    requires reads { IsOk (sets_at any_unit (input section.now 0)) }
    requires rises { IsStrictlyIncreasing starts.now }
    requires as_many { length places.now ≡ length starts.now }
    ensures { IfOk result (λ out. AreMoved starts.now places.now section.now out.items) }
{
    let sets = sets_in(alloc, section)?;
    let numbers = places_of(alloc, sets.as_slice(), starts, places)?;
    patched(alloc, section, &Numbers::new(numbers))
}
