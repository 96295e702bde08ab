//! `.debug_str` and `.debug_str_offsets` of a file of whose texts just those stay that are used (DWARF 5, 7.5.5 and 7.26).

ghost use Rattle.std.specs.Prelude.{◌≡◌, ◌+◌, ◌<◌, ◌≤◌, ◌^◌, ◌++◌, All, IfOk, IsSome, None, OnOk, Some, is_some, length, take, vec_len};
ghost use Rattle.dwz_def_reading.specs.Spelling.{le_bytes, le_value};
ghost use Rattle.dwz_def_reading.specs.OffsetTables.{slots_in};
ghost use Rattle.dwz_def_reading.specs.Texts;
ghost use Rattle.dwz_def_reading.specs.Patching.{written_at};
ghost use Rattle.dwz_def_encoding.specs.Pruned.{number_in_slot, slot_uses};
ghost use Rattle.dwz_encode_sections.specs.Slots.{moved_or_same};
ghost use Rattle.dwz_def_output.specs.Contents.{with_slots};
ghost use Rattle.dwz_encode_texts.specs.PrunedFiles.{IsPrunedFile};

use dwz_graph::TextSection;
use dwz_model::NoMemory;
use dwz_strs::{Pruned, prune, slots};
use std::alloc::Global;

// How many bytes a slot has.
const SLOT: u8 = 4;

/// The two sections of a file that hold texts and their slots, once just the texts stay that are used.
#[derive(Drop)]
pub struct PrunedFile {
    /// `.debug_str`, and the new number of each use.
    pub strs: Pruned,
    /// `.debug_str_offsets`.
    pub offsets: Vec<u8>,
}

// The number of four bytes at the front.
fn front_number(rest: &[u8]) -> u32
    requires { 4 ≤ length rest.now }
    ensures { result ≡ le_value (take 4 rest.now) }
{
    u32::from_le_bytes([rest[0], rest[1], rest[2], rest[3]])
}

// Whether a text stands at an offset.
#[inline(always)]
fn names_text(strs: &TextSection, number: u32) -> bool
    ensures { result ≡ is_some (Texts.text_at strs.now.bytes.now number) }
{
    strs.has(number as u128)
}

// Appends the numbers of slots that name a text.
fn put_slots(
    uses: &mut Vec<u32>,
    strs: &[u8],
    offsets: &[u8],
    places: &[u32],
) -> Result<(), NoMemory>
    requires { slots_in offsets.now ≡ Some places.now }
    ensures { OnOk result (uses.new.items ≡ uses.old.items ++ slot_uses strs.now offsets.now places.now) }
{
    let texts = TextSection::new(strs);
    for place in places {
        let number = front_number(&offsets[*place as usize..]);
        if names_text(&texts, number) {
            uses.push(number)?;
        }
    }
    Ok(())
}

// Writes a number of four bytes at a place.
fn put_four(out: &mut Vec<u8>, at: usize, number: u32)
    requires { at + 4 ≤ vec_len out.old }
    ensures { out.new.items ≡ written_at at (le_bytes 4 number) out.old.items }
{
    let mut rest = number;
    let mut place = at;
    let mut left = SLOT;
    while left > 0 {
        out[place] = (rest % 256) as u8;
        rest /= 256;
        place += 1;
        left -= 1;
    }
}

// The new number of a slot that has an old one.
#[inline(always)]
fn new_number(pruned: &Pruned, number: u32) -> u32
    ensures { result ≡ moved_or_same pruned.now number }
{
    pruned.moved(number).unwrap_or(number)
}

// `.debug_str_offsets`, where the numbers of slots that are uses have moved.
fn new_slots(
    alloc: Global,
    offsets: &[u8],
    places: &[u32],
    pruned: &Pruned,
) -> Result<Vec<u8>, NoMemory>
    requires { slots_in offsets.now ≡ Some places.now }
    ensures { IfOk result (λ out. out.items ≡ with_slots (λ place. moved_or_same pruned.now (number_in_slot offsets.now place)) places.now
        offsets.now) }
{
    let mut out = offsets.to_vec(alloc)?;
    for place in places {
        let at = *place as usize;
        let number = front_number(&offsets[at..]);
        put_four(&mut out, at, new_number(pruned, number));
    }
    Ok(out)
}

// Both sections of a file that has slots at these places.
fn prune_slots(
    alloc: Global,
    strs: &[u8],
    offsets: &[u8],
    places: &[u32],
    of_values: Vec<u32>,
) -> Result<PrunedFile, NoMemory>
    requires places { slots_in offsets.now ≡ Some places.now }
    requires texts { All (λ used. IsSome (Texts.text_at strs.now used)) of_values.items }
    ensures { IfOk result (IsPrunedFile strs.now offsets.now of_values.items) }
{
    let mut uses = of_values;
    put_slots(&mut uses, strs, offsets, places)?;
    let strs = prune(alloc, strs, uses.as_slice())?;
    let offsets = new_slots(alloc, offsets, places, &strs)?;
    Ok(PrunedFile { strs, offsets })
}

// Both sections of a file that has no known slots.
fn prune_texts(
    alloc: Global,
    strs: &[u8],
    offsets: &[u8],
    uses: &[u32],
) -> Result<PrunedFile, NoMemory>
    requires places { slots_in offsets.now ≡ None }
    requires texts { All (λ used. IsSome (Texts.text_at strs.now used)) uses.now }
    ensures { IfOk result (IsPrunedFile strs.now offsets.now uses.now) }
{
    Ok(PrunedFile {
        strs: prune(alloc, strs, uses)?,
        offsets: offsets.to_vec(alloc)?,
    })
}

/// Takes out of `.debug_str` of a file what isn't used, and gives the slots of `.debug_str_offsets` that name a text their new numbers. The
/// uses are those of values, each of which names a text, and the numbers of these slots. `offsets` has less than 2^32 bytes.
pub fn prune_file(
    alloc: Global,
    strs: &[u8],
    offsets: &[u8],
    of_values: Vec<u32>,
) -> Result<PrunedFile, NoMemory>
    requires few { length offsets.now < 2 ^ 32 }
    requires texts { All (λ used. IsSome (Texts.text_at strs.now used)) of_values.items }
    ensures { IfOk result (IsPrunedFile strs.now offsets.now of_values.items) }
{
    match slots(alloc, offsets)? {
        Some(places) => prune_slots(alloc, strs, offsets, places.as_slice(), of_values),
        None => prune_texts(alloc, strs, offsets, of_values.as_slice()),
    }
}
