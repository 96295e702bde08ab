//! Texts and slots in the sections that hold strings (DWARF 5, 7.5.5 and 7.26), and such a section without what isn't used.
//!
//! `text_at` is the text at an offset, `slot` the number in a slot; None exactly where none stands there. `slots` lists the places of all
//! slots of `.debug_str_offsets`. `prune` takes out of a section of texts all bytes that no use needs: `Pruned::bytes` is what stays, and
//! each use has its new number. Uses are sorted, and each byte of the section is looked at once.
//!
//! Read first: `specs/Pruned.antt`, and `Texts.antt`, `OffsetTables.antt` and `Pruning.antt` of `dwz_def_reading`.
#![tactic(auto)]

ghost use Rattle.std.specs.Prelude.{◌≡◌};
ghost use Rattle.std.specs.Option.{option_map};
ghost use Rattle.dwz_def_reading.specs.Texts;

mod hints;
mod offset_tables;
mod pruned;
mod pruning;

use dwz_bytes::Cursor;
use memchr::memchr;
pub use offset_tables::slots;
pub use pruned::Pruned;
pub use pruning::prune;

// The text at the front of bytes.
#[inline(always)]
fn front_text(bytes: &[u8]) -> Option<&[u8]>
    ensures { option_map (λ t. t.now) result ≡ Texts.text_in bytes.now }
{
    match memchr(0, bytes) {
        None => None,
        Some(end) => Some(&bytes[..end]),
    }
}

/// The text at an offset of a section: the bytes from there to before the first zero byte. None exactly where the offset
/// isn't in the section or no zero byte follows.
#[inline(always)]
pub fn text_at(section: &[u8], offset: u64) -> Option<&[u8]>
    ensures { option_map (λ t. t.now) result ≡ Texts.text_at section.now offset }
{
    if offset >= section.len() as u64 {
        return None;
    }
    front_text(&section[offset as usize..])
}

/// The slot of an index in a section: the number of four bytes at `base + 4 * index`, in bytes from the section's first.
/// None exactly where it isn't whole in the section.
#[inline(always)]
pub fn slot(section: &[u8], base: u64, index: u64) -> Option<u32>
    ensures { result ≡ Texts.slot section.now base index }
{
    let place = base as u128 + 4 * index as u128;
    if place + 4 > section.len() as u128 {
        return None;
    }
    Cursor::new(section, place as usize).u32().ok()
}
