//! Sets whose units stand elsewhere.

ghost use Rattle.std.specs.Prelude.{◌≡◌, ◌+◌, ◌≤◌, IsOkAnd, IfOk, length, vec_len};
ghost use Rattle.dwz_bytes.specs.Input.{input};
ghost use Rattle.dwz_bytes.specs.Spelling.{le_bytes};
ghost use Rattle.dwz_def_reading.specs.Patching.{written_at};
ghost use Rattle.dwz_def_reading.specs.Ranges.{sets_at};
ghost use Rattle.dwz_aranges.specs.Patching.{IsPatched};
ghost use Rattle.dwz_aranges.specs.Views.{any_unit};

use crate::sets::set_there;
use dwz_model::{NoMemory, Numbers};
use std::alloc::Global;

// How many bytes of a set stand before the offset of its unit: its length and its version.
const UNIT: usize = 6;

// Writes a number of four bytes at a place.
fn put(out: &mut Vec<u8>, at: usize, number: u32)
    requires { at + 4 ≤ vec_len out.old }
    ensures { out.new.items ≡ written_at at (le_bytes 4 number) out.old.items }
{
    let [first, second, third, fourth] = number.to_le_bytes();
    out[at] = first;
    out[at + 1] = second;
    out[at + 2] = third;
    out[at + 3] = fourth;
}

/// The section with other unit offsets: the i-th number stands in the i-th set in place of its unit's offset, as four bytes,
/// the lowest first, and all other bytes are as they were. The section reads, and there are as many numbers as sets.
pub fn patched(alloc: Global, section: &[u8], places: &Numbers) -> Result<Vec<u8>, NoMemory>
    requires { IsOkAnd (sets_at any_unit (input section.now 0)) (λ sets. length sets ≡ length places.now) }
    ensures { IfOk result (λ out. IsPatched section.now places.now out.items) }
{
    let mut out = section.to_vec(alloc)?;
    let mut at = 0;
    for place in places.as_slice() {
        if let Some((_, behind)) = set_there(section, at) {
            put(&mut out, at + UNIT, *place);
            at = behind;
        }
    }
    Ok(out)
}
