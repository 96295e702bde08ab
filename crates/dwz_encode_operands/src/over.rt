//! Numbers that need more bytes than there are, and the first place of such ones.

ghost use Rattle.std.specs.Prelude.{◌≡◌, ◌^◌, ◌<◌, ◌≤◌, Some, nat_le};
ghost use Rattle.dwz_encode_operands.specs.First;

// How many numbers a group of a ULEB128 number has, and a byte.
const GROUP: u128 = 128;

const BYTE: u128 = 256;

// Whether a number is no less than a power of the radix.
fn reaches(number: u64, radix: u128, count: u8) -> bool
    requires some { 0 < radix }
    requires small { radix ≤ 256 }
    ensures { result ≡ nat_le (radix ^ count) number }
{
    let mut power = 1;
    for _k in 0..count {
        if power > number as u128 {
            return false;
        }
        power *= radix;
    }
    power <= number as u128
}

// Whether a number needs more than so many bytes.
#[inline(always)]
fn is_over(uleb: bool, width: u8, number: u64) -> bool
    ensures { result ≡ First.is_over uleb width number }
{
    if uleb {
        reaches(number, GROUP, width)
    } else {
        reaches(number, BYTE, width)
    }
}

// The first of two places, or the one if there is no other.
#[inline(always)]
fn first_of_two(first: Option<u64>, at: u64) -> Option<u64>
    ensures { result ≡ First.first_of_two first (Some at) }
{
    match first {
        None => Some(at),
        Some(other) => Some(other.min(at)),
    }
}

/// The first place, with that of an operand among the places if its number needs more than `width` bytes.
#[inline(always)]
pub(crate) fn note(first: Option<u64>, at: u64, uleb: bool, width: u8, number: u64) -> Option<u64>
    ensures { result ≡ First.first_of_two first (First.place_if (First.is_over uleb width number) at) }
{
    if is_over(uleb, width, number) {
        first_of_two(first, at)
    } else {
        first
    }
}
