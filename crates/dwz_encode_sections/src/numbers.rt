//! Numbers that are written over bytes.

ghost use Rattle.std.specs.Prelude.{◌≡◌, ◌+◌, ◌≤◌, ◌%◌, cond, vec_len};
ghost use Rattle.dwz_def_reading.specs.Spelling.{le_bytes, padded};
ghost use Rattle.dwz_def_reading.specs.Patching.{number_in_width, written_at};

/// Writes so many low bytes of a number at a place, the lowest first.
pub(crate) fn put_bytes(out: &mut Vec<u8>, at: usize, width: u8, number: u64)
    requires { at + width ≤ vec_len out.old }
    ensures { out.new.items ≡ written_at at (le_bytes width number) out.old.items }
{
    let mut rest = number;
    let mut place = at;
    let mut left = width;
    while left > 0 {
        out[place] = (rest % 256) as u8;
        rest /= 256;
        place += 1;
        left -= 1;
    }
}

// The low seven bits of a number: the last byte of it, or one before others.
#[inline(always)]
fn group(number: u64, last: bool) -> u8
    ensures { result ≡ cond last (number % 128) (number % 128 + 128) }
{
    let low = (number % 128) as u8;
    if last { low } else { low + 128 }
}

// Writes a number as ULEB128 of so many bytes at a place.
fn put_groups(out: &mut Vec<u8>, at: usize, width: u8, number: u64)
    requires { at + width ≤ vec_len out.old }
    ensures { out.new.items ≡ written_at at (padded width number) out.old.items }
{
    let mut rest = number;
    let mut place = at;
    let mut left = width;
    while left > 0 {
        out[place] = group(rest, left == 1);
        rest /= 128;
        place += 1;
        left -= 1;
    }
}

/// Writes a number in so many bytes at a place: padded ULEB128, or of a fixed width.
#[inline(always)]
pub(crate) fn put_number(out: &mut Vec<u8>, at: usize, uleb: bool, width: u8, number: u64)
    requires { at + width ≤ vec_len out.old }
    ensures { out.new.items ≡ written_at at (number_in_width uleb width number) out.old.items }
{
    if uleb {
        put_groups(out, at, width, number)
    } else {
        put_bytes(out, at, width, number)
    }
}
