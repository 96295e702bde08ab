//! LEB128 numbers at the front of bytes.

ghost use Rattle.std.specs.Prelude.{◌≡◌, ◌≤◌, ℕ, IfSome};
ghost use Rattle.dwz_bytes.specs.Groups.{AreFirst, Finds, FindsGroups};
ghost use Rattle.dwz_bytes.specs.Reading.{groups_at, sleb_at, uleb_at};

use crate::error::ByteErr;

// The groups of a number: their value, the weight of one group more, how many there are, and the last byte.
#[derive(Clone, Copy)]
struct Groups {
    value: u128,
    scale: u128,
    len: usize,
    last: u8,
}

// The groups at the front of bytes, where they are one or two, and two bytes are there: so it is with most numbers.
#[inline(always)]
fn few_groups(bytes: &[u8]) -> Option<Groups>
    ensures { (start : ℕ) → IfSome result (λ g. AreFirst bytes.now g (groups_at start 10 bytes.now)) }
{
    if bytes.len() < 2 {
        return None;
    }
    let first = bytes[0];
    let second = bytes[1];
    if first < 128 {
        return Some(Groups {
            value: first as u128,
            scale: 128,
            len: 1,
            last: first,
        });
    }
    if second < 128 {
        return Some(Groups {
            value: (first % 128) as u128 + 128 * second as u128,
            scale: 16384,
            len: 2,
            last: second,
        });
    }
    None
}

// The groups at the front of bytes that begin at `start`.
fn groups_of(start: usize, bytes: &[u8]) -> Result<Groups, ByteErr>
    ensures { FindsGroups bytes.now result (groups_at start 10 bytes.now) }
{
    if let Some(groups) = few_groups(bytes) {
        return Ok(groups);
    }
    let mut value: u128 = 0;
    let mut scale: u128 = 1;
    for i in 0..10 {
        if i == bytes.len() {
            return Err(ByteErr::Short { at: start });
        }
        let last = bytes[i];
        value += (last % 128) as u128 * scale;
        scale *= 128;
        if last < 128 {
            let len = i + 1;
            return Ok(Groups {
                value,
                scale,
                len,
                last,
            });
        }
    }
    Err(ByteErr::Wide { at: start })
}

/// The unsigned number at the front of bytes that begin at `start`, and how many bytes it takes.
#[inline(never)]
pub(crate) fn unsigned_of(start: usize, bytes: &[u8]) -> Result<(u64, usize), ByteErr>
    ensures { Finds (record { at = start; rest = bytes.now }) result (uleb_at (record { at = start; rest = bytes.now })) }
{
    let groups = groups_of(start, bytes)?;
    if groups.value > u64::MAX as u128 {
        return Err(ByteErr::Wide { at: start });
    }
    Ok((groups.value as u64, groups.len))
}

/// The signed number at the front of bytes that begin at `start`, and how many bytes it takes.
pub(crate) fn signed_of(start: usize, bytes: &[u8]) -> Result<(i64, usize), ByteErr>
    ensures { Finds (record { at = start; rest = bytes.now }) result (sleb_at (record { at = start; rest = bytes.now })) }
{
    let groups = groups_of(start, bytes)?;
    // A negative number is counted from -1 down, as the groups are from the weight of one more.
    let negative = groups.last >= 64;
    let reach = if negative {
        groups.scale - groups.value - 1
    } else {
        groups.value
    };
    if reach > i64::MAX as u128 {
        return Err(ByteErr::Wide { at: start });
    }
    let reach = reach as i64;
    let value = if negative { -1 - reach } else { reach };
    Ok((value, groups.len))
}
