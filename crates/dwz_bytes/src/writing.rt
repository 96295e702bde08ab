//! Numbers that are written.

ghost use Rattle.std.specs.Prelude.{◌≡◌, ◌≤◌, ◌<◌, ◌^◌, ◌++◌, ◌↔◌, IsTrue, length, OnOk, OnErr};
ghost use Rattle.std.specs.Bool.{OnTrue, OnFalse};
ghost use Rattle.dwz_bytes.specs.Spelling.{group_count, le_bytes, padded, reach, sleb, uleb, wrapped};

use std::alloc::AllocError;

/// Appends the lowest `width` bytes of a number, the lowest first (DWARF 5, 7.5.5). After an error `out` is as before.
#[inline(always)]
#[tactic(auto, using(crate::proofs::LowBytes::low_bytes))]
pub fn put_fixed(out: &mut Vec<u8>, width: usize, value: u64) -> Result<(), AllocError>
    requires { width ≤ 8 }
    ensures ok { OnOk result (out.new.items ≡ out.old.items ++ le_bytes width value) }
    ensures err { OnErr result (out.new.items ≡ out.old.items) }
{
    let bytes = value.to_le_bytes();
    out.extend_from_slice(&bytes[..width])
}

// How many groups of seven bits a number needs.
fn group_count_of(value: u128) -> usize
    requires { value < 128 ^ 10 }
    ensures count { result ≡ group_count value }
    ensures few { result ≤ 10 }
    ensures enough { value < 128 ^ result }
{
    let mut count = 1;
    let mut rest = value;
    while rest >= 128 {
        rest /= 128;
        count += 1;
    }
    count
}

// Fills the bytes with a number's groups.
fn fill(out: &mut [u8], value: u128)
    ensures { out.new ≡ padded (length out.old) value }
{
    let len = out.len();
    let mut rest = value;
    for i in 0..len {
        let more = if i + 1 < len { 128 } else { 0 };
        out[i] = (rest % 128) as u8 + more;
        rest /= 128;
    }
}

// The weight of one group more than these.
fn weight_of(count: usize) -> u128
    requires { count ≤ 10 }
    ensures { result ≡ 128 ^ count }
{
    128u128.pow(count as u32)
}

// How far a number is from 0, or a negative one from -1.
fn reach_of(value: i64) -> u64
    ensures { result ≡ reach value }
{
    if value < 0 {
        (-(value + 1)) as u64
    } else {
        value as u64
    }
}

// Appends a number's groups.
fn put_groups(out: &mut Vec<u8>, count: usize, value: u128) -> Result<(), AllocError>
    requires { count ≤ 10 }
    ensures ok { OnOk result (out.new.items ≡ out.old.items ++ padded count value) }
    ensures err { OnErr result (out.new.items ≡ out.old.items) }
{
    let mut bytes = [0; 10];
    fill(&mut bytes[..count], value);
    out.extend_from_slice(&bytes[..count])
}

/// Appends the shortest spelling of an unsigned number (DWARF 5, 7.6). After an error `out` is as before.
#[inline(always)]
pub fn put_uleb(out: &mut Vec<u8>, value: u64) -> Result<(), AllocError>
    ensures ok { OnOk result (out.new.items ≡ out.old.items ++ uleb value) }
    ensures err { OnErr result (out.new.items ≡ out.old.items) }
{
    if value < 128 {
        out.push(value as u8)?;
        return Ok(());
    }
    put_groups(out, group_count_of(value as u128), value as u128)
}

/// Appends the shortest spelling of a signed number (DWARF 5, 7.6). After an error `out` is as before.
pub fn put_sleb(out: &mut Vec<u8>, value: i64) -> Result<(), AllocError>
    ensures ok { OnOk result (out.new.items ≡ out.old.items ++ sleb value) }
    ensures err { OnErr result (out.new.items ≡ out.old.items) }
{
    let reach = reach_of(value);
    let count = group_count_of(2 * reach as u128);
    let value = if value < 0 {
        weight_of(count) - (reach as u128 + 1)
    } else {
        reach as u128
    };
    put_groups(out, count, value)
}

/// Fills `out` with an unsigned number, spelled in as many bytes as `out` has, 1 to 10. Answers false exactly where the
/// number needs more bytes, and then `out` is as before.
pub fn put_padded(out: &mut [u8], value: u64) -> bool
    requires some { 0 < length out.old }
    requires few { length out.old ≤ 10 }
    ensures fits { IsTrue result ↔ (value < 128 ^ length out.old) }
    ensures ok { OnTrue result (out.new ≡ padded (length out.old) value) }
    ensures no { OnFalse result (out.new ≡ out.old) }
{
    if value as u128 >= weight_of(out.len()) {
        return false;
    }
    fill(out, value as u128);
    true
}
