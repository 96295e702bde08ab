//! Numbers of values: how many bytes they take, and their bytes.

ghost use Rattle.std.specs.Prelude.{◌≡◌, ◌≤◌, ◌<◌, ◌*◌, ◌^◌, ◌++◌, true, OnErr, OnOk};
ghost use Rattle.dwz_bytes.specs.Spelling.{fits_i64, group_count, le_bytes, reach};
ghost use Rattle.dwz_forms.specs.Numbers.{IsUnsigned};

use dwz_model::NoMemory;

// A number without a sign.
#[inline(always)]
pub(crate) fn to_unsigned(number: i128) -> u64
    requires { IsUnsigned number }
    ensures { result ≡ reach number }
{
    number as u64
}

// A number with a sign.
#[inline(always)]
pub(crate) fn to_signed(number: i128) -> i64
    requires { fits_i64 number ≡ true }
    ensures { result ≡ number }
{
    number as i64
}

// How many groups of seven bits a number needs.
fn group_count_of(value: u128) -> u64
    requires { value < 128 ^ 10 }
    ensures count { result ≡ group_count value }
    ensures few { result ≤ 10 }
{
    let mut count = 1;
    let mut rest = value;
    while rest >= 128 {
        rest /= 128;
        count += 1;
    }
    count
}

// How many bytes the shortest spelling of an unsigned LEB128 number has.
#[inline(always)]
pub(crate) fn uleb_len(value: u64) -> u64
    ensures count { result ≡ group_count value }
    ensures few { result ≤ 10 }
{
    if value < 128 {
        return 1;
    }
    group_count_of(value as u128)
}

// How many bytes the shortest spelling of a signed LEB128 number has.
pub(crate) fn sleb_len(value: i64) -> u64
    ensures count { result ≡ group_count (2 * reach value) }
{
    let reach = if value < 0 {
        (-(value + 1)) as u64
    } else {
        value as u64
    };
    group_count_of(2 * reach as u128)
}

// Appends the lowest bytes of a number, the lowest first. After an error `out` is as before.
#[inline(always)]
#[tactic(auto, using(crate::proofs::NumberLemmas::low_bytes))]
pub(crate) fn put_fixed(out: &mut Vec<u8>, width: usize, value: u64) -> Result<(), NoMemory>
    requires { width ≤ 8 }
    ensures ok { OnOk result (out.new.items ≡ out.old.items ++ le_bytes width value) }
    ensures err { OnErr result (out.new.items ≡ out.old.items) }
{
    let bytes = value.to_le_bytes();
    out.extend_from_slice(&bytes[..width])
}
