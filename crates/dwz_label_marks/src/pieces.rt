//! Marks, appended to bytes.
//!
//! After an error nothing is said of the bytes.

ghost use Rattle.std.specs.Prelude.{◌≡◌, ◌+◌, ◌*◌, ◌<◌, ◌^◌, ◌++◌, OnOk};
ghost use Rattle.dwz_label.specs.Labels.{number};

use dwz_model::NoMemory;

// The groups of seven bits of a number that needs more than two (DWARF 5, 7.6).
#[inline(never)]
fn put_groups(out: &mut Vec<u8>, value: u64) -> Result<(), NoMemory>
    ensures { OnOk result (out.new.items ≡ out.old.items ++ number value) }
{
    let mut rest = value;
    while rest >= 128 {
        out.push((rest % 128) as u8 + 128)?;
        rest /= 128;
    }
    out.push(rest as u8)?;
    Ok(())
}

/// Appends a number.
#[inline(always)]
#[tactic(auto, using(dwz_label::proofs::NumberLemmas::number_last, crate::proofs::PieceLemmas::number_two))]
pub fn put_number(out: &mut Vec<u8>, value: u64) -> Result<(), NoMemory>
    ensures { OnOk result (out.new.items ≡ out.old.items ++ number value) }
{
    if value < 128 {
        out.push(value as u8)?;
        return Ok(());
    }
    if value < 128 * 128 {
        out.extend_from_slice(&[(value % 128) as u8 + 128, (value / 128) as u8])?;
        return Ok(());
    }
    put_groups(out, value)
}

/// Appends the mark of a number.
#[inline(always)]
pub fn put_plainly(out: &mut Vec<u8>, value: u64) -> Result<(), NoMemory>
    requires { value < 2 ^ 63 }
    ensures { OnOk result (out.new.items ≡ out.old.items ++ number (2 * value)) }
{
    put_number(out, 2 * value)
}

/// Appends the mark of bytes whose name has that number.
#[inline(always)]
pub fn put_named(out: &mut Vec<u8>, name: u32) -> Result<(), NoMemory>
    ensures { OnOk result (out.new.items ≡ out.old.items ++ number (2 * name + 1)) }
{
    put_number(out, 2 * name as u64 + 1)
}
