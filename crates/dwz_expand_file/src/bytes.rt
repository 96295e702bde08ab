//! Bytes that are written one after the other.

ghost use Rattle.std.specs.Prelude.{◌≡◌, ◌+◌, ◌<◌, ◌≤◌, ◌^◌, ◌++◌, OnOk, IfOk, length, replicate};
ghost use Rattle.dwz_bytes.specs.Spelling.{le_bytes};
ghost use Rattle.dwz_def_reading.specs.ElfLayout;
ghost use Rattle.dwz_def_reading.specs.Values.{AreBytes};

use dwz_model::NoMemory;
use std::alloc::Global;

// Where the fields of the file header are that change.
const E_SHOFF: usize = 40;

const E_SHNUM: usize = 60;

/// Looks at bytes. So it is known of them that they are, and not too many.
pub(crate) fn look_at(bytes: &[u8])
    ensures bytes { AreBytes bytes.now }
    ensures few { length bytes.now < 2 ^ 64 }
{
    let _length = bytes.len();
}

// Appends a number in so many bytes.
fn put_number(out: &mut Vec<u8>, width: usize, value: u64) -> Result<(), NoMemory>
    ensures bytes { OnOk result (out.new.items ≡ out.old.items ++ le_bytes width value) }
    ensures len { OnOk result (length out.new.items ≡ length out.old.items + width) }
{
    let mut rest = value;
    for i in 0..width {
        out.push((rest % 256) as u8)?;
        rest /= 256;
    }
    Ok(())
}

/// Appends zero bytes.
pub(crate) fn put_zeros(out: &mut Vec<u8>, count: usize) -> Result<(), NoMemory>
    ensures { OnOk result (out.new.items ≡ out.old.items ++ replicate count 0) }
{
    for i in 0..count {
        out.push(0)?;
    }
    Ok(())
}

// Writes bytes over those at a place.
fn write_over(out: &mut [u8], at: usize, bytes: &[u8])
    requires { at + length bytes.now ≤ length out.old }
    ensures { out.new ≡ ElfLayout.over at bytes.now out.old }
{
    out[at..at + bytes.len()].copy_from_slice(bytes);
}

// Writes a number of so many bytes over those at a place.
fn over_number(
    alloc: Global,
    out: &mut [u8],
    at: usize,
    width: usize,
    value: u64,
) -> Result<(), NoMemory>
    requires { at + width ≤ length out.old }
    ensures { OnOk result (out.new ≡ ElfLayout.over at (le_bytes width value) out.old) }
{
    let mut bytes = Vec::new(alloc);
    put_number(&mut bytes, width, value)?;
    write_over(out, at, &bytes);
    Ok(())
}

// Appends the bytes below a place, and zero bytes where the file has ended.
fn put_kept(out: &mut Vec<u8>, keep: usize, input: &[u8]) -> Result<(), NoMemory>
    ensures bytes { OnOk result (out.new.items ≡ out.old.items ++ ElfLayout.kept_bytes keep input.now) }
    ensures len { OnOk result (length out.new.items ≡ length out.old.items + keep) }
{
    let whole = keep.min(input.len());
    out.extend_from_slice(&input[..whole])?;
    put_zeros(out, keep - whole)
}

/// The bytes below a place, with the place of the section header table and how many headers it has.
pub(crate) fn front(
    alloc: Global,
    keep: usize,
    headers_at: u64,
    count: u64,
    input: &[u8],
) -> Result<Vec<u8>, NoMemory>
    requires { 64 ≤ keep }
    ensures { IfOk result (λ out. out.items ≡ ElfLayout.new_front keep headers_at count input.now) }
{
    let mut out = Vec::new(alloc);
    put_kept(&mut out, keep, input)?;
    over_number(alloc, &mut out, E_SHOFF, 8, headers_at)?;
    over_number(alloc, &mut out, E_SHNUM, 2, count)?;
    Ok(out)
}
