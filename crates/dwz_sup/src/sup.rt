//! The checksum of the supplementary file, and `.debug_sup`.

ghost use Rattle.std.specs.Prelude.{◌≡◌, ◌+◌, ◌^◌, ◌<◌, ◌++◌, IfOk, length};
ghost use Rattle.sha2.specs.Sha256.{sha256};
ghost use Rattle.dwz_def_reading.specs.Supplementary.{flag_byte, sup_bytes};

use dwz_bytes::{put_fixed, put_uleb};
use dwz_model::{Blob, NoMemory};
use sha2::{Digest, Sha256};
use std::alloc::Global;

// The version of `.debug_sup`.
const VERSION: u64 = 5;

/// The checksum of the supplementary file: SHA-256 over its `.debug_info`, its `.debug_str`, which is empty where there is none,
/// and its `.debug_abbrev`, joined in this order. Takes no memory.
pub fn checksum(info: &[u8], strs: &[u8], abbrev: &[u8]) -> [u8; 32]
    requires { length info.now + length strs.now + length «abbrev».now < 2 ^ 61 }
    ensures { result ≡ sha256 (info.now ++ strs.now ++ «abbrev».now) }
{
    let mut hasher = Sha256::new();
    hasher.update(info);
    hasher.update(strs);
    hasher.update(abbrev);
    hasher.finalize()
}

// The byte that says whether the file is the supplementary one.
fn flag_of(supplementary: bool) -> u8
    ensures { result ≡ flag_byte supplementary }
{
    if supplementary { 1 } else { 0 }
}

/// The content of `.debug_sup` (DWARF 5, 7.3.6), by whether the file that has it is the supplementary one, the name of the other
/// file and the checksum. The supplementary file has an empty name there.
pub fn debug_sup(
    alloc: Global,
    supplementary: bool,
    name: &[u8],
    sum: &[u8; 32],
) -> Result<Blob, NoMemory>
    ensures { IfOk result (λ bytes. bytes ≡ sup_bytes (record { supplementary = supplementary; name = name.now; sum = sum.now })) }
{
    let mut bytes = Vec::new(alloc);
    put_fixed(&mut bytes, 2, VERSION)?;
    bytes.push(flag_of(supplementary))?;
    bytes.extend_from_slice(name)?;
    bytes.push(0)?;
    put_uleb(&mut bytes, sum.len() as u64)?;
    bytes.extend_from_slice(sum)?;
    Ok(Blob::new(bytes))
}
