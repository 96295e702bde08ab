//! Bytes that are new, where they aren't the old ones.
//!
//! What would leave a section as it was isn't argued about: bytes are compared once they are made.

ghost use Rattle.std.specs.Prelude.{◌≡◌, IfOk};
ghost use Rattle.dwz_def_tops.specs.Spots.{same_numbers};
ghost use Rattle.dwz_def_output.specs.Contents;

use dwz_model::{Blob, NoMemory};
use std::alloc::Global;

// Whether bytes are the same.
#[inline(always)]
fn same(old: &[u8], new: &[u8]) -> bool
    ensures { result ≡ same_numbers old.now new.now }
{
    old == new
}

/// The new bytes of a section, or None where they are the old ones.
pub(crate) fn if_other(old: &[u8], new: Vec<u8>) -> Option<Blob>
    ensures { result ≡ Contents.if_other old.now new.items }
{
    if same(old, &new) {
        None
    } else {
        Some(Blob::new(new))
    }
}

/// The same of bytes that stay where they are: a copy of them.
pub(crate) fn copy_if_other(alloc: Global, old: &[u8], new: &[u8]) -> Result<Option<Blob>, NoMemory>
    ensures { IfOk result (λ bytes. bytes ≡ Contents.if_other old.now new.now) }
{
    if same(old, new) {
        return Ok(None);
    }
    let copy = new.to_vec(alloc)?;
    Ok(Some(Blob::new(copy)))
}
