//! Names of files, and copies of them.

ghost use Rattle.std.specs.Prelude.{◌≡◌, [], get_or, IfOk};

use dwz_model::{Blob, NoMemory};
use std::alloc::Global;

/// The name with that number, or none.
pub(crate) fn name_at(names: &[Blob], number: usize) -> &[u8]
    ensures { result.now ≡ get_or names.now number [] }
{
    match names.get(number) {
        Some(name) => name.as_slice(),
        None => &[],
    }
}

/// The same name.
pub(crate) fn copied(alloc: Global, name: &[u8]) -> Result<Blob, NoMemory>
    ensures { IfOk result (λ blob. blob ≡ name.now) }
{
    Ok(Blob::new(Vec::from_slice(alloc, name)?))
}

/// The same name, if there is one.
pub(crate) fn copied_if(alloc: Global, name: &Option<Blob>) -> Result<Option<Blob>, NoMemory>
    ensures { IfOk result (λ copy. copy ≡ name.now) }
{
    match name {
        Some(name) => Ok(Some(copied(alloc, name.as_slice())?)),
        None => Ok(None),
    }
}
