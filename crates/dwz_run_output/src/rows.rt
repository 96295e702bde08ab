//! Rows by the number of a file, and names.

ghost use Rattle.std.specs.Prelude.{◌≡◌, ◌≢◌, ℕ, [], None, IfOk, get_or, map};
ghost use Rattle.dwz_def_reading.specs.Values.{AreBytes};
ghost use Rattle.dwz_def_reading.specs.Lists.{Each};

use dwz_model::{Blob, NoMemory};
use std::alloc::Global;

/// The row with a number, which is left empty; None where there is none.
pub(crate) fn take_row<T>(rows: &mut Vec<Option<T>>, row: usize) -> Option<T>
    ensures row { result ≡ get_or rows.old.items row None }
    ensures others { (k : ℕ) → k ≢ row → get_or rows.new.items k None ≡ get_or rows.old.items k None }
{
    if row < rows.len() {
        rows[row].take()
    } else {
        None
    }
}

/// The content of the file with a number, or nothing.
pub(crate) fn content_of(contents: &[Vec<u8>], file: usize) -> &[u8]
    ensures { result.now ≡ get_or (map (λ c. c.items) contents.now) file [] }
{
    match contents.get(file) {
        Some(content) => content.as_slice(),
        None => &[],
    }
}

// What is in a slice of bytes is known where it is passed.
fn look_at(_bytes: &[u8])
    ensures { AreBytes _bytes.now }
{}

/// Looks at all contents. So they are known to be bytes.
pub(crate) fn look_at_all(contents: &[Vec<u8>])
    ensures { Each AreBytes (map (λ c. c.items) contents.now) }
{
    for content in contents {
        look_at(content.as_slice());
    }
}

/// The same name.
pub(crate) fn copy_name(alloc: Global, name: &Blob) -> Result<Blob, NoMemory>
    ensures { IfOk result (λ copy. copy ≡ name.now) }
{
    Ok(Blob::new(Vec::from_slice(alloc, name.as_slice())?))
}
