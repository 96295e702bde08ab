//! What is printed of the answer.

ghost use Rattle.std.specs.Prelude.{◌≡◌, IfOk};
ghost use Rattle.dwz_def_check.specs.Texts;

use dwz_def_check::Same;
use dwz_model::{Blob, NoMemory};
use dwz_text::{decimal, line};
use std::alloc::Global;

/// The line of an answer: `same`, `differs: units A, B` with the numbers of units, or `differs: unit N`.
pub fn check_text(alloc: Global, same: &Same) -> Result<Blob, NoMemory>
    ensures { IfOk result (λ text. text ≡ Texts.check_text same.now) }
{
    match same {
        Same::Yes => Ok(Blob::new(line(alloc, &[b"same".as_slice()])?)),
        Same::Units { first, second } => {
            let first = decimal(alloc, u64::from(*first))?;
            let second = decimal(alloc, u64::from(*second))?;
            Ok(Blob::new(line(
                alloc,
                &[b"differs: units ".as_slice(), &first, b", ", &second],
            )?))
        }
        Same::Unit(n) => {
            let n = decimal(alloc, u64::from(*n))?;
            Ok(Blob::new(line(alloc, &[b"differs: unit ".as_slice(), &n])?))
        }
    }
}
