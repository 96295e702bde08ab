//! The lines that are printed of two tops.

ghost use Rattle.std.specs.Prelude.{◌≡◌, ◌∷◌, ◌++◌, [], codes, decimal, suc, length, IfOk};
ghost use Rattle.dwz_def_explain.specs.Texts as Explained;
ghost use Rattle.dwz_text.specs.Lines;

use crate::words::places_text;
use dwz_model::NoMemory;
use dwz_text::{decimal, line};
use std::alloc::Global;

/// That two tops are alike.
pub(crate) fn alike_line(alloc: Global) -> Result<Vec<u8>, NoMemory>
    ensures { IfOk result (λ text. text.items ≡ Lines.line (codes "alike" ∷ [])) }
{
    line(alloc, &[b"alike".as_slice()])
}

/// How deep the look is that first tells two tops apart: one more than a chain has references.
pub(crate) fn depth_line(alloc: Global, chain: &[u32]) -> Result<Vec<u8>, NoMemory>
    ensures { IfOk result (λ text. text.items ≡ Lines.line (codes "depth " ∷ decimal (suc (length chain.now)) ∷ [])) }
{
    let depth = decimal(alloc, chain.len() as u64 + 1)?;
    line(alloc, &[b"depth ".as_slice(), &depth])
}

/// A reference by its number, and the places of the two tops that it goes into.
pub(crate) fn reference_line(
    alloc: Global,
    number: u32,
    first: u32,
    second: u32,
) -> Result<Vec<u8>, NoMemory>
    ensures { IfOk result (λ text. text.items ≡ Lines.line (codes "reference " ∷ decimal number ∷ codes ": "
        ∷ (Explained.code_text first ++ codes " " ++ Explained.code_text second) ∷ [])) }
{
    let number = decimal(alloc, u64::from(number))?;
    let places = places_text(alloc, first, second)?;
    line(alloc, &[b"reference ".as_slice(), &number, b": ", &places])
}

/// The places of two entries that differ, and in what they do.
pub(crate) fn difference_line(
    alloc: Global,
    first: u32,
    second: u32,
    words: &[u8],
) -> Result<Vec<u8>, NoMemory>
    ensures { IfOk result (λ text. text.items ≡ Lines.line ((Explained.code_text first ++ codes " " ++ Explained.code_text second)
        ∷ codes ": " ∷ words.now ∷ [])) }
{
    let places = places_text(alloc, first, second)?;
    line(alloc, &[places.as_slice(), b": ", words])
}
