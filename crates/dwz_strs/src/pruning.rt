//! Taking out of a section of texts what isn't used.

ghost use Rattle.std.specs.Prelude.{◌≡◌, ℕ, All, Contains, IfOk, IsSome};
ghost use Rattle.std.specs.List.Sorted.{IsStrictlyIncreasing};
ghost use Rattle.dwz_def_reading.specs.Pruning;
ghost use Rattle.dwz_def_reading.specs.Texts.{text_at};
ghost use Rattle.dwz_strs.specs.Pruned.{IsPruned};
ghost use Rattle.dwz_strs.specs.Steps.{end_behind};

use crate::pruned::Pruned;
use crate::text_at;
use dwz_model::NoMemory;
use std::alloc::Global;

// The uses in ascending order, each once.
fn sort_uses(alloc: Global, uses: &[u32]) -> Result<Vec<u32>, NoMemory>
    ensures rises { IfOk result (λ s. IsStrictlyIncreasing s.items) }
    ensures keeps { IfOk result (λ s. (used : ℕ) → Contains uses.now used → Contains s.items used) }
    ensures adds_none { IfOk result (λ s. (used : ℕ) → Contains s.items used → Contains uses.now used) }
{
    let mut sorted = uses.to_vec(alloc)?;
    sorted.sort_unstable();
    sorted.dedup();
    Ok(sorted)
}

// Where the range of a use ends.
fn range_end(section: &[u8], used: u32) -> usize
    ensures { result ≡ Pruning.range_end section.now used }
{
    match text_at(section, used as u64) {
        None => used as usize,
        Some(text) => used as usize + text.len() + 1,
    }
}

// Where the ranges end once that of a use is among them, which is no smaller than the uses before.
fn end_behind(section: &[u8], used: u32, end: usize) -> usize
    ensures { result ≡ end_behind section.now used end }
{
    if end <= used as usize {
        range_end(section, used)
    } else {
        end
    }
}

// What `prune` gives, of uses in ascending order, each once. A text is looked for only where the one before has ended, so that each byte
// is looked at once.
fn prune_sorted(alloc: Global, section: &[u8], uses: Vec<u32>) -> Result<Pruned, NoMemory>
    requires rises { IsStrictlyIncreasing uses.items }
    requires texts { All (λ used. IsSome (text_at section.now used)) uses.items }
    ensures { IfOk result (IsPruned section.now uses.items) }
{
    let mut bytes = Vec::new(alloc);
    let mut numbers = Vec::new(alloc);
    let mut end = 0;
    for used in &uses {
        let start = *used as usize;
        let next = end_behind(section, *used, end);
        bytes.extend_from_slice(&section[start.max(end)..next])?;
        end = next;
        numbers.push((bytes.len() - (next - start)) as u32)?;
    }
    Pruned::new(alloc, bytes, uses, numbers)
}

/// Takes out of a section of texts what isn't used. The range of a use goes from it up to and including the next zero byte; the new
/// section has the bytes that lie in a range of a use, in old order, closed up; and the new number of a use is how many bytes
/// before it stay. The uses may come in any order and more than once, and may lie in the texts of others.
pub fn prune(alloc: Global, section: &[u8], uses: &[u32]) -> Result<Pruned, NoMemory>
    requires { All (λ used. IsSome (text_at section.now used)) uses.now }
    ensures { IfOk result (IsPruned section.now uses.now) }
{
    let sorted = sort_uses(alloc, uses)?;
    prune_sorted(alloc, section, sorted)
}
