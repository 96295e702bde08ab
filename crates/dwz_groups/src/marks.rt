//! Marks that spread backwards over references.

ghost use Rattle.std.specs.Prelude.{◌≡◌, ◌↔◌, ℕ, ◌<◌, ◌^◌, length, IfOk, OnOk};
ghost use Rattle.dwz_model.specs.Lists.{In};
ghost use Rattle.dwz_groups.specs.Spreading.{AreInside, IsMarked, IsSpread, Marks};

use crate::Groups;
use dwz_model::NoMemory;
use std::alloc::Global;

// The numbers of what is marked.
fn marked_numbers(alloc: Global, marks: &[bool]) -> Result<Vec<u32>, NoMemory>
    requires { length marks.now < 2 ^ 32 }
    ensures { IfOk result (λ work. (n : ℕ) → In n work.items ↔ IsMarked marks.now n) }
{
    let mut work = Vec::new(alloc);
    for (n, mark) in marks.iter().enumerate() {
        if *mark {
            work.push(n as u32)?;
        }
    }
    Ok(work)
}

// Marks those of the list that aren't marked, and adds them to what is left to do.
fn mark(marks: &mut [bool], work: &mut Vec<u32>, list: &[u32]) -> Result<(), NoMemory>
    requires { (n : ℕ) → In n list.now → n < length marks.old }
    ensures { OnOk result (Marks list.now marks.old work.old.items marks.new work.new.items) }
{
    for n in list {
        if !marks[*n as usize] {
            marks[*n as usize] = true;
            work.push(*n)?;
        }
    }
    Ok(())
}

/// Marks each number that leads to a marked one. Under each number stand those that refer to it. Each is looked at once.
pub fn spread(alloc: Global, sources: &Groups, seeds: &[bool]) -> Result<Vec<bool>, NoMemory>
    requires few { length seeds.now < 2 ^ 32 }
    requires len { length sources.now ≡ length seeds.now }
    requires inside { AreInside sources.now }
    ensures { IfOk result (λ marks. IsSpread sources.now seeds.now marks.items) }
{
    let mut marks = Vec::from_slice(alloc, seeds)?;
    let mut work = marked_numbers(alloc, seeds)?;
    'work: while let Some(n) = work.pop() {
        mark(marks.as_mut_slice(), &mut work, sources.get(n as usize))?;
    }
    Ok(marks)
}
