//! For each top the first one that is alike to it in its file.

ghost use Rattle.std.specs.Prelude.{◌≡◌, ℕ, ◌<◌, ◌≤◌, ◌^◌, ◌-◌, ◌++◌, IfOk, IfSome, OnOk, length};
ghost use Rattle.std.specs.List.{range_with_len};
ghost use Rattle.dwz_model.specs.Lists.{In};
ghost use Rattle.dwz_match.specs.Kin.{AreKinBy, IsFirst, Rise};

use dwz_model::{NoMemory, Numbers};
use std::alloc::Global;

// The first top of the same kin: the one that was seen last of its class, if it is of the same file; else the top itself.
fn first_of(seen: Option<u32>, files: &[u32], top: usize) -> u32
    requires top { top < length files.now }
    requires seen { IfSome seen (λ m. m < length files.now) }
    requires few { length files.now < 2 ^ 32 }
    ensures { IsFirst files.now seen top result }
{
    match seen {
        Some(first) if files[first as usize] == files[top] => first,
        _ => top as u32,
    }
}

// Adds the numbers from one to before another.
fn put_themselves(numbers: &mut Vec<u32>, from: usize, to: usize) -> Result<(), NoMemory>
    requires rising { from ≤ to }
    requires few { to < 2 ^ 32 }
    ensures { OnOk result (numbers.new.items ≡ numbers.old.items ++ range_with_len from (to - from)) }
{
    for number in from..to {
        numbers.push(number as u32)?;
    }
    Ok(())
}

/// For each of so many tops the first one of its file that has the same least alike top; those behind the tops of the files stand for
/// themselves. Tops stand file by file: `files` has the number of the file of each.
pub fn kin_of(
    alloc: Global,
    least: &[u32],
    files: &[u32],
    count: usize,
) -> Result<Numbers, NoMemory>
    requires files { length files.now ≡ length least.now }
    requires least { (n : ℕ) → In n least.now → n < length least.now }
    requires rise { Rise files.now }
    requires count { length least.now ≤ count }
    requires few { count < 2 ^ 32 }
    ensures kin { IfOk result (λ kin. AreKinBy least.now files.now count kin) }
    ensures below { IfOk result (λ kin. (k : ℕ) → In k kin → k < count) }
{
    let mut firsts = vec![in alloc; None; least.len()]?;
    let mut kin = Vec::with_capacity(alloc, count)?;
    for (top, class) in least.iter().enumerate() {
        let first = first_of(firsts[*class as usize], files, top);
        firsts[*class as usize] = Some(first);
        kin.push(first)?;
    }
    put_themselves(&mut kin, least.len(), count)?;
    Ok(Numbers::new(kin))
}
