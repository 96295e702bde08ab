//! What a unit misses: marks are taken off partial units that refer to one that isn't marked, until no such one is left.

ghost use Rattle.std.specs.Prelude.{◌≡◌, ◌↔◌, ℕ, ◌<◌, ◌^◌, IfOk, OnOk, length};
ghost use Rattle.dwz_model.specs.Lists.{In};
ghost use Rattle.dwz_groups.specs.Spreading.{IsMarked};
ghost use Rattle.dwz_takes.specs.Steps.{AreFits, AreTakenMarks, AreTurned, Drops, IsDropping};
ghost use Rattle.dwz_takes.specs.Takes.{AreRows};

use crate::flags::has_all;
use crate::rows::Rows;
use dwz_groups::Groups;
use dwz_model::NoMemory;
use std::alloc::Global;

// Takes the marks off those of the list, and adds those that lose it to what is left to do.
fn drop_all(flags: &mut [bool], work: &mut Vec<u32>, list: &[u32]) -> Result<(), NoMemory>
    requires { (n : ℕ) → In n list.now → n < length flags.old }
    ensures { OnOk result (Drops list.now flags.old work.old.items flags.new work.new.items) }
{
    for n in list {
        if flags[*n as usize] {
            flags[*n as usize] = false;
            work.push(*n)?;
        }
    }
    Ok(())
}

// Takes the mark off each of these that refers to one that isn't marked, and answers which these are.
fn drop_first(
    alloc: Global,
    rows: &Rows,
    flags: &mut [bool],
    fits: &[u32],
) -> Result<Vec<u32>, NoMemory>
    requires rows { AreRows rows.now }
    requires len { length flags.old ≡ length rows.now.part_tops }
    requires below { (p : ℕ) → In p fits.now → p < length rows.now.part_tops }
    ensures only { OnOk result ((p : ℕ) → IsMarked flags.new p → IsMarked flags.old p) }
    ensures below { IfOk result (λ work. (p : ℕ) → In p work.items → In p fits.now) }
    ensures drops { IfOk result (λ work. (u : ℕ) → AreFits rows.now u fits.now flags.old → IsDropping rows.now u flags.new work.items) }
{
    let mut work = Vec::new(alloc);
    for part in fits {
        if !has_all(flags, rows.part_targets.get(*part as usize)) {
            flags[*part as usize] = false;
            work.push(*part)?;
        }
    }
    Ok(work)
}

/// Where just those are marked that a unit can take by itself, takes the marks off what it misses: what refers to one that isn't marked.
pub(crate) fn drop_missing(
    alloc: Global,
    rows: &Rows,
    sources: &Groups,
    flags: &mut [bool],
    fits: &[u32],
) -> Result<(), NoMemory>
    requires rows { AreRows rows.now }
    requires sources { AreTurned (length rows.now.part_tops) rows.now.part_targets sources.now }
    requires len { length flags.old ≡ length rows.now.part_tops }
    requires below { (p : ℕ) → In p fits.now → p < length rows.now.part_tops }
    ensures only { OnOk result ((p : ℕ) → IsMarked flags.new p → IsMarked flags.old p) }
    ensures taken { OnOk result ((u : ℕ) → AreFits rows.now u fits.now flags.old → AreTakenMarks rows.now u flags.new) }
{
    let mut work = drop_first(alloc, rows, flags, fits)?;
    'work: while let Some(part) = work.pop() {
        drop_all(flags, &mut work, sources.get(part as usize))?;
    }
    Ok(())
}
