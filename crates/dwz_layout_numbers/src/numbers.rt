//! The numbers of the units that are written.

ghost use Rattle.std.specs.Prelude.{◌≡◌, ℕ, ◌+◌, ◌<◌, ◌^◌, ◌++◌, List, drop, length, replicate, sum, if◌then◌else◌, IfOk, OnOk};
ghost use Rattle.std.specs.List.{range_with_len};
ghost use Rattle.dwz_def_tops.specs.Spots.{units_of};
ghost use Rattle.dwz_def_reading.specs.Documents.{Doc};
ghost use Rattle.dwz_def_images.specs.Moves.{Move};
ghost use Rattle.dwz_layout_numbers.specs.Owners.{AreUnitNumbers};
ghost use Rattle.dwz_layout_numbers.specs.Numbering.{HaveUnits, leading, numbers_of};

use dwz_model::NoMemory;
use dwz_plan::Partial;
use std::alloc::Global;

/// The numbers of the units that are written, counted over all files: those of the common file first, then of each file that is written
/// its partial units and its old ones.
#[derive(Drop)]
pub struct UnitNumbers {
    /// For each partial unit its number.
    pub parts: Vec<u32>,
    /// For each unit that was read the number of the one that is kept of it.
    pub olds: Vec<u32>,
    /// How many units the common file has.
    pub commons: u32,
}

// Those from one on.
fn behind(partials: &[Partial], from: usize) -> &[Partial]
    ensures { result.now ≡ drop from partials.now }
{
    match partials.get(from..) {
        Some(rest) => rest,
        None => &[],
    }
}

// How many at the front are of the file.
fn count_leading(partials: &[Partial], file: u32) -> usize
    ensures { result ≡ leading file partials.now }
{
    let mut count = 0;
    for part in partials {
        if part.file != file {
            return count;
        }
        count += 1;
    }
    count
}

// Adds so many numbers, from one on.
fn add_range(numbers: &mut Vec<u32>, first: u32, count: u32) -> Result<(), NoMemory>
    requires { first + count < 2 ^ 32 }
    ensures { OnOk result (numbers.new.items ≡ numbers.old.items ++ range_with_len first count) }
{
    for number in first..first + count {
        numbers.push(number)?;
    }
    Ok(())
}

// Adds so many zeros.
fn add_zeros(numbers: &mut Vec<u32>, count: u32) -> Result<(), NoMemory>
    ensures { OnOk result (numbers.new.items ≡ numbers.old.items ++ replicate count 0) }
{
    for _ in 0..count {
        numbers.push(0)?;
    }
    Ok(())
}

// Adds the numbers of the next partial units, those of the file; answers the one behind them.
fn add_parts(
    parts: &mut Vec<u32>,
    partials: &[Partial],
    file: u32,
    first: u32,
) -> Result<u32, NoMemory>
    requires { first + leading file (drop (length parts.old.items) partials.now) < 2 ^ 32 }
    ensures numbers { OnOk result (parts.new.items ≡ parts.old.items
        ++ range_with_len first (leading file (drop (length parts.old.items) partials.now))) }
    ensures next { IfOk result (λ next. next ≡ first + leading file (drop (length parts.old.items) partials.now)) }
{
    let count = count_leading(behind(partials, parts.len()), file) as u32;
    add_range(parts, first, count)?;
    Ok(first + count)
}

// Adds the numbers of the old units of a file, of which there are so many; answers the one behind them. They have none where the file
// isn't written.
fn add_olds(olds: &mut Vec<u32>, count: u32, written: bool, first: u32) -> Result<u32, NoMemory>
    requires { first + count < 2 ^ 32 }
    ensures numbers { OnOk result (olds.new.items ≡ olds.old.items ++ numbers_of first count written) }
    ensures next { IfOk result (λ next. next ≡ first + (if written then count else 0)) }
{
    if written {
        add_range(olds, first, count)?;
        return Ok(first + count);
    }
    add_zeros(olds, count)?;
    Ok(first)
}

impl UnitNumbers {
    /// The numbers, from the partial units of a plan (those of the common file first, also where it is finished), how many units each file
    /// has, and whether it is written.
    pub fn make(
        alloc: Global,
        partials: &[Partial],
        counts: &[u32],
        written: &[bool],
    ) -> Result<UnitNumbers, NoMemory>
        requires few { length partials.now + sum counts.now < 2 ^ 32 }
        requires files { length counts.now < 2 ^ 32 }
        requires flags { length written.now ≡ length counts.now }
        ensures { (docs : List (Doc ℕ)) (m : Move) → HaveUnits docs m partials.now counts.now written.now
            → IfOk result (λ n. AreUnitNumbers m (units_of docs) written.now n.commons n.parts.items n.olds.items) }
    {
        let mut parts = Vec::with_capacity(alloc, partials.len())?;
        let mut olds = Vec::new(alloc);
        let commons = add_parts(&mut parts, partials, counts.len() as u32, 0)?;
        let mut next = commons;
        for (file, count) in counts.iter().enumerate() {
            let first = add_parts(&mut parts, partials, file as u32, next)?;
            next = add_olds(&mut olds, *count, written[file], first)?;
        }
        Ok(UnitNumbers {
            parts,
            olds,
            commons,
        })
    }
}
