//! Numbers that are changed in place: of location lists (DWARF 5, 7.7.3), of address ranges (6.1.2), and of slots of texts (7.26).
//!
//! Of the place of a unit `.debug_aranges` has the low four bytes, in the code as in the definition, also where `.debug_info` is too large.
//! So what is new in a file is what the definitions say whatever its length is, and `dwz_run_output` refuses it.

ghost use Rattle.std.specs.Prelude.{◌≡◌, ◌%◌, ◌^◌, ℕ, length, map, IfOk};
ghost use Rattle.dwz_def_reading.specs.Units.{RawUnit};
ghost use Rattle.dwz_law_layout.specs.Beside.{Beside};
ghost use Rattle.dwz_law_layout.specs.Facts.{RunFacts, common, run};
ghost use Rattle.dwz_def_output.specs.Contents.{lists_after_by, ranges_after_by};
ghost use Rattle.dwz_encode_texts.specs.declared.pruning.PrunedFile.{PrunedFile};
ghost use Rattle.dwz_run_files.specs.Moved.{pruned_at};
ghost use Rattle.dwz_unit.specs.Rows.{units_of as raw_units};
ghost use Rattle.dwz_run_files.specs.Works.{HaveUnitPlaces, IsMoved, other_offsets, other_strs};

use crate::bytes::copy_if_other;
use crate::moved::FileAfter;
use crate::work::LaidRun;
use dwz_encode_operands::lists_section;
use dwz_encode_sections::ranges;
use dwz_encode_texts::PrunedFile;
use dwz_model::{Blob, NoMemory};
use dwz_unit::Units;
use std::alloc::Global;

/// `.debug_str` of the file with a number, if just some of its texts stay.
pub(crate) fn strs_section(
    alloc: Global,
    old: &[u8],
    pruned: &[Option<PrunedFile>],
    number: usize,
) -> Result<Option<Blob>, NoMemory>
    ensures { IfOk result (λ bytes. bytes ≡ other_strs old.now (pruned_at pruned.now number)) }
{
    match pruned.get(number) {
        Some(Some(stays)) => copy_if_other(alloc, old, stays.strs.bytes()),
        _ => Ok(None),
    }
}

/// `.debug_str_offsets` of the file with a number, if just some of its texts stay.
pub(crate) fn offsets_section(
    alloc: Global,
    old: &[u8],
    pruned: &[Option<PrunedFile>],
    number: usize,
) -> Result<Option<Blob>, NoMemory>
    ensures { IfOk result (λ bytes. bytes ≡ other_offsets old.now (pruned_at pruned.now number)) }
{
    match pruned.get(number) {
        Some(Some(stays)) => copy_if_other(alloc, old, stays.offsets.as_slice()),
        _ => Ok(None),
    }
}

/// `.debug_loclists` of a file, whose units begin there after.
pub(crate) fn lists(
    alloc: Global,
    work: &LaidRun,
    moved: &FileAfter,
    units_at: &[u64],
) -> Result<Vec<u8>, NoMemory>
    requires { (beside : Beside) × (f : RunFacts beside) × IsMoved f work.now moved.now }
    ensures { (beside : Beside) (f : RunFacts beside) → IsMoved f work.now moved.now → HaveUnitPlaces f moved.now units_at.now
        → IfOk result (λ out. out.items ≡ lists_after_by (common f) (run f) moved.now.number) }
{
    let file = moved.file;
    lists_section(
        alloc,
        file.sections.lists,
        &file.resolved.operands,
        moved.index,
        &work.prepared.run.settled.planned.plan,
        work.tops,
        moved.start,
        work.layout.spots().places.as_slice(),
        units_at,
    )
}

// Where the units of a file began, in bytes from the first of `.debug_info`.
fn unit_starts(alloc: Global, units: &Units) -> Result<Vec<u32>, NoMemory>
    ensures { IfOk result (λ v. v.items ≡ map (λ (u : RawUnit). u.at) (raw_units units.now)) }
{
    let mut starts = Vec::with_capacity(alloc, units.len() as usize)?;
    for n in 0..units.len() {
        starts.push(units.unit(n).at)?;
    }
    Ok(starts)
}

// The number of the low four bytes.
#[inline(always)]
fn low_number(number: u64) -> u32
    ensures { result ≡ number % 2 ^ 32 }
{
    (number % (1 << 32)) as u32
}

// For each number that of its low four bytes.
fn low_numbers(alloc: Global, numbers: &[u64]) -> Result<Vec<u32>, NoMemory>
    ensures { IfOk result (λ v. v.items ≡ map (λ n. n % 2 ^ 32) numbers.now) }
{
    numbers
        .iter()
        .map(|number| low_number(*number))
        .collect(alloc)
}

/// `.debug_aranges` of a file, whose units begin there after. Of a place only the low four bytes are written.
pub(crate) fn address_ranges(
    alloc: Global,
    work: &LaidRun,
    moved: &FileAfter,
    units_at: &[u64],
) -> Result<Vec<u8>, NoMemory>
    requires moved { (beside : Beside) × (f : RunFacts beside) × IsMoved f work.now moved.now }
    requires many { length units_at.now ≡ length (raw_units moved.now.file.now.units) }
    ensures { (beside : Beside) (f : RunFacts beside) → IsMoved f work.now moved.now → HaveUnitPlaces f moved.now units_at.now
        → IfOk result (λ out. out.items ≡ ranges_after_by (common f) (run f) moved.now.number) }
{
    let file = moved.file;
    let starts = unit_starts(alloc, &file.units)?;
    let low = low_numbers(alloc, units_at)?;
    ranges(
        alloc,
        file.sections.aranges,
        starts.as_slice(),
        low.as_slice(),
    )
}
