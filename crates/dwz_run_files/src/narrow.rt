//! The first operand of a file whose new number needs more bytes than it has (DWARF 5, 2.5).
//!
//! It is found beside the sections and not in them, where numbers are written in the width that an operand has. The first is the one at the
//! least place, so nothing is asked of the order in which entries are walked.

ghost use Rattle.std.specs.Prelude.{◌≡◌, ℕ, length, IfOk};
ghost use Rattle.dwz_def_output.specs.NewFiles.{IsFound, NarrowFaultBy};
ghost use Rattle.dwz_law_layout.specs.Beside.{Beside};
ghost use Rattle.dwz_law_layout.specs.Facts.{RunFacts, common, run};
ghost use Rattle.dwz_encode_operands.specs.Narrow.{FirstPlace, after_in_by, number_by};
ghost use Rattle.dwz_def_output.specs.Contents;
ghost use Rattle.dwz_def_output.specs.Refusals;
ghost use Rattle.dwz_unit.specs.Rows.{units_of as raw_units};
ghost use Rattle.dwz_run_files.specs.Works.{HaveUnitPlaces, IsMoved};

use crate::moved::FileAfter;
use crate::work::LaidRun;
use dwz_encode_operands::{entry_places, first_listed, first_spoken, operand_numbers};
use dwz_layout::EntryTable;
use dwz_model::{DEBUG_INFO, DEBUG_LOCLISTS, Fault, NoMemory, Reason};
use std::alloc::Global;

// The first place in `.debug_info`.
fn first_in_info(
    alloc: Global,
    work: &LaidRun,
    moved: &FileAfter,
    units_at: &[u64],
) -> Result<Option<u64>, NoMemory>
    requires moved { (beside : Beside) × (f : RunFacts beside) × IsMoved f work.now moved.now }
    requires many { length units_at.now ≡ length (raw_units moved.now.file.now.units) }
    ensures { (beside : Beside) (f : RunFacts beside) → IsMoved f work.now moved.now → HaveUnitPlaces f moved.now units_at.now
        → IfOk result (FirstPlace (number_by (after_in_by (common f) (run f) moved.now.number)) (Refusals.spoken (run f) moved.now.number)) }
{
    let places = work.layout.spots().places.as_slice();
    let rows = &work.prepared.known.files[moved.number];
    let targets = entry_places(alloc, rows.references.as_slice(), places)?;
    first_spoken(alloc, &moved.file.units, targets.as_slice(), units_at)
}

// The first place in `.debug_loclists`.
fn first_in_lists(
    alloc: Global,
    work: &LaidRun,
    moved: &FileAfter,
    units_at: &[u64],
) -> Result<Option<u64>, NoMemory>
    requires { (beside : Beside) × (f : RunFacts beside) × IsMoved f work.now moved.now }
    ensures { (beside : Beside) (f : RunFacts beside) → IsMoved f work.now moved.now → HaveUnitPlaces f moved.now units_at.now
        → IfOk result (FirstPlace (number_by (after_in_by (common f) (run f) moved.now.number)) (Contents.listed (run f) moved.now.number)) }
{
    let operands = moved.file.resolved.operands.as_slice();
    let numbers = operand_numbers(
        alloc,
        operands,
        moved.index,
        &work.prepared.run.settled.planned.plan,
        work.tops,
        moved.start,
        work.layout.spots().places.as_slice(),
        units_at,
    )?;
    Ok(first_listed(operands, numbers.as_slice()))
}

// The fault of an operand at a place of a section.
fn narrow_at(section: u8, at: u64) -> Fault
    ensures { result ≡ Refusals.narrow_at section at }
{
    Fault {
        section,
        at,
        reason: Reason::OperandWidth,
    }
}

/// The fault of the first operand whose new number doesn't fit: in `.debug_info`, or else in `.debug_loclists`.
pub(crate) fn narrow_fault(
    alloc: Global,
    work: &LaidRun,
    moved: &FileAfter,
    units_at: &[u64],
) -> Result<Option<Fault>, NoMemory>
    requires moved { (beside : Beside) × (f : RunFacts beside) × IsMoved f work.now moved.now }
    requires many { length units_at.now ≡ length (raw_units moved.now.file.now.units) }
    ensures { (beside : Beside) (f : RunFacts beside) → IsMoved f work.now moved.now → HaveUnitPlaces f moved.now units_at.now
        → IfOk result (IsFound (NarrowFaultBy (common f) (run f) moved.now.number)) }
{
    if let Some(at) = first_in_info(alloc, work, moved, units_at)? {
        return Ok(Some(narrow_at(DEBUG_INFO, at)));
    }
    if let Some(at) = first_in_lists(alloc, work, moved, units_at)? {
        return Ok(Some(narrow_at(DEBUG_LOCLISTS, at)));
    }
    Ok(None)
}
