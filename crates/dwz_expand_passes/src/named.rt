//! The copies of the entries that values name.

ghost use Rattle.std.specs.Prelude.{◌≡◌, ℕ, ◌+◌, ◌<◌, ◌++◌, List, length, map};
ghost use Rattle.dwz_graph.specs.Surroundings.{AreAmong};
ghost use Rattle.dwz_expand_passes.specs.Copied.{AddsAll, AddsOperand, AnswersCopy, IsAnswer};
ghost use Rattle.dwz_expand_passes.specs.Known.{Fits, IsReady, LeadWithin, Setting, StandsAt, place_named, raw_of};

use crate::files::SourceEntry;
use dwz_expand_layout::NewOperand;
use dwz_expand_sources::CopyAt;
use dwz_expr::Operand;
use dwz_model::{DEBUG_INFO, Fault, ReadErr, Reason};

// The copy that an entry stands for, of those that the file refers to; or that there is none.
fn copy_of(x: &SourceEntry, entry: u32) -> Option<CopyAt>
    requires ready { IsReady x.now }
    requires there { x.now.first + entry < length x.now.known.copies.now.first }
    ensures { (q : Setting) (p : ℕ) → Fits x.now q → StandsAt q.w (x.now.first + entry) p → IsAnswer q p result }
{
    x.known.copies.copy_of(x.first + entry)
}

/// The copy that an entry stands for. Refused where there is none, at the place of a section where it is named.
pub(crate) fn copy_or(x: &SourceEntry, entry: u32, section: u8, at: u64) -> Result<CopyAt, ReadErr>
    requires ready { IsReady x.now }
    requires there { x.now.first + entry < length x.now.known.copies.now.first }
    ensures { (q : Setting) (p : ℕ) → Fits x.now q → StandsAt q.w (x.now.first + entry) p → AnswersCopy q p (section, at) result }
{
    match copy_of(x, entry) {
        Some(copy) => Ok(copy),
        None => Err(ReadErr::Refused(Fault {
            section,
            at,
            reason: Reason::NotImported,
        })),
    }
}

// Adds one operand.
fn put_operand(
    x: &SourceEntry,
    operands: &mut Vec<NewOperand>,
    operand: &Operand,
    entry: u32,
) -> Result<(), ReadErr>
    requires ready { IsReady x.now }
    requires there { x.now.first + entry < length x.now.known.copies.now.first }
    ensures { (q : Setting) (p : ℕ) → Fits x.now q → StandsAt q.w (x.now.first + entry) p
        → AddsOperand q operand.now p operands.old.items operands.new.items result }
{
    let copy = copy_or(x, entry, DEBUG_INFO, operand.at)?;
    operands.push(NewOperand {
        operand: *operand,
        copy: copy.number,
    })?;
    Ok(())
}

/// Adds the operands of an expression, with the copies of the entries that they name: these are the first of the references. Refused at the
/// first of which there is none.
pub(crate) fn put_operands(
    x: &SourceEntry,
    operands: &mut Vec<NewOperand>,
    read: &[Operand],
    refs: &[u32],
) -> Result<(), ReadErr>
    requires ready { IsReady x.now }
    requires refs { LeadWithin x.now refs.now }
    ensures { (q : Setting) (places others : List ℕ) → Fits x.now q → AreAmong q.around.common (raw_of x.now) refs.now
        → map (place_named q (raw_of x.now)) refs.now ≡ places ++ others → length places ≡ length read.now
        → AddsAll q read.now places operands.old.items operands.new.items result }
{
    let count = read.len().min(refs.len());
    for k in 0..count {
        put_operand(x, operands, &read[k], refs[k])?;
    }
    Ok(())
}
