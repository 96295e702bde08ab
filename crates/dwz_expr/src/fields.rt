//! What stands behind an operator's code. `start` is always the place of the first byte of the cursor's, and `bad` the fault
//! where what is read doesn't stand there.

ghost use Rattle.std.specs.Prelude.{◌≡◌, ◌+◌, ◌<◌, ◌≤◌, ◌^◌, length};
ghost use Rattle.dwz_bytes.specs.Reading.{fixed_at, sleb_at, take_at, uleb_at};
ghost use Rattle.dwz_def_reading.specs.Exprs.{or_fault};
ghost use Rattle.dwz_def_reading.specs.Faults.{AnswersAt};
ghost use Rattle.dwz_expr.specs.Gathering.{shift};

use dwz_bytes::Cursor;
use dwz_model::{Fault, ReadErr};

// An unsigned number.
#[inline(always)]
#[tactic(auto, using(crate::proofs::ShiftLemmas::uleb_shifts))]
pub(crate) fn uleb(cursor: &mut Cursor, start: u64, bad: Fault) -> Result<u64, ReadErr>
    ensures { AnswersAt (λ x. x) (shift start cursor.new) result (or_fault bad (uleb_at (shift start cursor.old))) }
{
    let _start = start;
    match cursor.uleb() {
        Ok(number) => Ok(number),
        Err(_) => Err(ReadErr::Refused(bad)),
    }
}

// A signed number.
#[inline(always)]
#[tactic(auto, using(crate::proofs::ShiftLemmas::sleb_shifts))]
pub(crate) fn sleb(cursor: &mut Cursor, start: u64, bad: Fault) -> Result<i64, ReadErr>
    ensures { AnswersAt (λ x. x) (shift start cursor.new) result (or_fault bad (sleb_at (shift start cursor.old))) }
{
    let _start = start;
    match cursor.sleb() {
        Ok(number) => Ok(number),
        Err(_) => Err(ReadErr::Refused(bad)),
    }
}

// A byte.
#[inline(always)]
#[tactic(auto, using(crate::proofs::ShiftLemmas::fixed_shifts))]
pub(crate) fn byte(cursor: &mut Cursor, start: u64, bad: Fault) -> Result<u8, ReadErr>
    ensures { AnswersAt (λ x. x) (shift start cursor.new) result (or_fault bad (fixed_at 1 (shift start cursor.old))) }
{
    let _start = start;
    match cursor.u8() {
        Ok(number) => Ok(number),
        Err(_) => Err(ReadErr::Refused(bad)),
    }
}

// A number of four bytes.
#[inline(always)]
#[tactic(auto, using(crate::proofs::ShiftLemmas::fixed_shifts))]
pub(crate) fn four(cursor: &mut Cursor, start: u64, bad: Fault) -> Result<u32, ReadErr>
    ensures { AnswersAt (λ x. x) (shift start cursor.new) result (or_fault bad (fixed_at 4 (shift start cursor.old))) }
{
    let _start = start;
    match cursor.u32() {
        Ok(number) => Ok(number),
        Err(_) => Err(ReadErr::Refused(bad)),
    }
}

// A number of eight bytes.
#[inline(always)]
#[tactic(auto, using(crate::proofs::ShiftLemmas::fixed_shifts))]
pub(crate) fn eight(cursor: &mut Cursor, start: u64, bad: Fault) -> Result<u64, ReadErr>
    ensures { AnswersAt (λ x. x) (shift start cursor.new) result (or_fault bad (fixed_at 8 (shift start cursor.old))) }
{
    let _start = start;
    match cursor.u64() {
        Ok(number) => Ok(number),
        Err(_) => Err(ReadErr::Refused(bad)),
    }
}

// So many bytes.
#[inline(always)]
#[tactic(auto, using(crate::proofs::ShiftLemmas::take_shifts))]
pub(crate) fn run<'a>(
    cursor: &mut Cursor<'a>,
    start: u64,
    bad: Fault,
    count: usize,
) -> Result<&'a [u8], ReadErr>
    ensures { AnswersAt (λ x. x.now) (shift start cursor.new) result (or_fault bad (take_at count (shift start cursor.old))) }
{
    let _start = start;
    match cursor.take(count) {
        Ok(bytes) => Ok(bytes),
        Err(_) => Err(ReadErr::Refused(bad)),
    }
}
