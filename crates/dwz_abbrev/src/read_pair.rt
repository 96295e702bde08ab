//! A name and a form that are read.

ghost use Rattle.std.specs.Prelude.{◌≡◌};
ghost use Rattle.dwz_def_reading.specs.Abbrevs.{constant_at, pair_at};
ghost use Rattle.dwz_def_reading.specs.Faults.{AnswersAt, bad_abbrev};
ghost use Rattle.dwz_model.specs.declared.fault.ReadErr.TheVariants.{Refused};

use dwz_bytes::Cursor;
use dwz_codes::DW_FORM_IMPLICIT_CONST;
use dwz_model::{DEBUG_ABBREV, Fault, Pair, ReadErr, Reason};

/// The declaration at a place is bad.
#[inline(always)]
pub(crate) fn bad(start: usize) -> ReadErr
    ensures { result ≡ Refused (bad_abbrev start) }
{
    ReadErr::Refused(Fault {
        section: DEBUG_ABBREV,
        at: start as u64,
        reason: Reason::BadAbbrev,
    })
}

// What follows a form, in the declaration at `start`.
#[inline(always)]
fn constant(start: usize, form: u64, cursor: &mut Cursor) -> Result<i64, ReadErr>
    ensures { AnswersAt (λ x. x) cursor.new result (constant_at start form cursor.old) }
{
    if form == DW_FORM_IMPLICIT_CONST {
        cursor.sleb().map_err(|_| bad(start))
    } else {
        Ok(0)
    }
}

/// A pair, or their end, in the declaration at `start`.
#[inline(always)]
#[tactic(auto, unfolding(dwz_def_reading::specs::Abbrevs::pair_at))]
pub(crate) fn read_pair(start: usize, cursor: &mut Cursor) -> Result<Option<Pair>, ReadErr>
    ensures { AnswersAt (λ x. x) cursor.new result (pair_at start cursor.old) }
{
    let fault = |_| bad(start);
    let name = cursor.uleb().map_err(fault)?;
    let form = cursor.uleb().map_err(fault)?;
    if name == 0 && form == 0 {
        return Ok(None);
    }
    if name == 0 || form == 0 || name > 0xffff {
        return Err(bad(start));
    }
    let constant = constant(start, form, cursor)?;
    Ok(Some(Pair {
        name: name as u16,
        form,
        constant,
    }))
}
