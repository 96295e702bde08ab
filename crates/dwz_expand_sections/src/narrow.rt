//! Operands whose new numbers need more bytes than they have (DWARF 5, 2.5 and 7.7.1).

ghost use Rattle.std.specs.Prelude.{◌≡◌, ◌^◌, ◌<◌, ◌≤◌, ◌↔◌, ◌∷◌, ◌++◌, [], IsTrue, List, map};
ghost use Rattle.dwz_def_expand.specs.OneFile.{OneFile};
ghost use Rattle.dwz_def_expand.specs.Output.{FirstTooNarrow, Spoken};
ghost use Rattle.dwz_def_output.specs.NewFiles.{IsFound};
ghost use Rattle.dwz_def_output.specs.Refusals.{narrow_at};
ghost use Rattle.dwz_def_reading.specs.declared.exprs.Operand.{Operand};
ghost use Rattle.dwz_expand_sections.specs.Narrow.{FirstPlace, IsNarrow, operand_after};

use dwz_def_reading::Operand;
use dwz_model::{Fault, Reason};

// How many numbers a group of a ULEB128 number has, and a byte.
const GROUP: u64 = 128;

const BYTE: u64 = 256;

// Whether a number has more than so many digits.
fn reaches(number: u64, radix: u64, count: u8) -> bool
    requires { 0 < radix }
    ensures { IsTrue result ↔ (radix ^ count ≤ number) }
{
    let mut rest = number;
    for _k in 0..count {
        rest /= radix;
    }
    rest > 0
}

// Whether the number of an operand needs more bytes than it has.
fn is_narrow(operand: &Operand) -> bool
    ensures { IsTrue result ↔ IsNarrow operand.now }
{
    if operand.uleb {
        reaches(operand.number, GROUP, operand.width)
    } else {
        reaches(operand.number, BYTE, operand.width)
    }
}

/// The place of the first operand that is too narrow, with one operand more, which has its new number. Operands come in any order, and
/// `first` is the place of the first of those before, if one of them is too narrow.
pub fn note_operand(first: Option<u64>, operand: &Operand) -> Option<u64>
    ensures { (noted : List Operand) → FirstPlace noted first → FirstPlace (noted ++ operand.now ∷ []) result }
{
    if is_narrow(operand) {
        match first {
            None => Some(operand.at),
            Some(at) => Some(at.min(operand.at)),
        }
    } else {
        first
    }
}

/// The place of the first of these operands, which have their new numbers, that is too narrow; None where each number fits.
pub fn first_narrow(operands: &[Operand]) -> Option<u64>
    ensures { FirstPlace operands.now result }
{
    let mut first = None;
    for operand in operands {
        first = note_operand(first, operand);
    }
    first
}

/// The fault of the first operand of a section that is too narrow, by its place.
pub fn narrow_fault(section: u8, first: Option<u64>) -> Option<Fault>
    ensures { (f : OneFile) (spoken : List Spoken) → FirstPlace (map (operand_after f) spoken) first
        → IsFound (FirstTooNarrow f section spoken) result }
{
    match first {
        None => None,
        Some(at) => Some(Fault {
            section,
            at,
            reason: Reason::OperandWidth,
        }),
    }
}
