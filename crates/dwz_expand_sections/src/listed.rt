//! Operands of location lists whose new numbers need more bytes than they have (DWARF 5, 2.6.2 and 7.7.3).

ghost use Rattle.std.specs.Prelude.{◌≡◌, List, ℕ, length, map};
ghost use Rattle.dwz_def_expand.specs.OneFile.{OneFile};
ghost use Rattle.dwz_def_expand.specs.Output.{in_lists};
ghost use Rattle.dwz_expand_sections.specs.Lists.{HasNumbers, numbered, with_new};
ghost use Rattle.dwz_expand_sections.specs.Narrow.{FirstPlace, operand_after};

use crate::narrow::note_operand;
use dwz_def_reading::Operand;
use dwz_graph_resolve::ListOperand;

// An operand with its new number.
fn renumbered(operand: &ListOperand, number: u64) -> Operand
    ensures { result ≡ with_new operand.now number }
{
    Operand {
        at: operand.at as u64,
        width: operand.width,
        uleb: operand.uleb,
        base: operand.base,
        number,
    }
}

/// The place of the first operand of location lists, in bytes from the first of `.debug_loclists`, whose new number needs more bytes than
/// it has; None where each number fits. Those that have no new number don't count.
pub fn first_listed(operands: &[ListOperand], numbers: &[Option<u64>]) -> Option<u64>
    requires { length numbers.now ≡ length operands.now }
    ensures numbered { FirstPlace (numbered operands.now numbers.now) result }
    ensures file { (f : OneFile) (section : List ℕ) → HasNumbers f section operands.now numbers.now
        → FirstPlace (map (operand_after f) (in_lists f)) result }
{
    let mut first = None;
    for (i, operand) in operands.iter().enumerate() {
        if let Some(number) = numbers[i] {
            first = note_operand(first, &renumbered(operand, number));
        }
    }
    first
}
