//! Operands of location lists (DWARF 5, 2.6.2).

ghost use Rattle.std.specs.Prelude.{◌≡◌, ℕ, List, length, map};
ghost use Rattle.dwz_def_reading.specs.Units.{RawUnit};
ghost use Rattle.dwz_def_reading.specs.Shared;
ghost use Rattle.dwz_encode_operands.specs.Narrow.{FirstPlace};
ghost use Rattle.dwz_graph.specs.ListRows.{operand_view};

use crate::over::note;
use dwz_graph::ListOperand;

/// The place of the first operand of location lists, in bytes from the first of `.debug_loclists`, whose new number needs more bytes
/// than the operand has. For each is given its new number. None where each number fits.
pub fn first_listed(operands: &[ListOperand], numbers: &[u64]) -> Option<u64>
    requires { length numbers.now ≡ length operands.now }
    ensures { (raw : List RawUnit) (number : Shared.ListOperand → ℕ) → numbers.now ≡ map (λ o. number (operand_view raw o)) operands.now
        → FirstPlace number (map (operand_view raw) operands.now) result }
{
    let mut first = None;
    for (k, operand) in operands.iter().enumerate() {
        first = note(
            first,
            operand.at as u64,
            operand.uleb,
            operand.width,
            numbers[k],
        );
    }
    first
}
