//! Location lists with other numbers (DWARF 5, 2.6.2 and 7.7.3).
//!
//! Whether each number fits is told by a pass of its own, before (`dwz_encode_operands`).

ghost use Rattle.std.specs.Prelude.{◌≡◌, IfOk, length};
ghost use Rattle.dwz_encode_sections.specs.Numbers.{EndIn, with_numbers};

use crate::numbers::put_number;
use dwz_graph_resolve::ListOperand;
use dwz_model::NoMemory;
use std::alloc::Global;

/// `.debug_loclists` with other numbers: the i-th number stands in the i-th operand, in its old width and spelling, a ULEB128 number
/// padded to that width, any other little-endian; all other bytes are as they were. A number that is too large for its operand loses its
/// upper digits.
pub fn lists(
    alloc: Global,
    section: &[u8],
    operands: &[ListOperand],
    numbers: &[u64],
) -> Result<Vec<u8>, NoMemory>
    requires as_many { length numbers.now ≡ length operands.now }
    requires within { EndIn (length section.now) operands.now }
    ensures { IfOk result (λ out. out.items ≡ with_numbers operands.now numbers.now section.now) }
{
    let mut out = section.to_vec(alloc)?;
    for (i, operand) in operands.iter().enumerate() {
        put_number(
            &mut out,
            operand.at as usize,
            operand.uleb,
            operand.width,
            numbers[i],
        );
    }
    Ok(out)
}
