//! Location lists whose operands have new numbers (DWARF 5, 2.6.2 and 7.7.3).

ghost use Rattle.std.specs.Prelude.{◌≡◌, IfOk, length};
ghost use Rattle.dwz_def_expand.specs.OneFile.{OneFile};
ghost use Rattle.dwz_def_expand.specs.Output.{new_lists};
ghost use Rattle.dwz_encode_sections.specs.Numbers.{EndIn};
ghost use Rattle.dwz_expand_sections.specs.Lists.{HasNumbers, rows_with, numbers_of};

use dwz_encode_sections::lists;
use dwz_graph_resolve::ListOperand;
use dwz_model::NoMemory;
use std::alloc::Global;

// Operands that have new numbers, and these.
#[derive(Drop)]
struct Kept {
    rows: Vec<ListOperand>,
    numbers: Vec<u64>,
}

// The operands that have one.
fn kept_rows(
    alloc: Global,
    operands: &[ListOperand],
    numbers: &[Option<u64>],
) -> Result<Kept, NoMemory>
    requires { length numbers.now ≡ length operands.now }
    ensures rows { IfOk result (λ kept. kept.rows.items ≡ rows_with operands.now numbers.now) }
    ensures numbers { IfOk result (λ kept. kept.numbers.items ≡ numbers_of operands.now numbers.now) }
{
    let mut rows = Vec::new(alloc);
    let mut new = Vec::new(alloc);
    for (i, operand) in operands.iter().enumerate() {
        if let Some(number) = numbers[i] {
            rows.push(*operand)?;
            new.push(number)?;
        }
    }
    Ok(Kept { rows, numbers: new })
}

/// `.debug_loclists` of the file: each operand that has a new number has it in its old width and spelling, and all other bytes are as they
/// were. An operand has none where no value of the new file names its list: the list is named in the root of a partial unit, or where one
/// is imported. The operands are those of the file, in order of place; none shares a byte with another.
pub fn lists_after(
    alloc: Global,
    section: &[u8],
    operands: &[ListOperand],
    numbers: &[Option<u64>],
) -> Result<Vec<u8>, NoMemory>
    requires as_many { length numbers.now ≡ length operands.now }
    requires within { EndIn (length section.now) operands.now }
    ensures { (f : OneFile) → HasNumbers f section.now operands.now numbers.now → IfOk result (λ out. out.items ≡ new_lists f) }
{
    let Kept { rows, numbers } = kept_rows(alloc, operands, numbers)?;
    lists(alloc, section, rows.as_slice(), numbers.as_slice())
}
