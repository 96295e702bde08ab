//! Names, joined.

ghost use Rattle.std.specs.Prelude.{◌<◌, ◌^◌, IfOk, length};
ghost use Rattle.dwz_label_join.specs.Joined.{AreNumbersIn};
ghost use Rattle.dwz_label_marks.specs.Told.{Keeps};

use dwz_label_marks::Names;
use dwz_model::NoMemory;
use std::alloc::Global;

/// The numbers that other names have among these, in order. Those that aren't there come behind.
pub fn join(alloc: Global, names: &mut Names, others: &Names) -> Result<Vec<u32>, NoMemory>
    ensures kept { Keeps names.old names.new }
    ensures few { IfOk result (λ numbers. length numbers.items < 2 ^ 32) }
    ensures numbers { IfOk result (λ numbers. AreNumbersIn others.now names.new numbers.items) }
{
    let mut numbers = Vec::with_capacity(alloc, others.len() as usize)?;
    for n in 0..others.len() {
        numbers.push(names.number(others.bytes(n))?)?;
    }
    Ok(numbers)
}
