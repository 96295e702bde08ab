//! The name lists of entries: the names of the spaces that they stand in, outermost first.

ghost use Rattle.std.specs.Prelude.{◌≡◌, ℕ, ◌+◌, ◌<◌, ◌^◌, List, IfOk, OnOk, Some, length, slice_get};
ghost use Rattle.dwz_def_check.specs.CrossNames.{cross_names_from};
ghost use Rattle.dwz_def_reading.specs.Documents.{DwUnit};
ghost use Rattle.dwz_check_index.specs.Index.{Called, names_in};
ghost use Rattle.dwz_check_index.specs.declared.index.CrossStarts.{CrossStarts};
ghost use Rattle.dwz_check_sides.specs.Names.{AreApart, HaveListNumbers, IsListNumber, Keeps, is_space_kind};
ghost use Rattle.dwz_check_sides.specs.Says.{IsSide, SaysSome};

use crate::lists::NameLists;
use crate::side::Side;
use crate::texts::name_of;
use dwz_check_index::Stands;
use dwz_model::NoMemory;
use std::alloc::Global;

// Whether an entry is a space of a compile or partial unit.
fn is_space(stands: Stands) -> bool
    ensures { result ≡ is_space_kind stands }
{
    match stands {
        Stands::UnitSpace(_) => true,
        Stands::PartialSpace => true,
        _ => false,
    }
}

// The number for the next entry, where those before it have these.
fn next_number<'f>(
    side: &Side<'f, '_>,
    known: &mut NameLists<'f>,
    numbers: &[u32],
    first: u32,
) -> Result<u32, NoMemory>
    requires said { SaysSome side.now }
    requires within { length numbers.now < length side.now.index.now.steps }
    requires some { 0 < first }
    requires room { first + length numbers.now < 2 ^ 32 }
    ensures apart { AreApart known.old (first + length numbers.now) → OnOk result (AreApart known.new (first + length numbers.now + 1)) }
    ensures kept { OnOk result (Keeps known.old known.new) }
    ensures number { (said : List (DwUnit ℕ)) (starts : CrossStarts) (x : Called) → IsSide side.now said starts
        → HaveListNumbers known.old (cross_names_from 0 starts.top said) numbers.now
        → slice_get (cross_names_from 0 starts.top said) (length numbers.now) ≡ Some x
        → IfOk result (λ number. IsListNumber known.new (names_in x.1) number) }
{
    let entry = numbers.len();
    let index = side.index;
    let step = index.steps[entry];
    if !is_space(step.stands) {
        return Ok(0);
    }
    let name = name_of(side, entry as u32);
    let number = known.number(numbers[step.up as usize], name, first + entry as u32)?;
    Ok(number)
}

/// The numbers of the name lists of the entries of a file: where one is a space, of the names down to its own, and else 0. New names and
/// new lists get numbers from `first` on, as many at most as there are entries; those that others have are below it.
pub fn space_lists<'f>(
    alloc: Global,
    side: &Side<'f, '_>,
    known: &mut NameLists<'f>,
    first: u32,
) -> Result<Vec<u32>, NoMemory>
    requires said { SaysSome side.now }
    requires some { 0 < first }
    requires room { first + length side.now.index.now.steps < 2 ^ 32 }
    ensures apart { AreApart known.old first → OnOk result (AreApart known.new (first + length side.now.index.now.steps)) }
    ensures kept { OnOk result (Keeps known.old known.new) }
    ensures len { IfOk result (λ numbers. length numbers.items ≡ length side.now.index.now.steps) }
    ensures numbers { (said : List (DwUnit ℕ)) (starts : CrossStarts) → IsSide side.now said starts
        → IfOk result (λ numbers. HaveListNumbers known.new (cross_names_from 0 starts.top said) numbers.items) }
{
    let index = side.index;
    let count = index.steps.len();
    let mut numbers = Vec::with_capacity(alloc, count)?;
    while numbers.len() < count {
        let number = next_number(side, known, numbers.as_slice(), first)?;
        numbers.push(number)?;
    }
    Ok(numbers)
}
