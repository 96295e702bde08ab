//! What is written of partial units.

ghost use Rattle.std.specs.Prelude.{◌≡◌, ℕ, ◌+◌, ◌<◌, ◌≤◌, ◌^◌, All, length, IfOk};
ghost use Rattle.dwz_groups.specs.Groups.{grouped};
ghost use Rattle.dwz_layout_items.specs.Chains.{IsRising};
ghost use Rattle.dwz_layout_order.specs.Parts.{IsPart, file_pairs};

use dwz_groups::{Edge, Groups, group};
use dwz_layout::{Sort, UnitItems};
use dwz_layout_items::{SpaceRow, TopSpaces, put_partial};
use dwz_model::{DwzList, NoMemory};
use dwz_plan::Partial;
use std::alloc::Global;

// The number of each partial unit under that of its file.
fn pairs_of(alloc: Global, partials: &[Partial]) -> Result<Vec<Edge>, NoMemory>
    requires { length partials.now < 2 ^ 32 }
    ensures { IfOk result (λ pairs. pairs.items ≡ file_pairs 0 partials.now) }
{
    let mut pairs = Vec::with_capacity(alloc, partials.len())?;
    for (number, part) in partials.iter().enumerate() {
        pairs.push(Edge {
            key: part.file,
            value: number as u32,
        })?;
    }
    Ok(pairs)
}

/// For each file, and behind all for the common one, the numbers of its partial units in order.
pub fn parts_of_files(alloc: Global, files: u32, partials: &[Partial]) -> Result<Groups, NoMemory>
    requires few { length partials.now < 2 ^ 32 }
    requires files { All (λ part. part.file ≤ files) partials.now }
    ensures { IfOk result (λ groups. groups ≡ grouped (files + 1) (file_pairs 0 partials.now)) }
{
    let pairs = pairs_of(alloc, partials)?;
    group(alloc, files as usize + 1, pairs.as_slice())
}

/// What is written of a partial unit, whose root has a line table at that offset, if it has one.
pub fn part_items(
    alloc: Global,
    rows: &[SpaceRow],
    of_tops: &[TopSpaces],
    tops: &[u32],
    line: Option<u32>,
) -> Result<UnitItems, NoMemory>
    requires rising { IsRising rows.now }
    requires within { All (λ x. x.inner ≤ length rows.now) of_tops.now }
    requires few { length rows.now + 2 < 2 ^ 32 }
    requires few_tops { length tops.now < 2 ^ 32 }
    requires inside { All (λ t. t < length of_tops.now) tops.now }
    ensures items { IfOk result (λ o. IsPart rows.now of_tops.now tops.now o.items) }
    ensures sort { IfOk result (λ o. o.sort ≡ Sort.Partial line) }
{
    let mut items = Vec::new(alloc);
    put_partial(alloc, &mut items, rows, of_tops, tops)?;
    Ok(UnitItems {
        sort: Sort::Partial(line),
        items: DwzList::new(items),
    })
}
