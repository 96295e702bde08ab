//! The spaces of the units of a file.

ghost use Rattle.std.specs.Prelude.{◌≡◌, ℕ, ◌+◌, ◌<◌, ◌^◌, List, OnOk, length};
ghost use Rattle.dwz_def_reading.specs.Documents.{DwUnit};
ghost use Rattle.dwz_def_reading.specs.Units.{entries_in};
ghost use Rattle.dwz_check_index.specs.declared.index.CrossStarts.{CrossStarts};
ghost use Rattle.dwz_check_sides.specs.Names.{AreApart, Keeps};
ghost use Rattle.dwz_check_sides.specs.Says.{IsSide, SaysSome};
ghost use Rattle.dwz_reuse.specs.Spaces.{PutsRows, PutsSpaces};
ghost use Rattle.dwz_unit.specs.Rows.{units_of};

use dwz_check_sides::{NameLists, Side, space_lists};
use dwz_groups::Edge;
use dwz_model::NoMemory;
use dwz_unit::Units;
use std::alloc::Global;

// Adds the number of each entry that has one other than 0, under the number of its unit. The first unit has that one.
fn put_rows(
    units: &Units,
    numbers: &[u32],
    first: u32,
    edges: &mut Vec<Edge>,
) -> Result<(), NoMemory>
    requires numbers { length numbers.now ≡ entries_in (units_of units.now) }
    requires few { length numbers.now < 2 ^ 32 }
    requires room { first + length (units_of units.now) < 2 ^ 32 }
    ensures { OnOk result (PutsRows (units_of units.now) numbers.now first (length numbers.now) edges.old.items edges.new.items) }
{
    for (entry, number) in numbers.iter().enumerate() {
        if *number != 0 {
            let unit = units.entry(entry as u32).unit;
            edges.push(Edge {
                key: first + unit,
                value: *number,
            })?;
        }
    }
    Ok(())
}

/// Adds the numbers of the name lists of the spaces of a file's units, each under the number of its unit, where the first unit has that one;
/// those of type units aren't added. Names and lists that have no number get one from `next` on, of which there are as many as the file has
/// entries.
pub(crate) fn put_spaces<'f>(
    alloc: Global,
    side: &Side<'f, '_>,
    known: &mut NameLists<'f>,
    next: u32,
    first: u32,
    edges: &mut Vec<Edge>,
) -> Result<(), NoMemory>
    requires said { SaysSome side.now }
    requires some { 0 < next }
    requires room { next + length side.now.index.now.steps < 2 ^ 32 }
    requires units { first + length (units_of side.now.file.now.units) < 2 ^ 32 }
    ensures apart { AreApart known.old next → OnOk result (AreApart known.new (next + length side.now.index.now.steps)) }
    ensures kept { OnOk result (Keeps known.old known.new) }
    ensures edges { (said : List (DwUnit ℕ)) (starts : CrossStarts) → IsSide side.now said starts → AreApart known.old next
        → OnOk result (PutsSpaces known.new first said edges.old.items edges.new.items) }
{
    let numbers = space_lists(alloc, side, known, next)?;
    put_rows(&side.file.units, numbers.as_slice(), first, edges)?;
    Ok(())
}
