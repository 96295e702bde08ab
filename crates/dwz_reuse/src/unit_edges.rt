//! Units, and those that they refer into.

ghost use Rattle.std.specs.Prelude.{◌≡◌, ℕ, ◌<◌, List, Ok, Some, OnOk, length, slice_get, true};
ghost use Rattle.dwz_def_reading.specs.Documents.{DwUnit, unit_map};
ghost use Rattle.dwz_def_reading.specs.Meanings.{Around};
ghost use Rattle.dwz_def_reading.specs.Meant.{unit_meaning, units_meaning};
ghost use Rattle.dwz_def_reading.specs.Units.{RawUnit};
ghost use Rattle.dwz_def_taken.specs.Takes.{unit_goes_to};
ghost use Rattle.dwz_def_tops.specs.Alike.{is_in};
ghost use Rattle.dwz_def_tops.specs.Spots.{EntryName};
ghost use Rattle.dwz_move.specs.Known.{KnowsRefs};
ghost use Rattle.dwz_unit.specs.Rows.{units_of};
ghost use Rattle.dwz_reuse.specs.Puts.{PutsIf, PutsUnits};

use crate::entry_edges::put_entries;
use dwz_expr::Operand;
use dwz_graph::here_of;
use dwz_groups::Edge;
use dwz_model::NoMemory;
use dwz_unit::Units;

// Adds an edge from the unit with a number to each that a reference of it goes into.
fn put_unit(
    units: &Units,
    into: &[Option<u32>],
    starts: &[u32],
    n: u32,
    edges: &mut Vec<Edge>,
    operands: &mut Vec<Operand>,
) -> Result<(), NoMemory>
    requires { n < length (units_of units.now) }
    ensures { (around : Around ℕ) (refs : List ℕ) (name : ℕ → EntryName) (u : RawUnit) (v : DwUnit ℕ)
        → KnowsRefs around (units_of units.now) name refs starts.now into.now → slice_get (units_of units.now) n ≡ Some u
        → unit_meaning around u ≡ Ok v → OnOk result
        (PutsIf n (λ q. unit_goes_to (is_in q) (unit_map name v) ≡ true) edges.old.items edges.new.items) }
{
    let unit = units.unit(n);
    let here = here_of(units, n, &unit);
    put_entries(
        units, into, starts, here.first, here.end, n, edges, operands,
    )
}

/// Adds an edge from each unit of a file to each that a reference of it goes into, by their numbers. For each reference of the file is
/// given the unit that it goes into, and for each entry where its references begin.
pub(crate) fn put_units(
    units: &Units,
    into: &[Option<u32>],
    starts: &[u32],
    edges: &mut Vec<Edge>,
    operands: &mut Vec<Operand>,
) -> Result<(), NoMemory>
    ensures { (around : Around ℕ) (refs : List ℕ) (name : ℕ → EntryName) (said : List (DwUnit ℕ))
        → KnowsRefs around (units_of units.now) name refs starts.now into.now → units_meaning around (units_of units.now) ≡ Ok said
        → OnOk result (PutsUnits name said edges.old.items edges.new.items) }
{
    for n in 0..units.len() {
        put_unit(units, into, starts, n, edges, operands)?;
    }
    Ok(())
}
