//! Which tops the operands of a unit name.

ghost use Rattle.std.specs.Prelude.{◌≡◌, ℕ, ◌<◌, List, Ok, Some, true, length, slice_get, OnOk};
ghost use Rattle.dwz_def_tops.specs.Alike.{any_attr};
ghost use Rattle.dwz_def_tops.specs.Spots.{EntryName};
ghost use Rattle.dwz_def_reading.specs.Units.{RawUnit};
ghost use Rattle.dwz_def_reading.specs.Documents.{DwUnit, unit_map};
ghost use Rattle.dwz_def_reading.specs.Meanings.{Around};
ghost use Rattle.dwz_def_reading.specs.Meant.{unit_meaning};
ghost use Rattle.dwz_move.specs.Known.{KnowsRefs, in_unit};
ghost use Rattle.dwz_move.specs.Marked.{MarksIf, expression_names, expression_pins};
ghost use Rattle.dwz_unit.specs.Rows.{units_of};

use crate::marks::{Named, mark_entries};
use dwz_expr::Operand;
use dwz_graph::here_of;
use dwz_model::NoMemory;
use dwz_unit::Units;

/// Marks the tops that operands of expressions of the unit with a number name. For each reference of the file is given the top that it
/// goes into, and for each entry where its references begin.
pub fn mark_unit(
    units: &Units,
    into: &[Option<u32>],
    starts: &[u32],
    n: u32,
    named: &mut Named,
    operands: &mut Vec<Operand>,
) -> Result<(), NoMemory>
    requires { n < length (units_of units.now) }
    ensures any { (around : Around ℕ) (refs : List ℕ) (name : ℕ → EntryName) (u : RawUnit) (v : DwUnit ℕ)
        → KnowsRefs around (units_of units.now) name refs starts.now into.now → slice_get (units_of units.now) n ≡ Some u
        → unit_meaning around u ≡ Ok v → OnOk result
        (MarksIf (λ t. in_unit (any_attr (expression_names t)) (unit_map name v) ≡ true) named.old.by_any.items
        named.new.by_any.items) }
    ensures uleb { (around : Around ℕ) (refs : List ℕ) (name : ℕ → EntryName) (u : RawUnit) (v : DwUnit ℕ)
        → KnowsRefs around (units_of units.now) name refs starts.now into.now → slice_get (units_of units.now) n ≡ Some u
        → unit_meaning around u ≡ Ok v → OnOk result
        (MarksIf (λ t. in_unit (any_attr (expression_pins t)) (unit_map name v) ≡ true) named.old.by_uleb.items
        named.new.by_uleb.items) }
{
    let unit = units.unit(n);
    let here = here_of(units, n, &unit);
    mark_entries(units, into, starts, here.first, here.end, named, operands)
}
