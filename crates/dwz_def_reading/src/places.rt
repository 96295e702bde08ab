//! What units mean doesn't depend on what stands for places.

ghost use Rattle.std.specs.Prelude.{◌≡◌, ℕ, ◌+◌, ◌<◌, ◌≤◌, List, length, map};
ghost use Rattle.dwz_model.specs.Lists.{Each, In};
ghost use Rattle.dwz_def_reading.specs.Documents.{unit_map};
ghost use Rattle.dwz_def_reading.specs.Entries.{Mode};
ghost use Rattle.dwz_def_reading.specs.Faults.{map_ok};
ghost use Rattle.dwz_def_reading.specs.Meanings.{Around, all_places};
ghost use Rattle.dwz_def_reading.specs.Meant.{units_meaning};
ghost use Rattle.dwz_def_reading.specs.NamedLists.{lists_of_units};
ghost use Rattle.dwz_def_reading.specs.OtherPlaces.{AreMapped, LiesBelow, numbered, place_numbered};
ghost use Rattle.dwz_def_reading.specs.Units.{RawUnit, SpellsUnits};

/// Where other things stand for the places of units, these mean the same with other places, or have the same first fault; so they mean
/// the same as in numbers, one for each place of the file and of its supplementary file. They name the same location lists.
pub fn place_laws<P, Q>()
    ensures mapped { (f : P → Q) (bound : ℕ) (a : Around P) (b : Around Q) → AreMapped f bound a b → (units : List RawUnit)
        → Each (LiesBelow bound) units → units_meaning b units ≡ map_ok (map (unit_map f)) (units_meaning a units) }
    ensures numbered { (bound : ℕ) (a : Around P) → ((n : ℕ) → In n a.all → n < bound) → (units : List RawUnit)
        → Each (LiesBelow bound) units
        → units_meaning a units ≡ map_ok (map (unit_map (place_numbered bound a))) (units_meaning (numbered bound a) units) }
    ensures lists { (a : Around P) (b : Around Q) → b.sources ≡ a.sources → b.all ≡ a.all → (units : List RawUnit)
        → lists_of_units b units ≡ lists_of_units a units }
{}

/// Units that are spelled lie below the end of their bytes, and so do their entries.
pub fn bound_laws()
    ensures units { (abbrevs : List ℕ) (mode : Mode) (before : ℕ) (units : List RawUnit) (start : ℕ) (bytes : List ℕ) (bound : ℕ)
        → SpellsUnits abbrevs mode before units start bytes → start + length bytes ≤ bound → Each (LiesBelow bound) units }
    ensures entries { (bound : ℕ) (units : List RawUnit) → Each (LiesBelow bound) units → (n : ℕ) → In n (all_places units) → n < bound }
{}
