//! What holds between the spelling of units, reading them, and their faults.

ghost use Rattle.std.specs.Prelude.{◌≡◌, ◌↔◌, ℕ, List, Ok, Err, take};
ghost use Rattle.dwz_model.specs.declared.fault.Fault.{Fault};
ghost use Rattle.dwz_bytes.specs.Input.{Input};
ghost use Rattle.dwz_def_reading.specs.Abbrevs.{Declaration, table_at};
ghost use Rattle.dwz_def_reading.specs.Entries.{IsReadAgain, Mode};
ghost use Rattle.dwz_def_reading.specs.Parts.{AgainFrom, FoundFrom, OneFrom};
ghost use Rattle.dwz_def_reading.specs.Units.{EachEntryOf, IsUnitFault, IsUnitsFault, RawUnit, SpellsUnit, SpellsUnits, context_of, unit_at};
ghost use Rattle.dwz_def_reading.specs.Units.{unit_size, units_at, units_by};

/// Units (DWARF 5, 7.5.1), each with its header, its tree and the zero bytes behind it: what is read is spelled, what is spelled
/// is read whatever follows, no spelling begins another, and reading answers a fault exactly where it is the unit's. Each entry
/// of a unit that is read is read again from its own place among the unit's bytes.
///
/// The same of `.debug_info`, which is a row of units, and a step of reading it: one unit, and then those behind it.
pub fn unit_laws()
    ensures found { (abbrevs : List ℕ) (mode : Mode) (before : ℕ)
        → FoundFrom (SpellsUnit abbrevs mode before) (unit_at abbrevs mode before) }
    ensures again { (abbrevs : List ℕ) (mode : Mode) (before : ℕ)
        → AgainFrom (SpellsUnit abbrevs mode before) (unit_at abbrevs mode before) }
    ensures one { (abbrevs : List ℕ) (mode : Mode) (before : ℕ) → OneFrom (SpellsUnit abbrevs mode before) }
    ensures fault { (abbrevs : List ℕ) (mode : Mode) (before : ℕ) (i : Input) (f : Fault)
        → (unit_at abbrevs mode before i ≡ Err f) ↔ IsUnitFault abbrevs mode before i f }
    ensures each { (abbrevs : List ℕ) (mode : Mode) (before : ℕ) (i j : Input) (u : RawUnit) (table : List Declaration)
        → unit_at abbrevs mode before i ≡ Ok (u, j) → table_at abbrevs u.table_offset ≡ Ok table
        → EachEntryOf (IsReadAgain (context_of i mode table) i.at (take (unit_size i.rest) i.rest)) before u }

    ensures units_found { (abbrevs : List ℕ) (mode : Mode) (before : ℕ) (i : Input) (units : List RawUnit)
        → units_at abbrevs mode before i ≡ Ok units → SpellsUnits abbrevs mode before units i.at i.rest }
    ensures units_again { (abbrevs : List ℕ) (mode : Mode) (before at : ℕ) (units : List RawUnit) (bytes : List ℕ)
        → SpellsUnits abbrevs mode before units at bytes → units_at abbrevs mode before (record { at = at; rest = bytes }) ≡ Ok units }
    ensures units_one { (abbrevs : List ℕ) (mode : Mode) (before at : ℕ) (units others : List RawUnit) (bytes : List ℕ)
        → SpellsUnits abbrevs mode before units at bytes → SpellsUnits abbrevs mode before others at bytes → units ≡ others }
    ensures units_fault { (abbrevs : List ℕ) (mode : Mode) (before : ℕ) (i : Input) (f : Fault)
        → (units_at abbrevs mode before i ≡ Err f) ↔ IsUnitsFault abbrevs mode before i.at i.rest f }
    ensures units_step { (abbrevs : List ℕ) (mode : Mode) (before : ℕ) (i : Input)
        → units_at abbrevs mode before i ≡ units_by (units_at abbrevs mode) abbrevs mode before i }
{}
