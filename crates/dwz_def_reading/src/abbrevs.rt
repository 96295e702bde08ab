//! What holds between the spelling of abbreviation tables, reading them and writing them.

ghost use Rattle.std.specs.Prelude.{◌≡◌, ◌↔◌, ◌<◌, ℕ, AllPairs, List, Ok, Err, []};
ghost use Rattle.dwz_model.specs.declared.fault.Fault.{Fault};
ghost use Rattle.dwz_bytes.specs.Laws.{One};
ghost use Rattle.dwz_def_reading.specs.Abbrevs.{Declaration, FitsTable, IsBadTable, SpellsTable, by_code, declarations_at, find_decl, table_at};
ghost use Rattle.dwz_def_reading.specs.Abbrevs.{table_bytes};
ghost use Rattle.dwz_def_reading.specs.Faults.{bad_abbrev};
ghost use Rattle.dwz_def_reading.specs.Parts.{Again, Found, StandsAt};

/// Abbreviation tables: what is read is spelled, what is spelled is read whatever follows, no spelling begins another. A table
/// is read at an offset exactly where one stands there, and a fault is answered exactly where declarations break off. What is
/// written of a table spells it where the table can be spelled, and each that is spelled can be.
pub fn table_laws()
    ensures found { Found SpellsTable (declarations_at []) }
    ensures again { Again SpellsTable (declarations_at []) }
    ensures one { One SpellsTable }
    ensures here { (section : List ℕ) (at : ℕ) (table : List Declaration)
        → (table_at section at ≡ Ok table) ↔ StandsAt SpellsTable section at table }
    ensures fault { (section : List ℕ) (at : ℕ) (f : Fault)
        → (table_at section at ≡ Err f) ↔ ((place : ℕ) × (f ≡ bad_abbrev place) × IsBadTable section at place) }
    ensures written { (table : List Declaration) → FitsTable table → SpellsTable (table_bytes table) table }
    ensures fits { (bytes : List ℕ) (table : List Declaration) → SpellsTable bytes table → FitsTable table }
{}

/// Tables by ascending code: codes ascend, each leads to the same declaration as before, and the table still can be spelled.
/// A table whose codes ascend is as before.
pub fn order_laws()
    ensures ascends { (table : List Declaration) → FitsTable table → AllPairs (λ d e. d.code < e.code) (by_code table) }
    ensures same { (table : List Declaration) (code : ℕ) → FitsTable table → find_decl (by_code table) code ≡ find_decl table code }
    ensures fits { (table : List Declaration) → FitsTable table → FitsTable (by_code table) }
    ensures kept { (table : List Declaration) → AllPairs (λ d e. d.code < e.code) table → by_code table ≡ table }
{}
