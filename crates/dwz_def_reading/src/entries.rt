//! What holds between the spelling of entries and their attributes, reading them, and their faults.

ghost use Rattle.std.specs.Prelude.{◌≡◌, ◌↔◌, ◌<◌, ℕ, List, Option, Err, length};
ghost use Rattle.dwz_model.specs.declared.fault.Fault.{Fault};
ghost use Rattle.dwz_model.specs.declared.place.Pair.{Pair};
ghost use Rattle.dwz_bytes.specs.Input.{Input};
ghost use Rattle.dwz_codes.specs.Rows.{RowView};
ghost use Rattle.dwz_def_reading.specs.Entries.{IsAttrFault, IsFrontFault, RawEntry, SpellsAttrs, SpellsFront, UnitContext, attrs_at, front_at};
ghost use Rattle.dwz_def_reading.specs.Parts.{AgainFrom, FoundFrom, OneFrom};
ghost use Rattle.dwz_def_reading.specs.Trees.{Position};

/// The attributes of an entry (DWARF 5, 7.5.3): what is read is spelled, what is spelled is read whatever follows, no spelling
/// begins another, and reading answers a fault exactly where it is that of the first value that can't be read.
pub fn attrs_laws()
    ensures found { (rows : List RowView) (entry : ℕ) (pairs : List Pair) → FoundFrom (SpellsAttrs rows pairs) (attrs_at rows entry pairs) }
    ensures again { (rows : List RowView) (entry : ℕ) (pairs : List Pair) → AgainFrom (SpellsAttrs rows pairs) (attrs_at rows entry pairs) }
    ensures one { (rows : List RowView) (pairs : List Pair) → OneFrom (SpellsAttrs rows pairs) }
    ensures fault { (rows : List RowView) (entry : ℕ) (pairs : List Pair) (i : Input) (f : Fault)
        → (attrs_at rows entry pairs i ≡ Err f) ↔ IsAttrFault rows entry pairs i.at i.rest f }
{}

/// Entries without their children, and the ends of sibling lists (7.5.2, 7.5.3), at each position of a unit: the same, and each
/// takes a byte at least.
pub fn entry_laws()
    ensures found { (c : UnitContext) (p : Position) → FoundFrom (λ o at. SpellsFront c p at o) (front_at c p) }
    ensures again { (c : UnitContext) (p : Position) → AgainFrom (λ o at. SpellsFront c p at o) (front_at c p) }
    ensures one { (c : UnitContext) (p : Position) → OneFrom (λ o at. SpellsFront c p at o) }
    ensures some { (c : UnitContext) (p : Position) (at : ℕ) (o : Option RawEntry) (bytes : List ℕ) → SpellsFront c p at o bytes
        → 0 < length bytes }
    ensures fault { (c : UnitContext) (p : Position) (i : Input) (f : Fault) → (front_at c p i ≡ Err f) ↔ IsFrontFault c p i.at i.rest f }
{}
