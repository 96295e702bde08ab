//! What holds of numbers that are changed in place.

ghost use Rattle.std.specs.Prelude.{◌≡◌, ℕ, Bool, List, length, map};
ghost use Rattle.dwz_def_reading.specs.Entries.{RawAttr};
ghost use Rattle.dwz_def_reading.specs.Values.{AreBytes};
ghost use Rattle.dwz_def_reading.specs.Documents.{Expr, Part, Value};
ghost use Rattle.dwz_def_reading.specs.Exprs.{ExprContext, Expression, SpellsExpr, parts_of};
ghost use Rattle.dwz_def_reading.specs.Meanings.{IsExpression, MeaningContext, bytes_of};
ghost use Rattle.dwz_def_reading.specs.Patching.{AreParts, AreUnits, CanPatch, LeadTo, filled, of_units, patched_expr, with_units};
ghost use Rattle.dwz_def_reading.specs.Ranges.{RangeSet, SpellsSets};

/// An expression means parts, and entries beside them. Its parts filled with other numbers, each of which fits its operand and
/// names an entry, spell an expression at any place: it has the same parts and as many bytes, and its operands stand as far from
/// its beginning as they did, and it has an address if that one has. With the numbers that it has, they are its bytes. So an
/// attribute of any unit that holds the bytes of some expression's parts with these numbers means the parts, the entries to which
/// the numbers lead, and an address if that expression has one; the parts that an attribute means are such.
pub fn patch_laws()
    ensures spelled { (c d : ExprContext) (e : Expression) (start at : ℕ) (bytes numbers : List ℕ) → SpellsExpr c e start bytes
        → CanPatch d at e numbers → SpellsExpr d (patched_expr at e numbers) at (filled (parts_of e) numbers) }
    ensures parts { (c : ExprContext) (e : Expression) (start at : ℕ) (bytes numbers : List ℕ) → SpellsExpr c e start bytes
        → length numbers ≡ length e.operands → parts_of (patched_expr at e numbers) ≡ parts_of e }
    ensures address { (e : Expression) (at : ℕ) (numbers : List ℕ) → (patched_expr at e numbers).address ≡ e.address }
    ensures len { (c : ExprContext) (e : Expression) (start : ℕ) (bytes numbers : List ℕ) → SpellsExpr c e start bytes
        → length numbers ≡ length e.operands → length (filled (parts_of e) numbers) ≡ length bytes }
    ensures own { (c : ExprContext) (e : Expression) (start : ℕ) (bytes : List ℕ) → SpellsExpr c e start bytes → AreBytes bytes
        → filled (parts_of e) (map (λ o. o.number) e.operands) ≡ bytes }
    ensures value { (s : MeaningContext ℕ) (a : RawAttr) (parts : List Part) (numbers refs : List ℕ) (address : Bool)
        → AreParts parts address → LeadTo s parts numbers refs → bytes_of a.raw ≡ filled parts numbers
        → IsExpression s a (record { plain = Expr parts; refs = refs; address = address }) }
    ensures given { (s : MeaningContext ℕ) (a : RawAttr) (v : Value ℕ) (parts : List Part) → IsExpression s a v → v.plain ≡ Expr parts
        → AreParts parts v.address }
{}

/// Sets of address ranges with other numbers for their units: where there are as many numbers as sets, and each has four bytes and
/// is that of a unit, the section spells sets of these units at the same places, and is as long.
pub fn patched_range_laws()
    ensures spelled { (is_unit others : ℕ → Bool) (section : List ℕ) (sets : List RangeSet) (numbers : List ℕ)
        → SpellsSets is_unit sets 0 section → length numbers ≡ length sets → AreUnits others numbers
        → SpellsSets others (of_units sets numbers) 0 (with_units sets numbers section) }
    ensures len { (is_unit others : ℕ → Bool) (section : List ℕ) (sets : List RangeSet) (numbers : List ℕ)
        → SpellsSets is_unit sets 0 section → length numbers ≡ length sets → AreUnits others numbers
        → length (with_units sets numbers section) ≡ length section }
{}
