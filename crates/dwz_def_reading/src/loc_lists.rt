//! What holds between how location lists are spelled, how they are read, and why they aren't.

ghost use Rattle.std.specs.Prelude.{◌≡◌, ◌↔◌, ℕ, List, ◌≤◌, drop, length, Ok, Err};
ghost use Rattle.dwz_model.specs.declared.fault.Fault.{Fault};
ghost use Rattle.dwz_def_reading.specs.Exprs.{ExprContext};
ghost use Rattle.dwz_def_reading.specs.LocLists.{IsListFault, LocList, SpellsList, list_at};
ghost use Rattle.dwz_def_reading.specs.MeaningFaults.{ExactlyOne};
ghost use Rattle.dwz_def_reading.specs.Sequences.{StandsFrom, read_from};

/// Location lists, at a place of the section: what is read stands there, what stands there is read, and a fault is answered
/// exactly where it is the first. So just one list stands there, or there is just one fault.
pub fn list_laws()
    ensures read { (c : ExprContext) (section : List ℕ) (place : ℕ) (l : LocList) → place ≤ length section
        → (read_from (list_at c) section place ≡ Ok l) ↔ StandsFrom (SpellsList c) section place l }
    ensures fault { (c : ExprContext) (section : List ℕ) (place : ℕ) (f : Fault) → place ≤ length section
        → (read_from (list_at c) section place ≡ Err f) ↔ IsListFault c place (drop place section) f }
    ensures one { (c : ExprContext) (section : List ℕ) (place : ℕ) → place ≤ length section
        → ExactlyOne (StandsFrom (SpellsList c) section place) (IsListFault c place (drop place section)) }
{}
