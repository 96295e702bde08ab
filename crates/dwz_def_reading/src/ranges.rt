//! What holds between how sets of address ranges are spelled, how they are read, and why they aren't.

ghost use Rattle.std.specs.Prelude.{◌≡◌, ◌↔◌, ℕ, Bool, List, Ok, Err};
ghost use Rattle.dwz_bytes.specs.Input.{Input};
ghost use Rattle.dwz_model.specs.declared.fault.Fault.{Fault};
ghost use Rattle.dwz_def_reading.specs.Ranges.{IsSetsFault, RangeSet, SpellsSets, sets_at};

/// Sets of address ranges, whichever numbers are those of units: what is read of all bytes is spelled by them, what is spelled
/// is read, and a fault is answered exactly where it is that of the first bad set.
pub fn range_laws()
    ensures read { (is_unit : ℕ → Bool) (i : Input) (sets : List RangeSet)
        → (sets_at is_unit i ≡ Ok sets) ↔ SpellsSets is_unit sets i.at i.rest }
    ensures fault { (is_unit : ℕ → Bool) (i : Input) (f : Fault) → (sets_at is_unit i ≡ Err f) ↔ IsSetsFault is_unit i.at i.rest f }
{}
