//! What is held where the puts stop.

ghost use Rattle.std.specs.Prelude.{◌≡◌, ℕ, List, ◌∷◌, Some, take};
ghost use Rattle.dwz_outside.specs.declared.puts.Put.{Put};
ghost use Rattle.dwz_outside.specs.Store.{Store, done};
ghost use Rattle.dwz_outside.specs.Told.{FilesSeen};
ghost use Rattle.dwz_run_course.specs.Puts.{AreApart, AreOthers, IsOldOrNew, Prefixes, StopsAmong};

/// After each prefix of puts of which no two are of one name, each name has what it had, or what all puts give it; and once the first
/// is done, its name has its content. What is held after a put has failed is what is held after a prefix.
pub fn stop_laws()
    ensures prefixes { (puts : List Put) (store : Store) → AreApart puts → Prefixes puts store (IsOldOrNew puts store) }
    ensures first { (p : Put) (puts : List Put) (store : Store) (k : ℕ) → AreOthers p.name puts
        → done (p ∷ take k puts) store p.name ≡ Some p.bytes }
    ensures among { (old new : FilesSeen) (puts : List Put) (name : List ℕ) → StopsAmong old new puts name }
{}
