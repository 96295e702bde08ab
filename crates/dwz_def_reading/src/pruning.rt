//! What is used of a section of texts, and what stays of it.

ghost use Rattle.std.specs.Prelude.{◌≡◌, ℕ, List, Contains, IsSome};
ghost use Rattle.dwz_def_reading.specs.Pruning.{new_number, pruned};
ghost use Rattle.dwz_def_reading.specs.Texts.{text_at};

/// Pruning: at the new number of a use the new section has the text that the old one has at the use.
pub fn prune_laws()
    ensures text { (section uses : List ℕ) (used : ℕ) → Contains uses used → IsSome (text_at section used)
        → text_at (pruned section uses) (new_number section uses used) ≡ text_at section used }
{}
