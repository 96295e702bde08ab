//! Which files are pruned.

ghost use Rattle.std.specs.Prelude.{◌≡◌, ◌↔◌, ℕ, List, true};
ghost use Rattle.dwz_def_reading.specs.Documents.{DwUnit};
ghost use Rattle.dwz_def_readback.specs.Prunable.{IsPrunable};
ghost use Rattle.dwz_def_readback.specs.PrunableTest.{is_prunable};

/// A file is prunable, or it isn't: a test tells.
pub fn prunable_laws()
    ensures { (bytes : List ℕ) (units : List (DwUnit ℕ)) → (is_prunable bytes units ≡ true) ↔ IsPrunable bytes units }
{}
