//! What flags of tops say.

ghost use Rattle.std.specs.Prelude.{◌≡◌, ◌↔◌, true, Bool, List, slice_index_or, false};
ghost use Rattle.dwz_def_reading.specs.Lists.{In};
ghost use Rattle.dwz_def_tops.specs.Alike.{Movable};
ghost use Rattle.dwz_def_tops.specs.Deciding.{AreMovable};
ghost use Rattle.dwz_def_tops.specs.Spots.{EntryName, FileUnit, Top, tops_of};

/// A law on flags of the tops of any units: where they say which tops the test of bound tops finds movable, the flag of a top is set
/// exactly if no chain of references binds it, however long.
pub fn move_laws()
    ensures { (units : List (FileUnit EntryName)) (flags : List Bool) → AreMovable units flags → (t : Top) → In t (tops_of units)
        → (slice_index_or flags t.number false ≡ true) ↔ Movable units t.number }
{}
