//! What holds of tops that may move, of looks at them, and of tops that are alike.

ghost use Rattle.std.specs.Prelude.{◌≡◌, ◌↔◌, ℕ, true, List, length};
ghost use Rattle.dwz_def_reading.specs.Lists.{In};
ghost use Rattle.dwz_def_tops.specs.Alike.{Alike, Bound, IsAlike, Look, Movable, TopScope, refers_to};
ghost use Rattle.dwz_def_tops.specs.Deciding.{alike_test, bound_test, is_movable, look_test};
ghost use Rattle.dwz_def_tops.specs.Spots.{EntryName, FileUnit, Top, tops_of};
ghost use Rattle.dwz_def_tops.specs.Targets.{targets_of};

/// The targets of a top are just the tops that it refers to.
///
/// Laws on the tops of any units; n is how many tops there are. A top that some chain of references binds is bound by one of n
/// references at most. So the test of such chains says which tops are bound, and which are movable. Of two movable tops the
/// test of looks of a depth says what a look of that depth says, and where a look of depth n finds them equal, so do looks of
/// every depth. So the test of alike tops decides in either scope: it is true exactly of the numbers of two tops in one scope
/// that are alike. Being alike is an equivalence of movable tops: each is alike to itself, two that are alike are so in either
/// order, and two that are alike to a third are alike.
pub fn alike_laws()
    ensures targets { (t : Top) (n : ℕ) → In n (targets_of t) ↔ (refers_to n t ≡ true) }
    ensures bound { (units : List (FileUnit EntryName)) (t : Top) → In t (tops_of units)
        → (bound_test units (length (tops_of units)) t ≡ true) ↔ ((k : ℕ) × Bound units k t.number) }
    ensures movable { (units : List (FileUnit EntryName)) (t : Top) → In t (tops_of units)
        → (is_movable units t ≡ true) ↔ Movable units t.number }
    ensures looks { (units : List (FileUnit EntryName)) (k m n : ℕ) → Movable units m → Movable units n
        → (look_test (tops_of units) k m n ≡ true) ↔ Look (tops_of units) k m n }
    ensures every { (units : List (FileUnit EntryName)) (m n : ℕ) → Movable units m → Movable units n
        → Look (tops_of units) (length (tops_of units)) m n → (k : ℕ) → Look (tops_of units) k m n }
    ensures decides { (scope : TopScope) (units : List (FileUnit EntryName)) → IsAlike scope units (alike_test scope units) }
    ensures equal { (units : List (FileUnit EntryName)) → ((n : ℕ) → Movable units n → Alike units n n)
        × ((m n : ℕ) → Alike units m n → Alike units n m) × ((l m n : ℕ) → Alike units l m → Alike units m n → Alike units l n) }
{}
