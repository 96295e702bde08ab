//! What holds of the names of units and entries, and of the numbers of tops.

ghost use Rattle.dwz_def_tops.specs.SpotLaws.{FoundLaw, NumbersLaw};

/// Each place of a unit, of its root or of an entry has a name that the units of its file give at this place. The number of a top says
/// where it stands among the tops of all units.
pub fn name_laws()
    ensures found { FoundLaw }
    ensures numbers { NumbersLaw }
{}
