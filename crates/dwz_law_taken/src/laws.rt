//! What rows that show a finished common file say of it.

ghost use Rattle.dwz_law_taken.specs.ShownLaws.{BlockedLaw, ImagesLaw, TakenLaw, TakesLaw};

/// Laws on rows that show files and a finished common file. What they say that a unit takes is just what it takes, and lists of that are
/// those of the definitions. What they say that stands for a top of a unit that may move is what this is taken as: so its image is that. What
/// has to stay by rows of kin is what is blocked.
pub fn shown_laws()
    ensures takes { TakesLaw }
    ensures taken { TakenLaw }
    ensures images { ImagesLaw }
    ensures blocked { BlockedLaw }
{}
