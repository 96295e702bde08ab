//! What holds of what units take from a finished common file.

ghost use Rattle.dwz_def_taken.specs.Laws.{AcrossLaw, CopiesLaw, CopyLaw, FilesOverLaw, FreeLaw, GreatestLaw, NamedOverLaw, OneFixedLaw, PlanLaw, TakersLaw};
ghost use Rattle.dwz_def_taken.specs.Laws.{TakesAlongLaw};
ghost use Rattle.dwz_def_taken.specs.MoveLaws.{SameOverLaw, ServesLaw, StandingLaw};

/// Laws on what is taken, and what is left.
///
/// What is taken and what is blocked is fixed by one row of lists. What a unit takes is what is left once all is taken away that it can't
/// take, or that refers to what was taken away. The tops that may be shared among the units of the files are those that are free, and alike
/// in one file. Alike tops of the common file have one copy, and just the entries have one copy that are copies.
pub fn taken_laws()
    ensures one { OneFixedLaw }
    ensures greatest { GreatestLaw }
    ensures along { TakesAlongLaw }
    ensures free { FreeLaw }
    ensures copy { CopyLaw }
    ensures copies { CopiesLaw }
{}

/// Laws on files that are written over a finished common file.
///
/// Over none the move is the plan of the files. A unit imports a partial unit of the common file exactly if it takes it. All is at its own
/// name where places differ. Then just the tops of the files may move that may without the common file; its units stand after as they stood
/// before; and all that stands after is the same along images, where copies count as one place.
pub fn over_laws()
    ensures plan { PlanLaw }
    ensures takers { TakersLaw }
    ensures names { NamedOverLaw }
    ensures across { AcrossLaw }
    ensures files { FilesOverLaw }
{}

/// The same of any units, at their names, and of the move alone. The partial unit that it has for a unit of the common file is that unit as
/// it stands. Where copies are one each partial unit serves its users, and so units say the same after as before, along images.
pub fn move_laws()
    ensures standing { StandingLaw }
    ensures serves { ServesLaw }
    ensures same { SameOverLaw }
{}
