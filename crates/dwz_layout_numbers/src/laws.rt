//! What holds of the numbers of entries, counted over all files.

ghost use Rattle.dwz_layout_numbers.specs.Laws.{ImageLaw, InsideLaw, OneLaw, ReferencesLaw};
ghost use Rattle.dwz_layout_numbers.specs.OwnerLaws.{OwnersLaw};
ghost use Rattle.dwz_layout_numbers.specs.OverLaws.{CommonNamesLaw, CommonOwnersLaw, FilesBesideLaw, TopsBesideLaw};
ghost use Rattle.dwz_layout_numbers.specs.OverLaws.{OverHoldsLaw, OverOrderLaw, OverStandsLaw, OverStillLaw};
ghost use Rattle.dwz_layout_numbers.specs.PlanLaws.{PlanHoldsLaw, PlanOrderLaw, PlanStandsLaw, PlanStillLaw};
ghost use Rattle.dwz_layout_numbers.specs.Reach.{CommonLaw, FileLaw, OnceLaw, OwnLaw};
ghost use Rattle.dwz_layout_numbers.specs.Whole.{EntriesLaw, FilesLaw, TopsLaw};

/// An entry of a top stands as far behind its top as its image behind the top that stands for it; both tops are there. So the numbers of
/// a file's references, which are those of images, lead to the images of what its entries name.
pub fn image_laws()
    ensures image { ImageLaw }
    ensures inside { InsideLaw }
    ensures references { ReferencesLaw }
{}

/// By the indexes of files each file begins where it is counted, its units and tops are among those of all files, and the tops that are
/// counted are the tops; each is an entry of its file. No two entries have one name.
pub fn count_laws()
    ensures files { FilesLaw }
    ensures tops { TopsLaw }
    ensures entries { EntriesLaw }
    ensures one { OneLaw }
{}

/// The owner of an entry that stands for itself is the unit in which its name stands.
pub fn owner_laws()
    ensures { OwnersLaw }
{}

/// A name stands in just one of the units that are written. So the number of that unit tells whether it stands in another one, and in
/// which file.
pub fn reach_laws()
    ensures once { OnceLaw }
    ensures own { OwnLaw }
    ensures common { CommonLaw }
    ensures file { FileLaw }
{}

/// The plan is a move as is asked for: alike tops have one shape, its partial units have their tops, and are in order.
pub fn plan_laws()
    ensures stand { PlanStandsLaw }
    ensures holds { PlanHoldsLaw }
    ensures order { PlanOrderLaw }
    ensures still { PlanStillLaw }
{}

/// So is the move over a finished common file. The entries of that file are numbered behind those of the files, and stand in its units,
/// which are the first of all that are written.
pub fn over_laws()
    ensures stand { OverStandsLaw }
    ensures holds { OverHoldsLaw }
    ensures order { OverOrderLaw }
    ensures still { OverStillLaw }
    ensures names { CommonNamesLaw }
    ensures owners { CommonOwnersLaw }
    ensures files { FilesBesideLaw }
    ensures tops { TopsBesideLaw }
{}
