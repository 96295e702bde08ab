//! What stands after says the same as what stood before.

ghost use Rattle.dwz_def_images.specs.SameLaws.{AfterLaw, AloneLaw, ApartLaw, ClosedLaw, EntriesLaw, FileAfterLaw, FilesLaw};
ghost use Rattle.dwz_def_images.specs.SameLaws.{FilesSameLaw, HeldLaw, ImagesLaw, MainsLaw, NamesLaw, PlacedLaw, PlacesLaw, SameLaw};
ghost use Rattle.dwz_def_images.specs.SameLaws.{ServedFileLaw, ServedLaw, ServesLaw, ShownLaw, StandsLaw, StillLaw, TypesLaw};

/// Laws on units with names, before and after, for any test that finds tops alike exactly where they are, in either scope, and any
/// choice of those that move.
///
/// Units of files whose places differ are at their names, by one function from places to names. The units of the common file and of
/// each file are all that stand after, and a file of which nothing moves has its units as they were, at their places. No name stands twice
/// among all of them; and the plan is a move as is asked (`IsHeld`). What follows holds of any such move. Each entry there is an old one
/// with its places replaced by their images, or an import, or the root of a partial unit, or a space of one; and type units are kept as
/// they are.
///
/// Along images each entry of a top or of a type unit is after what it was before. Each compile unit keeps its spaces, and has
/// for each list of names, its imports expanded, the images of what stood in spaces with these names. Each reference names an
/// entry; and two entries have one image exactly where they move and nothing tells them apart. An entry in no top shares its
/// image with no other. Of what is the same along images, the units of one file need only these units and the partial units that they
/// use.
///
/// All of that holds also of places that are put for names, one for each name; `together` says it of files at once.
pub fn same_laws()
    ensures names { NamesLaw }
    ensures places { PlacesLaw }
    ensures files { FilesLaw }
    ensures after { AfterLaw }
    ensures file_after { FileAfterLaw }
    ensures still { StillLaw }
    ensures stands { StandsLaw }
    ensures apart { ApartLaw }
    ensures held { HeldLaw }
    ensures serves { ServesLaw }
    ensures served { ServedLaw }
    ensures served_file { ServedFileLaw }
    ensures entries { EntriesLaw }
    ensures types { TypesLaw }
    ensures same { SameLaw }
    ensures closed { ClosedLaw }
    ensures mains { MainsLaw }
    ensures images { ImagesLaw }
    ensures alone { AloneLaw }
    ensures shown { ShownLaw }
    ensures placed { PlacedLaw }
    ensures together { FilesSameLaw }
{}
