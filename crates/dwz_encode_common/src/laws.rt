//! What the units of the common file say.

ghost use Rattle.dwz_encode_common.specs.CommonLaws.{CommonPathsLaw, CommonTextsLaw};
ghost use Rattle.dwz_encode_common.specs.Numbers.{NumberLaw};
ghost use Rattle.dwz_encode_common.specs.Pooled.{NameNotPooledLaw, NotPooledLaw, PooledLaw};
ghost use Rattle.dwz_encode_common.specs.Sections.{FewTextsLaw};
ghost use Rattle.dwz_encode_common.specs.Shared.{InCommonLaw, PlacedLaw, SharedLaw};
ghost use Rattle.dwz_encode_common.specs.SharedLaws.{KnowCommonLaw, SharedNamesLaw, SharedTextsLaw};

/// The texts of what is written of the units of the common file, each once, are its texts; and the paths of the files that they number,
/// each once, are those of its line table.
pub fn common_laws()
    ensures texts { CommonTextsLaw }
    ensures paths { CommonPathsLaw }
{}

/// A text of a unit of the common file stands in `.debug_str` of that file, and one of another unit that is shared does so too, where the
/// definition of forms says; any other stands where it would if none were shared.
pub fn shared_laws()
    ensures common { InCommonLaw }
    ensures shared { SharedLaw }
    ensures placed { PlacedLaw }
{}

/// The number of a path, where it is there, is the one that the definition of forms gives in the common file.
pub fn number_laws()
    ensures { NumberLaw }
{}

/// Once the lists have the texts and the paths of the common file (DWARF 5, 7.3.6), all that is written of that file is known: each text
/// stands among them, and each number of a file is that of its path. And where a file is to share these texts, or those of a common file
/// that stands, those of an entry that is written in its own file stand in a unit of that file where the definition of forms says, if they
/// stood there as long as it shared none; so do the names of its spaces.
pub fn sharing_laws()
    ensures common { KnowCommonLaw }
    ensures texts { SharedTextsLaw }
    ensures names { SharedNamesLaw }
{}

/// Once the lists have the texts of the common file, each that its units write is one of these, which get no new numbers where texts of a
/// file do. And where all texts stood as they were read before, none is that is written in its own file, nor the name of a space there,
/// also over a common file that stands.
pub fn pooled_laws()
    ensures common { PooledLaw }
    ensures entries { NotPooledLaw }
    ensures names { NameNotPooledLaw }
{}

/// Where the two sections of the common file that hold its texts and its paths have their lengths, all that is written of files can name
/// these texts.
pub fn section_laws()
    ensures { FewTextsLaw }
{}
