//! Laws on classes and kin.

ghost use Rattle.dwz_match.specs.Bare.{BareLaw};
ghost use Rattle.dwz_match.specs.ClassLaws.{ClassLaw, CountLaw, FlagsLaw, KinLaw};
ghost use Rattle.dwz_match.specs.RowLaws.{MatchLaw, RowsLaw};

/// Laws on the least alike tops. Of all tops that looks go over, of files and of the common file, they are classes: a top of the files that
/// may move has that of a top of the common file exactly if it is alike to it. Of the files alone they give the kin of each top.
/// Looks go over as many tops as files and common file have, and their flags come behind each other.
pub fn match_laws()
    ensures classes { ClassLaw }
    ensures kin { KinLaw }
    ensures count { CountLaw }
    ensures flags { FlagsLaw }
{}

/// A law on labels and targets of all tops. Of the files those are bare labels, without languages; of the common file what looks across
/// files have. Then they show the tops that looks go over, so that the least alike tops come of them.
pub fn bare_laws()
    ensures { BareLaw }
{}

/// Laws on rows whose classes are the least alike tops of all that looks go over, and that have for units their tops that may move, and for
/// partial units theirs. With the names of spaces and what partial units refer to they show files and common file; with kin and targets
/// they show all that `fixed` asks for.
pub fn row_laws()
    ensures rows { RowsLaw }
    ensures all { MatchLaw }
{}
