//! What is written can be written, says what it is to say, reads, and means what the file meant.

ghost use Rattle.dwz_law_expand.specs.FormLaws.{FormLaw};
ghost use Rattle.dwz_law_expand.specs.MadeLaws.{DropLaw, MadeLaw, MadeReadLaw, ZeroLaw};
ghost use Rattle.dwz_law_expand.specs.ReadLaws.{ReadLaw};
ghost use Rattle.dwz_law_expand.specs.SameLaws.{SameLaw};

/// A law on a file that reads, beside its common file or without one, and that nothing refuses: the units of the new file can be written, and
/// each value says what its form says.
pub fn form_laws()
    ensures { FormLaw }
{}

/// A law on what has the new sections of such a file: it reads by the rule of files that are given, but for limits, and says the new units,
/// each entry at its place.
pub fn read_laws()
    ensures { ReadLaw }
{}

/// Laws on a file that reads: where it can be laid out with its new sections, and isn't too large, these can be given to it, and what is made
/// so has them; of the file itself, where it has no `.debug_sup`, and else of the file without that section, whose header is zero bytes. And
/// where nothing refuses the file, that reads.
pub fn made_laws()
    ensures alone { MadeLaw }
    ensures without { DropLaw }
    ensures zeros { ZeroLaw }
    ensures reads { MadeReadLaw }
{}

/// A law on such a file and its new units: the file beside its common file and the new units alone mean the same, imports expanded, where the
/// spaces of partial units that a unit imports are spaces of the unit, with the same attributes, and where no value names a space of a partial
/// unit.
pub fn same_laws()
    ensures { SameLaw }
{}
