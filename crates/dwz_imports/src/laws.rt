//! Imports as relations, and files that were read.

ghost use Rattle.dwz_imports.specs.ImportLaws.{ImportedLaw, ImportsNoneLaw, SaysAloneLaw, SaysBesideLaw};

/// An entry imports none exactly if it is an import of no partial unit (`IsImport` of `dwz_def_tops`); and the partial units of a list are
/// just those that a child of the root imports.
pub fn import_laws()
    ensures none { ImportsNoneLaw }
    ensures imported { ImportedLaw }
{}

/// A file that was read by itself, or beside a common file, says what `imports_of` asks for, where numbers stand for places.
pub fn said_laws()
    ensures alone { SaysAloneLaw }
    ensures beside { SaysBesideLaw }
{}
