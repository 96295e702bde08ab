//! Laws on entries by their numbers.

ghost use Rattle.dwz_check_index.specs.EntryRows.{EntryRowLaw};
ghost use Rattle.dwz_check_index.specs.FilesRead.{FileReadLaw};
ghost use Rattle.dwz_check_index.specs.Mapped.{LaterLaw, MappedLaw};
ghost use Rattle.dwz_check_index.specs.TwoNames.{TwoNamesLaw};

/// The rows of units mean the entries of their documents, in preorder: those from a number on mean the entry with that number, and all
/// that is below it.
pub fn entry_laws()
    ensures { EntryRowLaw }
{}

/// A law on units with other places: the places are called the same, and the tops, roots and spaces are the same with these, in order.
pub fn map_laws<P, Q>()
    ensures { MappedLaw P Q }
{}

/// A law on the numbers of roots and spaces that come behind others: those of each unit begin so much later.
pub fn later_laws<P>()
    ensures { LaterLaw P }
{}

/// A law on two files that were read, beside a common one or without one: one function names the places of both and of the common one as
/// the lists of their names do.
pub fn two_names_laws()
    ensures { TwoNamesLaw }
{}

/// A law on a file that was read, by whichever rule: its entries are few enough for an index, and its document is what its units mean.
pub fn file_laws()
    ensures { FileReadLaw }
{}
