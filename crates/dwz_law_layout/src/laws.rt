//! What is written of entries and of units.

ghost use Rattle.dwz_law_layout.specs.Fitted.{EntriesAfter, EntryLaw, FilesLaw, NodeAfter, StoredLaw, UnitLaw};

/// An entry that was read: where its references lead to what stands for their targets after, and its texts and the numbers of its files are
/// those of where these are written, the attributes that are written of it (DWARF 5, 7.5.4) are those of what it means, with the forms of
/// their values, and, where just the texts stay that are used, with the new numbers of these.
pub fn entry_laws()
    ensures { EntryLaw }
{}

/// A unit: where that holds of all of its entries that were read, and its items show it, the order shows the unit with what is written of
/// its values.
pub fn unit_laws()
    ensures { UnitLaw }
{}

/// Files: where that holds of all of their units, the order shows the files with what is written of their values.
pub fn files_laws()
    ensures { FilesLaw }
{}

/// Entries whose places have names, and then the names of what stands for these after.
pub fn after_laws()
    ensures node { NodeAfter }
    ensures entries { EntriesAfter }
{}

/// What is read of units is stored there (DWARF 5, 7.5.4): values, with names and forms of declarations.
pub fn stored_laws()
    ensures { StoredLaw }
{}
