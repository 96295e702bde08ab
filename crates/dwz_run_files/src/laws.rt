//! What holds of files from reading them to laying what is written of them.

ghost use Rattle.dwz_run_files.specs.Stored.{FileLaw, ManyLaw, ReadLaw, RefusedLaw, StoredLaw};
ghost use Rattle.dwz_run_files.specs.NumberLaws.{EntriesLaw, FlagsLaw, PlannedFactsLaw, RoomLaw, SettledFactsLaw};
ghost use Rattle.dwz_run_files.specs.Stood.{StoodLaw};
ghost use Rattle.dwz_run_files.specs.MovedLaws.{MovedLaw, OrderLaw, UsesLaw};
ghost use Rattle.dwz_run_files.specs.Spots.{EntryPlacesLaw, UnitPlacesLaw};

/// Files that were read say their documents, and stored with a flag for each that says whether it is prunable they read as these; what is
/// stored of each is its bytes and its units. There are as many documents and files as contents, and each number below that is one of a
/// file with its index.
pub fn stored_laws()
    ensures read { ReadLaw }
    ensures stored { StoredLaw }
    ensures many { ManyLaw }
    ensures file { FileLaw }
{}

/// Files that don't read are refused with their first fault, which is placed in the file itself or in a section that has a code.
pub fn refused_laws()
    ensures { RefusedLaw }
{}

/// Files that are kept have few units, and few partial units where their plan fits them; and they have few entries. So these have numbers
/// that are less than 2^32.
pub fn room_laws()
    ensures units { RoomLaw }
    ensures entries { EntriesLaw }
{}

/// What is settled of planned files has a flag for each file, which says whether something of it moves. With the numbers of units under
/// these flags the facts of files that were read and planned are facts.
pub fn facts_laws()
    ensures flags { FlagsLaw }
    ensures facts { PlannedFactsLaw }
    ensures settled { SettledFactsLaw }
{}

/// Files that are prepared, whose texts stand as they were read: the texts of each unit of a file that is written stand where the
/// definitions of forms say of a file that shares none, and no entry that it writes is one of the common file. A partial unit has its bases
/// from the unit that its tops were read in (DWARF 5, 7.26).
pub fn stood_laws()
    ensures { StoodLaw }
{}

/// Where all texts stand where the definitions say before any is taken out, the uses that are counted in the order of a file are those of
/// its units after, and each names a text of `.debug_str` (DWARF 5, 7.26); a text of the common file is none. Where just the texts stay
/// that are used, and the lists have moved by that, the lists are still those of the files, and all texts stand where the definitions
/// say, with their new numbers, and those of the common file where they stood; so what is settled can be laid.
pub fn moved_laws()
    ensures uses { UsesLaw }
    ensures moved { MovedLaw }
    ensures order { OrderLaw }
{}

/// Of a file of which something moves: the layout has for each entry, by the number of what stands after for it, where that stands; so
/// `unit_places` has for each unit where it begins after (DWARF 5, 7.5.1).
pub fn spot_laws()
    ensures entries { EntryPlacesLaw }
    ensures units { UnitPlacesLaw }
{}
