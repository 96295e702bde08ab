//! From the files of a run to all of them.

ghost use Rattle.dwz_graph.specs.AcrossLaws.{EndLaw, EntriesLaw, FileLaw, FoundLaw, ManyLaw, RoomLaw, StartsLaw, TopLaw, UnitLaw};

/// Of files that are kept, and their indexes: there are as many as documents, and each is one of them. Its units and its tops stand among
/// those of all from the numbers on that it begins with, and behind the last file there are none left.
pub fn across_laws()
    ensures many { ManyLaw }
    ensures each { FileLaw }
    ensures starts { StartsLaw }
    ensures end { EndLaw }
    ensures room { RoomLaw }
    ensures found { FoundLaw }
{}

/// Of one of them: its entries have the names of their places, by their numbers, and its tops stand from the entries on that its index
/// gives them.
pub fn entry_laws()
    ensures entries { EntriesLaw }
    ensures tops { TopLaw }
    ensures units { UnitLaw }
{}
