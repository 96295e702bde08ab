//! Places and sections of some of the files.

ghost use Rattle.dwz_def_readback.specs.Fewer.{FilterSomeLaw, SameRoomLaw, SameSectionsLaw, SomeOnceLaw, SomePlacesLaw};
ghost use Rattle.dwz_def_readback.specs.Runs.{NamesInRunLaw, OnceInRunLaw, PlacesInRunLaw, RoomInRunLaw, SectionsInRunLaw, SomeInRunLaw};

/// Where no name stands twice in all files, none does in some of them, and there each name has the place that it has among all. Units
/// have the same sections under numberings that give the same places to their own names and to what they name, and their operands have
/// room under both. Those members of a list that pass a test are some of it.
pub fn fewer_laws()
    ensures once { SomeOnceLaw }
    ensures places { SomePlacesLaw }
    ensures sections { SameSectionsLaw }
    ensures room { SameRoomLaw }
    ensures filter { FilterSomeLaw }
{}

/// The same of the common file and some files of a run: what these name is written there, so their sections are those that they have
/// among all files, and operands that have room there have it among all.
pub fn run_laws()
    ensures files { SomeInRunLaw }
    ensures once { OnceInRunLaw }
    ensures places { PlacesInRunLaw }
    ensures names { NamesInRunLaw }
    ensures sections { SectionsInRunLaw }
    ensures room { RoomInRunLaw }
{}
