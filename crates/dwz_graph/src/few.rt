//! Files have few entries together.

ghost use Rattle.dwz_graph.specs.Few.{AllLaw, EntriesLaw, FileLaw, NamesLaw};

/// Files that are kept have no more than 2^24 entries together, each of which has a name. So the numbers of their units, tops and
/// spaces, and those of their entries, are no greater.
pub fn few_laws()
    ensures entries { EntriesLaw }
    ensures names { NamesLaw }
    ensures each { FileLaw }
    ensures all { AllLaw }
{}
