//! Rows of units where other things stand for places.

ghost use Rattle.dwz_law_check.specs.MappedRows.{MappedFilesLaw, MappedRowLaw};

/// Laws on units where other things stand for their places, which are told apart as these are. A row of a unit is a row of the unit with
/// those; and where both of two files have rows of their units, these are rows of the units with those, for as many nodes.
pub fn mapped_laws<P, Q, A, B>()
    ensures rows { MappedRowLaw P A }
    ensures files { MappedFilesLaw P Q A B }
{}
