//! What the sources of new units say, and what is the same along a function of places.

ghost use Rattle.std.specs.Prelude.{ℕ};
ghost use Rattle.dwz_def_reading.specs.Places.{Place};
ghost use Rattle.dwz_expand_passes.specs.CopiesOf.{CopiesLaw};
ghost use Rattle.dwz_expand_passes.specs.Lined.{LinesLaw};
ghost use Rattle.dwz_expand_passes.specs.Numbered.{NumbersLaw};
ghost use Rattle.dwz_expand_passes.specs.OfFile.{FileLaw};
ghost use Rattle.dwz_expand_passes.specs.Renamed.{RenamedLaw};

/// The entries of a new unit, by the numbers of their sources, stand as deep as these.
pub fn depth_laws()
    ensures { LinesLaw }
{}

/// Copies have the numbers that are counted; and new units that have the copies of those sources, with what these store, show the units
/// of the file that is written without its partial ones.
pub fn copy_laws()
    ensures numbers { NumbersLaw }
    ensures copies { CopiesLaw }
{}

/// Where numbers stand for places of a file and of its common one, such units are laid and written as the new sections of the file have
/// them, and each unit and each copy stands where it does after.
pub fn file_laws()
    ensures { FileLaw }
{}

/// What is written without partial units, where numbers stand for places, is what is written where places do.
pub fn place_laws()
    ensures { RenamedLaw ℕ Place }
{}
