//! What holds of the units of files that read, as they are written, before it is known whether operands have room for their numbers.

ghost use Rattle.dwz_def_readback.specs.Sound.{FilesSoundLaw, RunApartLaw};

/// The units of the common file and of each file are sound (DWARF 5, 7.5): their tags, names and values are such as a file can store. No
/// name stands twice in all of them.
pub fn sound_laws()
    ensures sound { FilesSoundLaw }
    ensures apart { RunApartLaw }
{}
