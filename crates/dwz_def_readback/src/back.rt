//! What was written reads back: files with a common one.

ghost use Rattle.dwz_def_readback.specs.AllFiles.{AllBackLaw, CanWriteLaw};
ghost use Rattle.dwz_def_readback.specs.Back.{AloneBackLaw, CommonBackLaw, CommonWithinLaw, FileBackLaw, FileOverLaw, OneBackLaw, PlacingLaw, PlacingOverLaw, RangesBackLaw, RangesOverLaw};
ghost use Rattle.dwz_def_readback.specs.Back.{ReadLaw, SameBackLaw, WithinLaw};

/// Laws on what is written of files and a common one. The places of a file that reads differ, and its values are carried. The common
/// file says its units, at the places of their names. Each file of which something moves says its units, read with the common file, whose
/// texts it may name, and by itself, where nothing is in the common file; also where it has just the texts that are used. Each set of
/// address ranges is of the unit of which it was, where that stands after. What all of them say is the same as what was read, along images.
/// Each reference of a file names an entry of it, or of the common file, and each of the common file an entry of that.
///
/// So files that read can be written, and what was made of them reads back together as what was read, if operands have room for their
/// numbers and no section is too long: also with files of which nothing moves, which stay as they are; and without a common file, where
/// nothing is to stand in one. One file by itself does, if something of it moves.
pub fn back_laws()
    ensures read { ReadLaw }
    ensures placing { PlacingLaw }
    ensures common { CommonBackLaw }
    ensures file { FileBackLaw }
    ensures file_over { FileOverLaw }
    ensures ranges_over { RangesOverLaw }
    ensures placing_over { PlacingOverLaw }
    ensures alone { AloneBackLaw }
    ensures ranges { RangesBackLaw }
    ensures same { SameBackLaw }
    ensures within { WithinLaw }
    ensures common_within { CommonWithinLaw }
    ensures can { CanWriteLaw }
    ensures all { AllBackLaw }
    ensures one { OneBackLaw }
{}
