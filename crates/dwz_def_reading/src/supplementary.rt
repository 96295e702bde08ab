//! The section that ties a file and a supplementary file together (DWARF 5, 7.3.6).

ghost use Rattle.std.specs.Prelude.{◌≡◌, ℕ, ◌^◌, ◌<◌, ◌↔◌, List, Some, length};
ghost use Rattle.dwz_def_reading.specs.declared.supplementary.Sup.{Sup};
ghost use Rattle.dwz_def_reading.specs.Supplementary.{SpellsSup, read_sup, sup_bytes};
ghost use Rattle.dwz_def_reading.specs.Texts.{NoZero};

use dwz_model::Blob;

/// What `.debug_sup` says.
#[derive(Debug, Drop)]
pub struct Sup {
    /// Whether the file that has it is the supplementary one.
    pub supplementary: bool,
    /// The name of the other file, in the file that isn't the supplementary one.
    pub name: Blob,
    /// The checksum of the supplementary file.
    pub sum: Blob,
}

/// `.debug_sup`: what is read is spelled and the other way round, so nothing else is spelled by the same bytes; what is written
/// of a name without a zero byte and a checksum of fewer than 2^64 bytes spells it.
pub fn sup_laws()
    ensures read { (bytes : List ℕ) (s : Sup) → (read_sup bytes ≡ Some s) ↔ SpellsSup bytes s }
    ensures written { (s : Sup) → NoZero s.name → length s.sum < 2 ^ 64 → SpellsSup (sup_bytes s) s }
{}
