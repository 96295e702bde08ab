//! How long the supplementary file is, and that it reads back.

ghost use Rattle.std.specs.Prelude.{◌≡◌, ℕ, ◌^◌, ◌<◌, List, length};
ghost use Rattle.dwz_def_reading.specs.ElfLayout.{too_large};
ghost use Rattle.dwz_def_reading.specs.PlainFile.{AreKnown, FitsPlain, plain_file, supplementary_sections};
ghost use Rattle.dwz_model.specs.declared.sections.Sections.{Sections};
ghost use Rattle.dwz_def_reading.specs.SupplementaryFile.{common_file};
ghost use Rattle.dwz_sup.specs.Common.{common_length};

/// The supplementary file has the length that its layout says, whatever the checksum is: so it is known before any byte is. Its sections
/// are such that a file of the plain layout reads back: no two have one code, and their numbers fit where the file isn't too large.
pub fn common_laws()
    ensures length { (machine flags : ℕ) (s : Sections) → length (common_file machine flags s) ≡ common_length s }
    ensures known { (s : Sections) (sum : List ℕ) → AreKnown (supplementary_sections s sum) }
    ensures fits { (machine flags : ℕ) (s : Sections) (sum : List ℕ) → machine < 2 ^ 16 → flags < 2 ^ 32
        → length (plain_file machine flags (supplementary_sections s sum)) < too_large
        → FitsPlain machine flags (supplementary_sections s sum) }
{}
