//! The supplementary file reads back.

ghost use Rattle.std.specs.Prelude.{◌≡◌, ◌≢◌, ◌<◌, ◌^◌, [], ℕ, List, length, true, unwrap_or};
ghost use Rattle.dwz_def_reading.specs.ElfFaults.{IsElfFaultFor, read_back};
ghost use Rattle.dwz_def_reading.specs.PlainFile.{AreKnown, FitsPlain, PlainSection, plain_file, supplementary_sections};
ghost use Rattle.dwz_def_reading.specs.Supplementary.{sup_bytes};
ghost use Rattle.dwz_def_reading.specs.Files.{debug_abbrev, debug_aranges, debug_info, section_of, sources_of};
ghost use Rattle.dwz_model.specs.declared.fault.Fault.{Fault};
ghost use Rattle.dwz_model.specs.declared.sections.Sections.{Sections};
ghost use Rattle.dwz_def_output.specs.PlainBack.{EachSupplementary, OnlySup, plain_content, sources_in};

/// A file of the plain layout whose sections are known, none of them an index: it has no fault of a file that is read back, and the
/// section of each code is the first that was given for it.
pub fn plain_back_laws()
    ensures back { (machine flags : ℕ) (sections : List PlainSection) → FitsPlain machine flags sections → AreKnown sections
        → OnlySup sections
        → (f : Fault) → ¬ IsElfFaultFor read_back (plain_file machine flags sections) f }
    ensures contents { (machine flags : ℕ) (sections : List PlainSection) → FitsPlain machine flags sections → (code : ℕ) → code ≢ 0
        → section_of (plain_file machine flags sections) code ≡ plain_content sections code }
{}

/// The supplementary file is such a file: none of its sections is an index, and each is read as it was given, with fewer than 2^32
/// bytes.
pub fn supplementary_laws()
    ensures only { (s : Sections) (sum : List ℕ) → OnlySup (supplementary_sections s sum) }
    ensures info { EachSupplementary (λ s sum out. debug_info out ≡ s.info) }
    ensures abbrevs { EachSupplementary (λ s sum out. debug_abbrev out ≡ s.«abbrev») }
    ensures sources { EachSupplementary (λ s sum out. sources_of out ≡ sources_in s) }
    ensures ranges { EachSupplementary (λ s sum out. debug_aranges out ≡ unwrap_or s.aranges []) }
    ensures sup { EachSupplementary (λ s sum out. section_of out 9 ≡ sup_bytes (record { supplementary = true; name = []; sum = sum })) }
    ensures short { EachSupplementary (λ s sum out. (code : ℕ) → length (section_of out code) < 2 ^ 32) }
{}
