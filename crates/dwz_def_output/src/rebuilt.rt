//! An ELF file that is made from another reads back.

ghost use Rattle.std.specs.Prelude.{◌≡◌, ◌==◌, ◌&&◌, ◌||◌, ◌^◌, ℕ, ◌<◌, List, Option, None, is_some, length, slice_index, unwrap_or};
ghost use Rattle.dwz_def_reading.specs.ElfFaults.{IsElfFaultFor, read_back};
ghost use Rattle.dwz_def_reading.specs.ElfHeaders.{file_header};
ghost use Rattle.dwz_def_reading.specs.ElfLayout.{Changes, keep_end, new_count, rebuilt_length};
ghost use Rattle.dwz_def_reading.specs.ElfNames.{sections_in};
ghost use Rattle.dwz_def_reading.specs.ElfReading.{elf_fault, elf_of, section_range};
ghost use Rattle.dwz_def_reading.specs.Files.{debug_abbrev, debug_aranges, debug_info, section_of, sources_of};
ghost use Rattle.dwz_model.specs.declared.fault.Fault.{Fault};
ghost use Rattle.dwz_model.specs.declared.sections.Sections.{Sections};
ghost use Rattle.dwz_def_output.specs.Changed.{CanGiveAll, EachChanged, changes_by, sources_after};
ghost use Rattle.dwz_def_output.specs.Rebuilt.{AreCarried, CanBeMade, CanChange, EachMade, HasSameFields, IsAdded, IsTableField, new_file};
ghost use Rattle.dwz_def_output.specs.Rebuilt.{new_for};

/// The file that is made from one without a fault, with new contents for some of its sections, and perhaps with `.debug_sup`
/// behind them. It has the length that its layout says. It has no fault of a file that is read back, and where nothing is added
/// none of a file that is read first. Its file header is the same, but for where the section headers are and how many. The section
/// of each code has its new content, or else its old one, with fewer than 2^32 bytes; and none with a code is lost, or added but
/// `.debug_sup`. So has each other section, by its index: it is the same but for where it stands, and only the name table gets a
/// name more. What is added is the last section. And the bytes that are kept are the old ones, but for two fields of the file
/// header.
pub fn rebuilt_laws()
    ensures length { (input : List ℕ) (changes : Changes) (order : List (ℕ × ℕ)) → CanBeMade input changes order
        → length (new_file input changes order) ≡ rebuilt_length (elf_of input) changes input order }
    ensures reads { EachMade (λ input changes out. changes.sup ≡ None → elf_fault out ≡ None) }
    ensures back { EachMade (λ input changes out. (f : Fault) → ¬ IsElfFaultFor read_back out f) }
    ensures fields { EachMade (λ input changes out. HasSameFields (new_count (elf_of input) changes) (file_header input)
        (file_header out)) }

    ensures contents { EachMade (λ input changes out. (code : ℕ)
        → section_of out code ≡ unwrap_or (new_for changes code) (section_of input code)) }
    ensures short { EachMade (λ input changes out. (code : ℕ) → length (section_of out code) < 2 ^ 32) }
    ensures there { EachMade (λ input changes out. (code : ℕ)
        → is_some (section_range (sections_in out) code)
        ≡ (is_some (section_range (sections_in input) code) || (code == 9 && is_some changes.sup))) }
    ensures carried { EachMade AreCarried }
    ensures added { EachMade IsAdded }
    ensures loaded { EachMade (λ input changes out. (at : ℕ) → at < keep_end (elf_of input) → ¬ IsTableField at
        → slice_index out at ≡ slice_index input at) }
{}

/// The same where the tool's own sections are given: they can be given wherever they are there and have bytes, or stay empty; and each
/// that is given is found, and else the old one.
pub fn changed_laws()
    ensures can { (input : List ℕ) (s : Sections) (sup : Option (List ℕ)) → CanGiveAll input s
        → CanChange (sections_in input) (changes_by s sup) }
    ensures info { EachChanged (λ input s sup out. debug_info out ≡ s.info) }
    ensures abbrevs { EachChanged (λ input s sup out. debug_abbrev out ≡ s.«abbrev») }
    ensures sources { EachChanged (λ input s sup out. sources_of out ≡ sources_after input s) }
    ensures ranges { EachChanged (λ input s sup out. debug_aranges out ≡ unwrap_or s.aranges (debug_aranges input)) }
    ensures sup { EachChanged (λ input s sup out. section_of out 9 ≡ unwrap_or sup (section_of input 9)) }
{}
