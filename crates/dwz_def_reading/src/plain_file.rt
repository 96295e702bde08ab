//! Files of the plain layout.

ghost use Rattle.std.specs.Prelude.{◌≡◌, ℕ, ◌+◌, ◌*◌, List, length, map};
ghost use Rattle.dwz_def_reading.specs.ElfHeaders.{content, file_header};
ghost use Rattle.dwz_def_reading.specs.ElfNames.{sections_in};
ghost use Rattle.dwz_def_reading.specs.ElfReading.{elf_fault};
ghost use Rattle.dwz_def_reading.specs.PlainFile.{AreKnown, FitsPlain, PlainSection, contents_read, index_fault, plain_fields, plain_file};
ghost use Rattle.dwz_def_reading.specs.PlainFile.{plain_headers_at, plain_sections};

/// A file of the plain layout reads back: it has the length that its layout says; its file header and its sections are read as
/// they were given, the null section first and the name table last; and so are the contents of the sections. Where the sections are
/// known, its first fault is that of the first section with the name of an index or of a section that leads to another file, and
/// where there is none it has no fault.
pub fn plain_file_laws()
    ensures length { (machine flags : ℕ) (sections : List PlainSection) → length (plain_file machine flags sections)
        ≡ plain_headers_at sections + 64 * (length sections + 2) }
    ensures fields { (machine flags : ℕ) (sections : List PlainSection) → FitsPlain machine flags sections
        → file_header (plain_file machine flags sections) ≡ plain_fields machine flags sections }
    ensures sections { (machine flags : ℕ) (sections : List PlainSection) → FitsPlain machine flags sections
        → sections_in (plain_file machine flags sections) ≡ plain_sections sections }
    ensures contents { (machine flags : ℕ) (sections : List PlainSection) → FitsPlain machine flags sections
        → map (λ s. content (plain_file machine flags sections) s.header) (sections_in (plain_file machine flags sections))
        ≡ contents_read sections }
    ensures reads { (machine flags : ℕ) (sections : List PlainSection) → FitsPlain machine flags sections → AreKnown sections
        → elf_fault (plain_file machine flags sections) ≡ index_fault (plain_sections sections) }
{}
