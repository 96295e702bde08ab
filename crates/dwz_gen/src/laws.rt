//! How long the files of a demonstration are, and that they read.

ghost use Rattle.std.specs.Prelude.{◌≡◌, ℕ, ◌+◌, ◌*◌, ◌≤◌, None, Ok, length};
ghost use Rattle.std.specs.Int.{next_multiple_of};
ghost use Rattle.dwz_gen.specs.Demo.{demo_file, demo_table};
ghost use Rattle.dwz_def_reading.specs.Abbrevs.{table_at, table_bytes};
ghost use Rattle.dwz_def_reading.specs.ElfReading.{elf_fault};

/// A file of a demonstration has 109 bytes a unit, beside the file header, the abbreviation table, the names of the sections and
/// four section headers. With 50 units it has 5880 bytes.
pub fn length_laws()
    ensures length { (n first : ℕ) → length (demo_file n first) ≡ next_multiple_of (64 + 109 * n + 68 + 37) 8 + 4 * 64 }
    ensures fifty { (first : ℕ) → length (demo_file 50 first) ≡ 5880 }
{}

/// A file of a demonstration is an ELF file without a fault, and its abbreviation table reads as it is declared.
pub fn reading_laws()
    ensures elf { (n first : ℕ) → n ≤ 10000 → elf_fault (demo_file n first) ≡ None }
    ensures table { table_at (table_bytes demo_table) 0 ≡ Ok demo_table }
{}
