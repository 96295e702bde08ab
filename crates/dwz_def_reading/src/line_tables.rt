//! What holds between line tables that stand in `.debug_line`, and how they are read.

ghost use Rattle.std.specs.Prelude.{◌≡◌, ◌<◌, ◌↔◌, ℕ, List, Ok, Err, length};
ghost use Rattle.dwz_model.specs.declared.fault.Fault.{Fault};
ghost use Rattle.dwz_def_reading.specs.LineTables.{FileTable, IsFileTable, IsNoFileTable, TextSections, bad_line_table, file_table_at};
ghost use Rattle.dwz_def_reading.specs.LinesWritten.{AreTexts, header_written, with_row_0};

/// Line tables: the paths that are answered are those of the table that stands at the place; there is one fault, exactly where
/// none stands there; and never two tables do.
pub fn line_laws()
    ensures read { (s : TextSections) (line : List ℕ) (place : ℕ) (t : FileTable)
        → (file_table_at s line place ≡ Ok t) ↔ IsFileTable s line place t }
    ensures fault { (s : TextSections) (line : List ℕ) (place : ℕ) (f : Fault)
        → (file_table_at s line place ≡ Err f) ↔ ((f ≡ bad_line_table place) × IsNoFileTable s line place) }
    ensures one { (s : TextSections) (line : List ℕ) (place : ℕ) (t u : FileTable) → IsFileTable s line place t → IsFileTable s line place u
        → t ≡ u }
{}

/// A header that is written of paths: where there is one, none has a zero byte, and what they come to is short enough, it is a line table
/// with these paths, numbered from 1; row 0 has the first too. The paths of a line table have no zero byte.
pub fn written_line_laws()
    ensures table { (paths : List (List ℕ)) → 0 < length paths → AreTexts paths → length (header_written paths) < 0xfffffff0
        → (s : TextSections) → (t : FileTable) × IsFileTable s (header_written paths) 0 t × (t.paths ≡ with_row_0 paths) }
    ensures paths { (s : TextSections) (line : List ℕ) (place : ℕ) (t : FileTable) → IsFileTable s line place t → AreTexts t.paths }
{}
