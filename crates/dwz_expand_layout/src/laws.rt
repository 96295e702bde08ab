//! What a layout of new units is, and the bytes that are written by it.

ghost use Rattle.std.specs.Prelude.{ℕ};
ghost use Rattle.dwz_def_reading.specs.Places.{Place};
ghost use Rattle.dwz_expand_layout.specs.Laws.{LayoutLaw};

/// Where new units show those of a file that is written without its partial units, what is laid and written of them are the very
/// sections of that file, and each unit and each copy has its place. So it is where places name entries, and where numbers do.
pub fn layout_laws()
    ensures places { LayoutLaw Place }
    ensures numbers { LayoutLaw ℕ }
{}
