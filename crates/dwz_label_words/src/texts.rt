//! Texts of `.debug_str`.

ghost use Rattle.std.specs.Prelude.{◌≡◌, ℕ, List, [], ◌∷◌, Some, OnOk};
ghost use Rattle.dwz_def_reading.specs.Documents.{Text};
ghost use Rattle.dwz_def_reading.specs.Texts.{text_at};
ghost use Rattle.dwz_label_marks.specs.Marks.{plain_mark};
ghost use Rattle.dwz_label_marks.specs.Told.{Adds};
ghost use Rattle.dwz_label_words.specs.Known.{StaysNamed};

use crate::FileNames;
use dwz_label_marks::put_named;
use dwz_model::NoMemory;

/// Appends the mark of the text at an offset of `.debug_str`, which is there; `strs` is that section.
#[inline(always)]
pub(crate) fn put_text_mark(
    names: &mut FileNames,
    out: &mut Vec<u8>,
    strs: &[u8],
    offset: u128,
) -> Result<(), NoMemory>
    requires { names.old.strs ≡ strs.now }
    ensures stays { OnOk result (StaysNamed names.old names.new) }
    ensures told { (text : List ℕ) → text_at names.old.strs offset ≡ Some text
        → OnOk result (Adds names.new.names (plain_mark (Text text) ∷ []) out.old.items out.new.items) }
{
    if offset >= strs.len() as u128 {
        return Ok(());
    }
    match names.text(offset as u64)? {
        None => Ok(()),
        Some(name) => put_named(out, name),
    }
}
