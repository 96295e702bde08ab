//! Values whose class says what they are.

ghost use Rattle.std.specs.Prelude.{◌≡◌, ℕ, ◌++◌, true, None, Ok, OnOk};
ghost use Rattle.dwz_label_entries.specs.Plain.{is_simple};
ghost use Rattle.dwz_label.specs.Labels.{plain_label};
ghost use Rattle.dwz_def_reading.specs.Documents.{Value};
ghost use Rattle.dwz_def_reading.specs.Meanings.{MeaningContext, str_offsets_base};
ghost use Rattle.dwz_def_reading.specs.Meant.{as_class};
ghost use Rattle.dwz_graph.specs.Resolved.{sources_view, stored};

use crate::numbers::{bytes_of, is_set};
use crate::texts::{put_text_at, put_text_by_slot};
use dwz_codes::Class;
use dwz_forms::Raw;
use dwz_graph::{InputSections, offset_of};
use dwz_label::{put_address, put_block, put_flag, put_index, put_signature, put_text};
use dwz_model::{NoMemory, Pair};

/// Appends what a value says, whose class says what it is. `base` is that of its unit's slots of `.debug_str_offsets`.
#[inline(always)]
pub(crate) fn put_simple(
    out: &mut Vec<u8>,
    class: Class,
    sections: &InputSections,
    base: Option<u32>,
    pair: &Pair,
    raw: &Raw,
) -> Result<(), NoMemory>
    ensures { (s : MeaningContext ℕ) (at end : ℕ) (v : Value ℕ) → is_simple class ≡ true
        → s.around.sources ≡ sources_view sections.now
        → s.around.common ≡ None → base ≡ str_offsets_base s → as_class class s (stored at end pair.now raw.now) ≡ Ok v
        → OnOk result (out.new.items ≡ out.old.items ++ plain_label v.plain) }
{
    let offset = offset_of(raw);
    match class {
        Class::Address => put_address(out, offset),
        Class::Block => put_block(out, bytes_of(raw)),
        Class::Constant => Ok(()),
        Class::Flag => put_flag(out, is_set(pair.form, offset)),
        Class::Text => put_text(out, bytes_of(raw)),
        Class::TextInStr => put_text_at(out, sections.strs.bytes, offset),
        Class::TextInLineStr => put_text_at(out, sections.line_strs.bytes, offset),
        Class::TextBySlot => put_text_by_slot(out, sections, base, offset),
        Class::UnitEntry => Ok(()),
        Class::InfoEntry => Ok(()),
        Class::Signature => put_signature(out, offset),
        Class::Offset => Ok(()),
        Class::Expression => Ok(()),
        Class::ListIndex => Ok(()),
        Class::Index => put_index(out, offset),
        Class::CommonEntry => Ok(()),
        Class::CommonText => Ok(()),
        Class::Unread => Ok(()),
    }
}
