//! The names of spaces.

ghost use Rattle.std.specs.Prelude.{◌≡◌, ℕ, ◌<◌, List, Option, Some, slice_get};
ghost use Rattle.std.specs.Option.{option_map};
ghost use Rattle.dwz_def_reading.specs.Documents.{DwUnit, Value};
ghost use Rattle.dwz_def_reading.specs.Meanings;
ghost use Rattle.dwz_def_reading.specs.Meanings.{IsCommonText, MeaningContext, MeansValue};
ghost use Rattle.dwz_def_reading.specs.Texts;
ghost use Rattle.dwz_def_reading.specs.Units.{entries_in};
ghost use Rattle.dwz_def_tops.specs.Spaces.{space_text, text_of_plain};
ghost use Rattle.dwz_forms.specs.RawValues.{raw_view};
ghost use Rattle.dwz_check_index.specs.Index.{ListedEntry, listed_units};
ghost use Rattle.dwz_check_index.specs.declared.index.CrossStarts.{CrossStarts};
ghost use Rattle.dwz_check_sides.specs.Says.{IsScope, IsSide};
ghost use Rattle.dwz_unit.specs.Rows.{attr_view, units_of};

use crate::side::Side;
use dwz_codes::{Class, DW_AT_NAME, class_of};
use dwz_forms::Raw;
use dwz_graph::{InputSections, first_attr, here_of, offset_of, slot, text_in};
use dwz_unit::RawAttr;

// The bytes that a value stores; none where it stores a number.
fn bytes_of<'a>(raw: &Raw<'a>) -> &'a [u8]
    ensures { result.now ≡ Meanings.bytes_of (raw_view raw.now) }
{
    match raw {
        Raw::Number(_) => &[],
        Raw::Bytes(bytes) => bytes,
    }
}

// The text at the offset that is in a slot of `.debug_str_offsets` (DWARF 5, 7.26).
fn text_by_slot<'a>(
    sections: &InputSections<'a>,
    base: Option<u32>,
    index: u128,
) -> Option<&'a [u8]>
    ensures { (at offset : ℕ) (text : List ℕ) → base ≡ Some at → Texts.slot sections.now.offsets.now at index ≡ Some offset
        → Texts.text_at sections.now.strs.bytes.now offset ≡ Some text → option_map (λ t. t.now) result ≡ Some text }
{
    let base = base?;
    let offset = slot(sections.offsets, base as u128, index)?;
    text_in(sections.strs.bytes, offset as u128)
}

// The text at an offset of the common file (DW_FORM_strp_sup).
fn common_text<'f>(side: &Side<'f, '_>, offset: u128) -> Option<&'f [u8]>
    ensures { (base : Option ℕ) (m : MeaningContext ℕ) (v : Value ℕ) (text : List ℕ) → IsScope side.now base m → IsCommonText m offset v
        → text_of_plain v.plain ≡ Some text → option_map (λ t. t.now) result ≡ Some text }
{
    let common = side.common?;
    text_in(common.sections.strs.bytes, offset)
}

// The text that a value is, where it is one.
fn text_of<'f>(side: &Side<'f, '_>, base: Option<u32>, attr: &RawAttr<'f>) -> Option<&'f [u8]>
    ensures { (m : MeaningContext ℕ) (v : Value ℕ) (text : List ℕ) → IsScope side.now base m → MeansValue m (attr_view attr.now) v
        → text_of_plain v.plain ≡ Some text → option_map (λ t. t.now) result ≡ Some text }
{
    let sections = &side.file.sections;
    let offset = offset_of(&attr.raw);
    match class_of(attr.pair.form) {
        Class::Text => Some(bytes_of(&attr.raw)),
        Class::TextInStr => text_in(sections.strs.bytes, offset),
        Class::TextInLineStr => text_in(sections.line_strs.bytes, offset),
        Class::TextBySlot => text_by_slot(sections, base, offset),
        Class::CommonText => common_text(side, offset),
        _ => None,
    }
}

// The text of the first DW_AT_name of an entry, where it has one.
fn first_name<'f>(side: &Side<'f, '_>, entry: u32) -> Option<&'f [u8]>
    requires { entry < entries_in (units_of side.now.file.now.units) }
    ensures { (said : List (DwUnit ℕ)) (starts : CrossStarts) (e : ListedEntry ℕ) (text : List ℕ) → IsSide side.now said starts
        → slice_get (listed_units said) entry ≡ Some e → space_text e.0 ≡ Some text → option_map (λ t. t.now) result ≡ Some text }
{
    let units = &side.file.units;
    let number = units.entry(entry).unit;
    let here = here_of(units, number, &units.unit(number));
    match first_attr(units, entry, DW_AT_NAME) {
        None => None,
        Some(attr) => text_of(side, here.offsets, &attr),
    }
}

/// The name of a space, by the number of its entry.
pub(crate) fn name_of<'f>(side: &Side<'f, '_>, entry: u32) -> &'f [u8]
    requires { entry < entries_in (units_of side.now.file.now.units) }
    ensures { (said : List (DwUnit ℕ)) (starts : CrossStarts) (e : ListedEntry ℕ) (text : List ℕ) → IsSide side.now said starts
        → slice_get (listed_units said) entry ≡ Some e → space_text e.0 ≡ Some text → result.now ≡ text }
{
    match first_name(side, entry) {
        Some(text) => text,
        None => &[],
    }
}
