//! Spaces: named namespaces (DWARF 5, 3.2.2).

ghost use Rattle.std.specs.Prelude.{◌≡◌, ℕ, ◌<◌, List, Ok, Some, slice_get};
ghost use Rattle.std.specs.Option.{option_map};
ghost use Rattle.dwz_def_reading.specs.Units.{entries_in};
ghost use Rattle.dwz_def_reading.specs.Texts;
ghost use Rattle.dwz_forms.specs.RawValues.{raw_view};
ghost use Rattle.dwz_def_reading.specs.Documents.{Node, Value};
ghost use Rattle.dwz_def_reading.specs.Meanings;
ghost use Rattle.dwz_def_reading.specs.Meanings.{MeaningContext, MeansValue, first_raw};
ghost use Rattle.dwz_def_reading.specs.Meant.{node_meaning};
ghost use Rattle.dwz_def_tops.specs.Spaces as Seen;
ghost use Rattle.dwz_graph.specs.Spaces;
ghost use Rattle.dwz_graph.specs.Spaces.{IsOwn, stored_space};
ghost use Rattle.dwz_unit.specs.Rows.{EntryRow, attr_view, rows_of, units_of};

use dwz_codes::{Class, DW_AT_NAME, DW_TAG_NAMESPACE, class_of};
use dwz_forms::Raw;
use dwz_graph_resolve::{InputSections, first_attr, offset_of, slot, text_in};
use dwz_unit::{RawAttr, Units};

// Whether the values of a class are texts.
fn is_text(class: Class) -> bool
    ensures { result ≡ Spaces.is_text class }
{
    match class {
        Class::Text => true,
        Class::TextInStr => true,
        Class::TextInLineStr => true,
        Class::TextBySlot => true,
        Class::CommonText => true,
        _ => false,
    }
}

// Whether an entry has the name of a space.
fn has_text_name(units: &Units, entry: u32) -> bool
    requires { entry < entries_in (units_of units.now) }
    ensures { (row : EntryRow) → slice_get (rows_of (units_of units.now)) entry ≡ Some row
        → result ≡ Spaces.has_text (first_raw 0x03 row.entry.attrs) }
{
    match first_attr(units, entry, DW_AT_NAME) {
        Some(attr) => is_text(class_of(attr.pair.form)),
        None => false,
    }
}

/// Whether an entry in the root of a compile unit, or in a space of it, is a space, where its values mean something.
#[inline(always)]
pub fn is_space(units: &Units, entry: u32) -> bool
    requires { entry < entries_in (units_of units.now) }
    ensures { (row : EntryRow) → slice_get (rows_of (units_of units.now)) entry ≡ Some row → result ≡ stored_space row.entry }
{
    if units.entry(entry).tag != DW_TAG_NAMESPACE {
        return false;
    }
    has_text_name(units, entry)
}

// The bytes that a value stores; none where it stores a number.
fn bytes_of<'a>(raw: &Raw<'a>) -> &'a [u8]
    ensures { result.now ≡ Meanings.bytes_of (raw_view raw.now) }
{
    match raw {
        Raw::Number(_) => &[],
        Raw::Bytes(bytes) => bytes,
    }
}

// The text at the offset that is in a slot of `.debug_str_offsets` (DWARF 5, 7.26).
fn text_by_slot<'a>(
    sections: &InputSections<'a>,
    base: Option<u32>,
    index: u128,
) -> Option<&'a [u8]>
    ensures { (at offset : ℕ) (text : List ℕ) → base ≡ Some at → Texts.slot sections.now.offsets.now at index ≡ Some offset
        → Texts.text_at sections.now.strs.bytes.now offset ≡ Some text → option_map (λ t. t.now) result ≡ Some text }
{
    let base = base?;
    let offset = slot(sections.offsets, base as u128, index)?;
    text_in(sections.strs.bytes, offset as u128)
}

// The text that a value is, where it is one.
fn text_of<'a>(
    sections: &InputSections<'a>,
    base: Option<u32>,
    attr: &RawAttr<'a>,
) -> Option<&'a [u8]>
    ensures { (s : MeaningContext ℕ) (v : Value ℕ) (text : List ℕ) → IsOwn sections.now base s → MeansValue s (attr_view attr.now) v
        → Seen.text_of_plain v.plain ≡ Some text → option_map (λ t. t.now) result ≡ Some text }
{
    let offset = offset_of(&attr.raw);
    match class_of(attr.pair.form) {
        Class::Text => Some(bytes_of(&attr.raw)),
        Class::TextInStr => text_in(sections.strs.bytes, offset),
        Class::TextInLineStr => text_in(sections.line_strs.bytes, offset),
        Class::TextBySlot => text_by_slot(sections, base, offset),
        _ => None,
    }
}

/// The name of a space. `base` is the base of its unit's slots of `.debug_str_offsets`, where it has one.
pub fn space_text<'a>(
    units: &Units<'a>,
    sections: &InputSections<'a>,
    base: Option<u32>,
    entry: u32,
) -> Option<&'a [u8]>
    requires { entry < entries_in (units_of units.now) }
    ensures { (s : MeaningContext ℕ) (row : EntryRow) (d : Node ℕ) (text : List ℕ) → IsOwn sections.now base s
        → slice_get (rows_of (units_of units.now)) entry ≡ Some row → node_meaning s row.entry ≡ Ok d → Seen.space_text d ≡ Some text
        → option_map (λ t. t.now) result ≡ Some text }
{
    match first_attr(units, entry, DW_AT_NAME) {
        None => None,
        Some(attr) => text_of(sections, base, &attr),
    }
}
