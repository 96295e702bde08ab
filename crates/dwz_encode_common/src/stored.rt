//! The texts that values store.

ghost use Rattle.std.specs.Prelude.{◌≡◌};
ghost use Rattle.std.specs.Option.{option_map, option_to_list};
ghost use Rattle.dwz_def_reading.specs.Texts;
ghost use Rattle.dwz_forms.specs.RawValues.{raw_view};
ghost use Rattle.dwz_layout.specs.Attributes.{value_read};
ghost use Rattle.dwz_graph.specs.Resolved.{sources_view};
ghost use Rattle.dwz_def_encoding.specs.Placing;
ghost use Rattle.dwz_encode_common.specs.Stored.{class_texts, text_or_none, text_read};

use dwz_codes::{Class, DW_AT_SIBLING, class_of};
use dwz_forms::Raw;
use dwz_graph::{InputSections, offset_of, slot, text_in};
use dwz_model::Pair;

// The number in the slot of an index (DWARF 5, 7.26), and 0 where there is none.
fn slot_number(offsets: &[u8], base: Option<u32>, index: u128) -> u32
    ensures { result ≡ Placing.slot_number offsets.now base index }
{
    let Some(base) = base else {
        return 0;
    };
    match slot(offsets, base as u128, index) {
        Some(number) => number,
        None => 0,
    }
}

// The text at an offset of a section. Values were checked when the file was read, so a text stands there.
fn text_at(section: &[u8], offset: u128) -> &[u8]
    ensures { result.now ≡ text_or_none (Texts.text_at section.now offset) }
{
    match text_in(section, offset) {
        Some(text) => text,
        None => b"",
    }
}

// The text of a number that a value of that class stores, if it has a place in a section.
fn text_of_class<'a>(
    sections: &InputSections<'a>,
    base: Option<u32>,
    class: Class,
    number: u128,
) -> Option<&'a [u8]>
    ensures { option_to_list (option_map (λ t. t.now) result) ≡ class_texts class (sources_view sections.now) base number }
{
    match class {
        Class::TextInStr => Some(text_at(sections.strs.bytes, number)),
        Class::TextInLineStr => Some(text_at(sections.line_strs.bytes, number)),
        Class::TextBySlot => {
            let offset = slot_number(sections.offsets, base, number);
            Some(text_at(sections.strs.bytes, offset as u128))
        }
        _ => None,
    }
}

/// The text of a value, if it has a place in a section (DWARF 5, 7.5.5, class string). `base` is that of its unit's slots.
#[inline(always)]
pub(crate) fn text_of<'a>(
    sections: &InputSections<'a>,
    base: Option<u32>,
    pair: &Pair,
    raw: &Raw,
) -> Option<&'a [u8]>
    ensures { option_to_list (option_map (λ t. t.now) result)
        ≡ text_read (sources_view sections.now) base (value_read 0 pair.now (raw_view raw.now)) }
{
    if pair.name == DW_AT_SIBLING {
        return None;
    }
    text_of_class(sections, base, class_of(pair.form), offset_of(raw))
}
