//! The sections that values speak of, and what stands in them.

ghost use Rattle.std.specs.Prelude.{◌≡◌, ℤ, ◌<◌, ◌≤◌, ◌^◌, length, nat_lt};
ghost use Rattle.std.specs.Option.{is_some, option_map};
ghost use Rattle.dwz_def_reading.specs.Spelling.{reach};
ghost use Rattle.dwz_def_reading.specs.Meanings.{number_of};
ghost use Rattle.dwz_def_reading.specs.Texts;
ghost use Rattle.dwz_forms.specs.RawValues.{raw_view};
ghost use Rattle.dwz_graph_resolve.specs.TextEnds.{IsTextEnd};

use dwz_forms::Raw;
use memchr::memrchr;

/// A section of texts (DWARF 5, 7.5.5, class string), and the place behind its last zero byte: a text stands at just the offsets
/// below it.
#[derive(Clone, Copy)]
pub struct TextSection<'a> {
    pub bytes: &'a [u8],
    end: usize,
    ghost ends: { IsTextEnd bytes.now end },
}

impl<'a> TextSection<'a> {
    /// A section of these bytes.
    pub fn new(bytes: &'a [u8]) -> TextSection<'a>
        ensures { result.bytes.now ≡ bytes.now }
    {
        let end = match memrchr(0, bytes) {
            None => 0,
            Some(last) => last + 1,
        };
        TextSection { bytes, end }
    }

    /// Whether a text stands at an offset.
    #[inline(always)]
    pub fn has(&self, offset: u128) -> bool
        ensures { result ≡ is_some (Texts.text_at self.now.bytes.now offset) }
    {
        offset < self.end as u128
    }
}

/// The sections that values speak of. One that isn't there counts as empty. Places in `.debug_loclists` have 4 bytes.
#[derive(Clone, Copy)]
pub struct InputSections<'a> {
    /// `.debug_str`
    pub strs: TextSection<'a>,
    /// `.debug_line_str`
    pub line_strs: TextSection<'a>,
    /// `.debug_str_offsets`
    pub offsets: &'a [u8],
    /// `.debug_line`
    pub line: &'a [u8],
    /// `.debug_loclists`
    pub lists: &'a [u8],
    /// `.debug_aranges`
    pub aranges: &'a [u8],
    ghost short: { length lists.now < 2 ^ 32 },
}

// How far a number is from 0, or a negative one from -1.
#[inline(always)]
fn reach_of(number: i128) -> u128
    ensures value { result ≡ reach number }
    ensures small { result < 2 ^ 127 }
{
    if number < 0 {
        (-1 - number) as u128
    } else {
        number as u128
    }
}

/// The number that a value stores, without a sign; 0 where it stores bytes.
#[inline(always)]
pub fn offset_of(raw: &Raw) -> u128
    ensures value { result ≡ reach (number_of (raw_view raw.now)) }
    ensures small { result < 2 ^ 127 }
{
    match raw {
        Raw::Number(number) => reach_of(*number),
        Raw::Bytes(_) => 0,
    }
}

/// The text at an offset of the section.
#[inline(always)]
pub fn text_in(section: &[u8], offset: u128) -> Option<&[u8]>
    ensures { option_map (λ t. t.now) result ≡ Texts.text_at section.now offset }
{
    if offset > u64::MAX as u128 {
        return None;
    }
    dwz_strs::text_at(section, offset as u64)
}

/// The number in the slot of an index, where it is whole in the section.
#[inline(always)]
pub fn slot(section: &[u8], base: u128, index: u128) -> Option<u32>
    ensures { result ≡ Texts.slot section.now base index }
{
    if base > u64::MAX as u128 || index > u64::MAX as u128 {
        return None;
    }
    dwz_strs::slot(section, base as u64, index as u64)
}
