//! Where the texts of a file stand that are stored by an offset or by a slot.

ghost use Rattle.std.specs.Prelude.{◌≡◌, ℕ, ◌<◌, ◌^◌, ◌++◌, Some, map, slice_get, IfOk, OnOk};
ghost use Rattle.dwz_def_reading.specs.Spelling.{reach};
ghost use Rattle.dwz_def_reading.specs.Units.{entries_in};
ghost use Rattle.dwz_def_reading.specs.Values.{HasSpelling};
ghost use Rattle.dwz_forms.specs.RawValues.{raw_view};
ghost use Rattle.dwz_def_reading.specs.Meanings.{Around, number_of};
ghost use Rattle.dwz_def_reading.specs.Classes.{OfTextInStr};
ghost use Rattle.dwz_def_reading.specs.Classes.{class_of};
ghost use Rattle.dwz_unit.specs.Declarations.{AreOf};
ghost use Rattle.dwz_unit.specs.Rows.{EntryRow, rows_of, units_of};
ghost use Rattle.dwz_graph.specs.Resolved.{around};
ghost use Rattle.dwz_def_encoding.specs.Placing;
ghost use Rattle.dwz_layout.specs.declared.known.TextAt.TheVariants.{Own};
ghost use Rattle.dwz_encode_texts.specs.Texts;
ghost use Rattle.dwz_encode_texts.specs.Texts.{file_texts, own_texts, slots_base};

use crate::ends::{TextEnds, is_text};
use dwz_codes::{Class, class_of};
use dwz_forms::Raw;
use dwz_graph::{InputSections, here_of, offset_of, slot};
use dwz_layout::TextAt;
use dwz_model::{NoMemory, Pair};
use dwz_unit::{Units, Values, known_value};
use std::alloc::Global;

// The number in the slot of an index (DWARF 5, 7.26), and 0 where there is none.
fn slot_number(offsets: &[u8], base: Option<u32>, index: u128) -> u32
    ensures { result ≡ Placing.slot_number offsets.now base index }
{
    let Some(base) = base else {
        return 0;
    };
    match slot(offsets, base as u128, index) {
        Some(number) => number,
        None => 0,
    }
}

// The offset in `.debug_str` of the text of a value of that class, and 0 of one in another section. A number of `DW_FORM_strp` has four
// bytes.
fn str_offset(class: Class, offsets: &[u8], base: Option<u32>, number: u128) -> u32
    requires { class ≡ OfTextInStr → number < 2 ^ 32 }
    ensures { result ≡ Texts.str_offset class offsets.now base number }
{
    match class {
        Class::TextInStr => number as u32,
        Class::TextBySlot => slot_number(offsets, base, number),
        _ => 0,
    }
}

/// Where the text of a value stands. `base` is the base of its unit's slots in `offsets`, which is `.debug_str_offsets`.
#[inline(always)]
pub(crate) fn own_text(offsets: &[u8], base: Option<u32>, pair: &Pair, raw: &Raw) -> TextAt
    requires { HasSpelling pair.now.form (raw_view raw.now) }
    ensures { result ≡ Own (Texts.str_offset (class_of pair.now.form) offsets.now base (reach (number_of (raw_view raw.now)))) }
{
    TextAt::Own(str_offset(class_of(pair.form), offsets, base, offset_of(raw)))
}

// Appends those of an entry. Its values are read up to the last text.
fn put_texts(
    texts: &mut Vec<TextAt>,
    units: &Units,
    ends: &TextEnds,
    offsets: &[u8],
    base: Option<u32>,
    entry: u32,
) -> Result<(), NoMemory>
    requires ends { AreOf (rows_of (units_of units.now)) ends.now }
    requires entry { entry < entries_in (units_of units.now) }
    ensures { (row : EntryRow) → slice_get (rows_of (units_of units.now)) entry ≡ Some row
        → OnOk result (texts.new.items ≡ texts.old.items ++ own_texts offsets.now base row.entry.attrs) }
{
    let end = ends.of(entry);
    if end == 0 {
        return Ok(());
    }
    let Values { pairs, mut cursor } = units.values(entry);
    for (k, pair) in pairs.iter().enumerate() {
        if k == end {
            return Ok(());
        }
        let raw = known_value(&mut cursor, pair);
        if is_text(pair) {
            texts.push(own_text(offsets, base, pair, &raw))?;
        }
    }
    Ok(())
}

/// For each unit of a file the base of its slots of `.debug_str_offsets` (3.1.1, `DW_AT_str_offsets_base`), where it has one.
pub(crate) fn slot_bases(alloc: Global, units: &Units) -> Result<Vec<Option<u32>>, NoMemory>
    ensures { (around : Around ℕ) → IfOk result (λ bases. bases.items ≡ map (slots_base around) (units_of units.now)) }
{
    let mut bases = Vec::with_capacity(alloc, units.len() as usize)?;
    for n in 0..units.len() {
        let unit = units.unit(n);
        bases.push(here_of(units, n, &unit).offsets)?;
    }
    Ok(bases)
}

/// For each text of a file that is stored by an offset or by a slot (DWARF 5, 7.5.5, class string), but of `DW_AT_sibling`, where it
/// stands in `.debug_str` of the file: in preorder, then in the order of attributes. For a text of another section that is 0.
pub fn texts_of(
    alloc: Global,
    units: &Units,
    sections: &InputSections,
) -> Result<Vec<TextAt>, NoMemory>
    ensures { IfOk result (λ texts. texts.items ≡ file_texts (around sections.now (units_of units.now)) (units_of units.now)) }
{
    let bases = slot_bases(alloc, units)?;
    let ends = TextEnds::new(alloc, units)?;
    let mut texts = Vec::new(alloc);
    for i in 0..units.entries() {
        let base = bases[units.entry(i).unit as usize];
        put_texts(&mut texts, units, &ends, sections.offsets, base, i)?;
    }
    Ok(texts)
}
