//! The names of spaces (DWARF 5, 3.2.2).

ghost use Rattle.std.specs.Prelude.{◌≡◌, ℕ, ◌<◌, ◌++◌, List, Some, Ok, OnOk, length, slice_get};
ghost use Rattle.std.specs.Option.{option_map};
ghost use Rattle.dwz_def_reading.specs.Documents.{DwUnit, Node, Value};
ghost use Rattle.dwz_def_reading.specs.Meanings.{Around, MeaningContext, MeansValue};
ghost use Rattle.dwz_def_reading.specs.Meant.{node_meaning};
ghost use Rattle.dwz_def_reading.specs.Texts;
ghost use Rattle.dwz_def_reading.specs.Units.{entries_in};
ghost use Rattle.dwz_def_tops.specs.Spaces;
ghost use Rattle.dwz_label.specs.Labels.{counted, each_counted};
ghost use Rattle.dwz_check_index.specs.Index.{AreSpacesOf, Called, ListedEntry, ShowNames, listed_units, names_in};
ghost use Rattle.dwz_check_labels.specs.Files.{AreHeres, KnowsTexts, Says, raw_in};
ghost use Rattle.dwz_unit.specs.Rows.{EntryRow, attr_view, rows_of};

use crate::named_file::{NamedFile, here_at};
use dwz_check_index::CrossIndex;
use dwz_codes::{Class, DW_AT_NAME, class_of};
use dwz_graph::{InputSections, first_attr, offset_of, slot, text_in};
use dwz_label::{put_counted, put_number};
use dwz_label_entries::bytes_of;
use dwz_model::NoMemory;
use dwz_unit::RawAttr;

// The text at the offset that is in a slot of `.debug_str_offsets` (DWARF 5, 7.26).
fn text_by_slot<'a>(
    sections: &InputSections<'a>,
    base: Option<u32>,
    index: u128,
) -> Option<&'a [u8]>
    ensures { (at offset : ℕ) (text : List ℕ) → base ≡ Some at → Texts.slot sections.now.offsets.now at index ≡ Some offset
        → Texts.text_at sections.now.strs.bytes.now offset ≡ Some text → option_map (λ t. t.now) result ≡ Some text }
{
    let base = base?;
    let offset = slot(sections.offsets, base as u128, index)?;
    text_in(sections.strs.bytes, offset as u128)
}

// The text that a value is, where it is one.
fn text_of<'a>(file: &NamedFile<'_, 'a>, base: Option<u32>, attr: &RawAttr<'a>) -> Option<&'a [u8]>
    ensures { (s : MeaningContext ℕ) (v : Value ℕ) (text : List ℕ) → KnowsTexts file.now base s → MeansValue s (attr_view attr.now) v
        → Spaces.text_of_plain v.plain ≡ Some text → option_map (λ t. t.now) result ≡ Some text }
{
    let offset = offset_of(&attr.raw);
    let sections = file.sections;
    match class_of(attr.pair.form) {
        Class::Text => Some(bytes_of(&attr.raw)),
        Class::TextInStr => text_in(sections.strs.bytes, offset),
        Class::TextInLineStr => text_in(sections.line_strs.bytes, offset),
        Class::TextBySlot => text_by_slot(sections, base, offset),
        Class::CommonText => text_in(file.common_strs, offset),
        _ => None,
    }
}

// The name of a space, in a unit with that base of its slots.
fn name_by<'a>(file: &NamedFile<'_, 'a>, base: Option<u32>, entry: u32) -> Option<&'a [u8]>
    requires { entry < entries_in (raw_in file.now) }
    ensures { (s : MeaningContext ℕ) (row : EntryRow) (d : Node ℕ) (text : List ℕ) → KnowsTexts file.now base s
        → slice_get (rows_of (raw_in file.now)) entry ≡ Some row → node_meaning s row.entry ≡ Ok d → Spaces.space_text d ≡ Some text
        → option_map (λ t. t.now) result ≡ Some text }
{
    match first_attr(file.units, entry, DW_AT_NAME) {
        None => None,
        Some(attr) => text_of(file, base, &attr),
    }
}

// The name of the space with a number.
fn space_name<'a>(file: &NamedFile<'_, 'a>, entry: u32) -> Option<&'a [u8]>
    requires { AreHeres (raw_in file.now) file.now.heres.now }
    ensures { (around : Around ℕ) (said : List (DwUnit ℕ)) (d : ListedEntry ℕ) (text : List ℕ) → Says file.now around said
        → slice_get (listed_units said) entry ≡ Some d → Spaces.space_text d.0 ≡ Some text → option_map (λ t. t.now) result ≡ Some text }
{
    if entry >= file.units.entries() {
        return None;
    }
    let unit = file.units.entry(entry).unit;
    let here = here_at(file, unit);
    name_by(file, here.offsets, entry)
}

// Appends it behind its length.
fn put_space_name(out: &mut Vec<u8>, file: &NamedFile, entry: u32) -> Result<(), NoMemory>
    requires { AreHeres (raw_in file.now) file.now.heres.now }
    ensures { (around : Around ℕ) (said : List (DwUnit ℕ)) (d : ListedEntry ℕ) (text : List ℕ) → Says file.now around said
        → slice_get (listed_units said) entry ≡ Some d → Spaces.space_text d.0 ≡ Some text
        → OnOk result (out.new.items ≡ out.old.items ++ counted text) }
{
    let Some(text) = space_name(file, entry) else {
        return Ok(());
    };
    put_counted(out, text)?;
    Ok(())
}

/// Appends the names of spaces, the outermost first, behind their number.
pub(crate) fn put_space_names(
    out: &mut Vec<u8>,
    file: &NamedFile,
    spaces: &[u32],
) -> Result<(), NoMemory>
    requires { AreHeres (raw_in file.now) file.now.heres.now }
    ensures { (around : Around ℕ) (said : List (DwUnit ℕ)) (names : List (List ℕ)) → Says file.now around said
        → AreSpacesOf (listed_units said) spaces.now names → OnOk result (out.new.items ≡ out.old.items ++ each_counted counted names) }
{
    put_number(out, spaces.len() as u128)?;
    for space in spaces {
        put_space_name(out, file, *space)?;
    }
    Ok(())
}

/// The numbers of the spaces that end with that entry, the outermost first, where it is a space; they take the place of what stands in
/// the row.
pub(crate) fn spaces_to(
    index: &CrossIndex,
    entry: u32,
    spaces: &mut Vec<u32>,
) -> Result<(), NoMemory>
    requires { entry < length index.now.steps }
    ensures { (names : List Called) (entries : List (ListedEntry ℕ)) (name : Called) → ShowNames names entries index.now.steps
        → slice_get names entry ≡ Some name → OnOk result (AreSpacesOf entries spaces.new.items (names_in name.1)) }
{
    spaces.clear();
    index.put_spaces(entry, spaces)?;
    spaces.reverse();
    Ok(())
}
