//! Where the texts of files are written once the common file has texts.

ghost use Rattle.std.specs.Prelude.{◌≡◌, ◌<◌, ◌++◌, ◌∷◌, [], length, map, Some, slice_get, IfOk, OnOk};
ghost use Rattle.dwz_def_reading.specs.Units.{entries_in};
ghost use Rattle.dwz_forms.specs.RawValues.{raw_view};
ghost use Rattle.dwz_layout.specs.Attributes.{value_read};
ghost use Rattle.dwz_graph.specs.Resolved.{sources_view};
ghost use Rattle.dwz_unit.specs.Rows.{EntryRow, rows_of, units_of};
ghost use Rattle.dwz_encode_common.specs.Placed as Specs;
ghost use Rattle.dwz_encode_common.specs.Placed.{HavePlaces, entry_places, file_places, written_there};
ghost use Rattle.dwz_encode_common.specs.TextsIn.{is_made, texts_in};
ghost use Rattle.dwz_encode_common.specs.Stored.{row_texts, slots_base, text_read};

use crate::bases::bases_of_units;
use crate::places::Place;
use crate::shared::place_text;
use crate::standing::PlacedTexts;
use crate::stored::text_of;
use crate::texts::base_of;
use dwz_forms::Raw;
use dwz_graph::{File, InputSections};
use dwz_layout::{EntryTable, Row, TextAt, behind};
use dwz_model::{NoMemory, Pair};
use dwz_unit::{Values, known_value};
use std::alloc::Global;

// What the texts of a file are placed by: the lists of all files, the texts of the common file, the number of the file, and whether it
// shares these texts.
#[derive(Clone, Copy)]
struct Scope<'p, 'a, 't, 's> {
    known: &'p EntryTable<'p, 'a>,
    texts: &'p PlacedTexts<'t, 's>,
    file: u32,
    shares: bool,
}

/// Whether a file shares the texts of the common file.
pub(crate) fn shares_in(sharing: &[bool], file: usize) -> bool
    ensures { result ≡ Specs.shares_in sharing.now file }
{
    match sharing.get(file) {
        Some(shares) => *shares,
        None => false,
    }
}

// Whether an entry of the file is owned by a unit of the common file.
fn in_common_file(to: &Scope, entry: u32) -> bool
    ensures { result ≡ Specs.in_common_file to.now.known.now to.now.file entry }
{
    let number = to.known.number(Row {
        file: to.file,
        entry,
    });
    let owner = match to.known.owners.get(number as usize) {
        Some(owner) => *owner,
        None => 0,
    };
    owner < to.known.commons
}

// Whether it is written there, if that file is made: nothing is in one that stands.
fn is_written_there(to: &Scope, entry: u32) -> bool
    ensures { result ≡ written_there (is_made to.now.texts.now) to.now.known.now to.now.file entry }
{
    to.texts.is_made() && in_common_file(to, entry)
}

// Appends that of the next text of the file.
fn put_text(
    places: &mut Vec<TextAt>,
    to: &Scope,
    is_common: bool,
    text: &[u8],
) -> Result<(), NoMemory>
    ensures { OnOk result (places.new.items ≡ places.old.items
        ++ entry_places is_common to.now.shares (texts_in to.now.texts.now) to.now.known.now to.now.file (length places.old.items) (text.now ∷ [])) }
{
    let own = to.known.text(to.file, places.len() as u64);
    let place = place_text(to.texts, is_common, to.shares, text, own)?;
    places.push(place)?;
    Ok(())
}

// Appends that of a value, if its text has a place.
#[inline(always)]
fn put_value(
    places: &mut Vec<TextAt>,
    to: &Scope,
    is_common: bool,
    sections: &InputSections,
    base: Option<u32>,
    pair: &Pair,
    raw: &Raw,
) -> Result<(), NoMemory>
    ensures { OnOk result (places.new.items ≡ places.old.items
        ++ entry_places is_common to.now.shares (texts_in to.now.texts.now) to.now.known.now to.now.file (length places.old.items)
        (text_read (sources_view sections.now) base (value_read 0 pair.now (raw_view raw.now)))) }
{
    match text_of(sections, base, pair, raw) {
        Some(text) => put_text(places, to, is_common, text),
        None => Ok(()),
    }
}

// Appends those of an entry.
fn put_row(places: &mut Vec<TextAt>, to: &Scope, place: &Place) -> Result<(), NoMemory>
    requires entry { place.now.entry < entries_in (units_of place.now.units.now) }
    requires bases { place.now.bases.now ≡ map slots_base (units_of place.now.units.now) }
    ensures { (row : EntryRow) → slice_get (rows_of (units_of place.now.units.now)) place.now.entry ≡ Some row
        → OnOk result (places.new.items ≡ places.old.items
        ++ entry_places (written_there (is_made to.now.texts.now) to.now.known.now to.now.file place.now.entry) to.now.shares (texts_in to.now.texts.now) to.now.known.now
        to.now.file (length places.old.items) (row_texts (sources_view place.now.sections.now) (units_of place.now.units.now) row)) }
{
    let base = base_of(place);
    let is_common = is_written_there(to, place.entry);
    let Values { pairs, mut cursor } = place.units.values(place.entry);
    for pair in pairs {
        let raw = known_value(&mut cursor, pair);
        put_value(places, to, is_common, place.sections, base, pair, &raw)?;
    }
    Ok(())
}

// Those of a file.
fn texts_of_file(alloc: Global, to: &Scope, file: &File) -> Result<Vec<TextAt>, NoMemory>
    ensures { IfOk result (λ places. places.items ≡ file_places (is_made to.now.texts.now) to.now.shares (texts_in to.now.texts.now) to.now.known.now to.now.file file.now) }
{
    let bases = bases_of_units(alloc, &file.units)?;
    let mut places = Vec::new(alloc);
    for entry in 0..file.units.entries() {
        let place = Place {
            sections: &file.sections,
            units: &file.units,
            bases: bases.as_slice(),
            entry,
        };
        put_row(&mut places, to, &place)?;
    }
    Ok(places)
}

/// Where the texts of each file are written once these are the texts of the common file: of each text of its entries that has a place in a
/// section (DWARF 5, 7.5.5, class string), in preorder, then in the order of attributes. A text of an entry that is written in the common
/// file stands there, and nothing is written in one that stands; one of another entry does so where its file shares the texts and the text
/// is among them; any other keeps the place that it has in `known`. `sharing` says of each file whether it shares them. `NoMemory` also
/// where a place has more than four bytes.
pub fn shared_texts(
    alloc: Global,
    files: &[File],
    known: &EntryTable,
    texts: &PlacedTexts,
    sharing: &[bool],
) -> Result<Vec<Vec<TextAt>>, NoMemory>
    ensures { IfOk result (λ all. HavePlaces (is_made texts.now) files.now (texts_in texts.now) sharing.now known.now (map (λ places. places.items) all.items)) }
{
    let mut all = Vec::with_capacity(alloc, files.len())?;
    for n in 0..files.len() {
        let to = Scope {
            known,
            texts,
            file: behind(0, n)?,
            shares: shares_in(sharing, n),
        };
        let places = texts_of_file(alloc, &to, &files[n])?;
        all.push(places)?;
    }
    Ok(all)
}
