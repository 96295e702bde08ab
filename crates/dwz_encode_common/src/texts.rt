//! The texts of what is written of the common file.

ghost use Rattle.std.specs.Prelude.{◌≡◌, ℕ, ◌<◌, ◌++◌, map, Some, [], slice_get, IfOk, OnOk};
ghost use Rattle.dwz_def_reading.specs.Units.{entries_in};
ghost use Rattle.dwz_forms.specs.RawValues.{raw_view};
ghost use Rattle.dwz_layout.specs.Attributes.{value_read};
ghost use Rattle.dwz_graph.specs.Resolved.{sources_view};
ghost use Rattle.dwz_unit.specs.Rows.{EntryRow, rows_of, units_of};
ghost use Rattle.dwz_def_readback.specs.Files.{texts};
ghost use Rattle.dwz_law_layout.specs.Beside.{Alone};
ghost use Rattle.dwz_law_layout.specs.Facts.{RunFacts, run};
ghost use Rattle.dwz_encode_common.specs.CommonLaws.{IsCommonOrder};
ghost use Rattle.dwz_encode_common.specs.Gathered.{with_all};
ghost use Rattle.dwz_encode_common.specs.Stored;
ghost use Rattle.dwz_encode_common.specs.Stored.{by_row, file_bases, items_give, order_texts, origin_texts, row_name, row_texts, slots_base};

use crate::bases::bases_of_files;
use crate::places::{Place, place_of};
use crate::pool::Pool;
use crate::stored::text_of;
use dwz_codes::DW_AT_NAME;
use dwz_forms::Raw;
use dwz_graph::{Graph, InputSections, first_attr};
use dwz_layout::{EntryTable, Origin, Row, UnitItems, Walk};
use dwz_model::{NoMemory, Pair};
use dwz_unit::{Values, known_value};
use std::alloc::Global;

// The text of a value is used.
#[inline(always)]
fn put_value(
    pool: &mut Pool,
    sections: &InputSections,
    base: Option<u32>,
    pair: &Pair,
    raw: &Raw,
) -> Result<(), NoMemory>
    ensures { OnOk result
        (pool.new ≡ with_all pool.old (Stored.text_read (sources_view sections.now) base (value_read 0 pair.now (raw_view raw.now)))) }
{
    match text_of(sections, base, pair, raw) {
        Some(text) => pool.put(text),
        None => Ok(()),
    }
}

// The base of the slots of its unit.
pub(crate) fn base_of(place: &Place) -> Option<u32>
    requires entry { place.now.entry < entries_in (units_of place.now.units.now) }
    requires bases { place.now.bases.now ≡ map slots_base (units_of place.now.units.now) }
    ensures { (row : EntryRow) → slice_get (rows_of (units_of place.now.units.now)) place.now.entry ≡ Some row
        → result ≡ Stored.slots_base_at (units_of place.now.units.now) row.unit }
{
    place.bases[place.units.entry(place.entry).unit as usize]
}

// The texts of an entry are used.
fn put_row(pool: &mut Pool, place: &Place) -> Result<(), NoMemory>
    requires entry { place.now.entry < entries_in (units_of place.now.units.now) }
    requires bases { place.now.bases.now ≡ map slots_base (units_of place.now.units.now) }
    ensures { (row : EntryRow) → slice_get (rows_of (units_of place.now.units.now)) place.now.entry ≡ Some row
        → OnOk result (pool.new ≡ with_all pool.old (row_texts (sources_view place.now.sections.now) (units_of place.now.units.now) row)) }
{
    let base = base_of(place);
    let Values { pairs, mut cursor } = place.units.values(place.entry);
    for pair in pairs {
        let raw = known_value(&mut cursor, pair);
        put_value(pool, place.sections, base, pair, &raw)?;
    }
    Ok(())
}

// The name of a space is used.
fn put_name(pool: &mut Pool, place: &Place) -> Result<(), NoMemory>
    requires entry { place.now.entry < entries_in (units_of place.now.units.now) }
    requires bases { place.now.bases.now ≡ map slots_base (units_of place.now.units.now) }
    ensures { (row : EntryRow) → slice_get (rows_of (units_of place.now.units.now)) place.now.entry ≡ Some row
        → OnOk result (pool.new ≡ with_all pool.old (row_name (sources_view place.now.sections.now) (units_of place.now.units.now) row)) }
{
    let base = base_of(place);
    match first_attr(place.units, place.entry, DW_AT_NAME) {
        Some(attr) => put_value(pool, place.sections, base, &attr.pair, &attr.raw),
        None => Ok(()),
    }
}

// The texts of an entry of the lists are used.
fn put_row_at(
    pool: &mut Pool,
    graph: &Graph,
    known: &EntryTable,
    bases: &[Vec<Option<u32>>],
    row: Row,
) -> Result<(), NoMemory>
    requires { map (λ b. b.items) bases.now ≡ map file_bases known.now.files.items }
    ensures { OnOk result (pool.new ≡ with_all pool.old (by_row graph.now.given known.now row row_texts)) }
{
    match place_of(graph, known, bases, row) {
        Some(place) => put_row(pool, &place),
        None => Ok(()),
    }
}

// The name of a space of the lists is used.
fn put_name_at(
    pool: &mut Pool,
    graph: &Graph,
    known: &EntryTable,
    bases: &[Vec<Option<u32>>],
    row: Row,
) -> Result<(), NoMemory>
    requires { map (λ b. b.items) bases.now ≡ map file_bases known.now.files.items }
    ensures { OnOk result (pool.new ≡ with_all pool.old (by_row graph.now.given known.now row row_name)) }
{
    match place_of(graph, known, bases, row) {
        Some(place) => put_name(pool, &place),
        None => Ok(()),
    }
}

// What an entry that is written names is used.
fn put_entry(
    pool: &mut Pool,
    graph: &Graph,
    known: &EntryTable,
    bases: &[Vec<Option<u32>>],
    origin: Origin,
) -> Result<(), NoMemory>
    requires { map (λ b. b.items) bases.now ≡ map file_bases known.now.files.items }
    ensures { OnOk result (pool.new ≡ with_all pool.old (origin_texts graph.now.given known.now origin)) }
{
    match origin {
        Origin::Read(row) => put_row_at(pool, graph, known, bases, row),
        Origin::OwnRoot(_) => Ok(()),
        Origin::Chained { space, .. } => {
            put_name_at(pool, graph, known, bases, known.space(space).row)
        }
        Origin::Imported(_) => Ok(()),
    }
}

// What the entries of a unit name is used.
fn put_unit(
    pool: &mut Pool,
    graph: &Graph,
    known: &EntryTable,
    bases: &[Vec<Option<u32>>],
    items: &UnitItems,
) -> Result<(), NoMemory>
    requires { map (λ b. b.items) bases.now ≡ map file_bases known.now.files.items }
    ensures { OnOk result (pool.new ≡ with_all pool.old (items_give (origin_texts graph.now.given known.now) known.now items.now)) }
{
    let mut walk = Walk::new(known, items);
    while let Some(entry) = walk.next() {
        put_entry(pool, graph, known, bases, entry.origin)?;
    }
    Ok(())
}

/// The texts of all values of these units that have a place in a section (DWARF 5, 7.5.5, class string), each once, in the order in which
/// they come, entry by entry and value by value. Where the units are all of the common file, these are its texts.
pub fn common_texts(
    alloc: Global,
    graph: &Graph,
    known: &EntryTable,
    order: &[UnitItems],
) -> Result<Pool, NoMemory>
    ensures said { IfOk result (λ pool. pool ≡ with_all [] (order_texts graph.now.given known.now order.now)) }
    ensures common { (f : RunFacts Alone) → f.contents ≡ graph.now.given → IsCommonOrder f known.now order.now
        → IfOk result (λ pool. pool ≡ texts (run f)) }
{
    let bases = bases_of_files(alloc, known.files.as_slice())?;
    let mut pool = Pool::new(alloc);
    for items in order {
        put_unit(&mut pool, graph, known, bases.as_slice(), items)?;
    }
    Ok(pool)
}
