//! The paths of the files that what is written of the common file numbers.

ghost use Rattle.std.specs.Prelude.{◌≡◌, ◌<◌, Some, [], slice_get, IfOk, OnOk};
ghost use Rattle.std.specs.Option.{option_map, option_to_list};
ghost use Rattle.dwz_def_readback.specs.Files.{paths};
ghost use Rattle.dwz_def_reading.specs.Units.{entries_in};
ghost use Rattle.dwz_law_layout.specs.Beside.{Alone};
ghost use Rattle.dwz_law_layout.specs.Facts.{RunFacts, run};
ghost use Rattle.dwz_forms.specs.RawValues.{raw_view};
ghost use Rattle.dwz_layout_numbers.specs.Befores;
ghost use Rattle.dwz_layout_numbers.specs.Befores.{is_pair_file};
ghost use Rattle.dwz_def_reading.specs.Meanings;
ghost use Rattle.dwz_layout.specs.Attributes.{value_read};
ghost use Rattle.dwz_unit.specs.Rows.{EntryRow, rows_of, units_of};
ghost use Rattle.dwz_encode_common.specs.CommonLaws.{IsCommonOrder};
ghost use Rattle.dwz_encode_common.specs.Gathered.{with_all};
ghost use Rattle.dwz_encode_common.specs.Paths;
ghost use Rattle.dwz_encode_common.specs.Paths.{order_paths, origin_paths, path_read, paths_at, row_paths};
ghost use Rattle.dwz_encode_common.specs.Stored.{items_give};

use crate::pool::Pool;
use dwz_codes::{Class, class_of, names_file};
use dwz_forms::Raw;
use dwz_graph::File;
use dwz_layout::{EntryTable, Origin, Row, UnitItems, Walk};
use dwz_lines::TableRows;
use dwz_model::{NoMemory, Pair, at_or};
use dwz_unit::{Values, known_value};
use std::alloc::Global;

fn is_constant(class: Class) -> bool
    ensures { result ≡ Befores.is_constant class }
{
    match class {
        Class::Constant => true,
        _ => false,
    }
}

/// Whether a value of that name and form is the number of a file.
pub(crate) fn is_file(pair: &Pair) -> bool
    ensures { result ≡ is_pair_file pair.now }
{
    is_constant(class_of(pair.form)) && names_file(pair.name)
}

/// The number that a value stores, and 0 where it stores bytes.
#[inline(always)]
pub(crate) fn number_of(raw: &Raw) -> i128
    ensures { result ≡ Meanings.number_of (raw_view raw.now) }
{
    match raw {
        Raw::Number(number) => *number,
        Raw::Bytes(_) => 0,
    }
}

// The path in the row with that number. No table has 2^64 rows.
fn path_by(alloc: Global, table: &TableRows, number: i128) -> Result<Option<Vec<u8>>, NoMemory>
    ensures { IfOk result (λ path. option_map (λ p. p.items) path ≡ Meanings.path_by table.now number) }
{
    if number < 0 {
        return Ok(None);
    }
    if number > u64::MAX as i128 {
        return table.path(alloc, u64::MAX);
    }
    table.path(alloc, number as u64)
}

// A path is used, if it is one.
fn put_path(pool: &mut Pool, path: Option<Vec<u8>>) -> Result<(), NoMemory>
    ensures { OnOk result (pool.new ≡ with_all pool.old (option_to_list (option_map (λ p. p.items) path))) }
{
    match path {
        Some(path) => pool.put(&path),
        None => Ok(()),
    }
}

/// The path in the row with that number, of one of these tables.
pub(crate) fn path_at(
    alloc: Global,
    tables: &[TableRows],
    line: Option<usize>,
    number: i128,
) -> Result<Option<Vec<u8>>, NoMemory>
    ensures { IfOk result (λ path. option_map (λ p. p.items) path ≡ Paths.path_in tables.now line number) }
{
    let Some(line) = line else {
        return Ok(None);
    };
    match tables.get(line) {
        Some(table) => path_by(alloc, table, number),
        None => Ok(None),
    }
}

// The path of a value is used, if it is the number of a file.
fn put_value(
    alloc: Global,
    pool: &mut Pool,
    tables: &[TableRows],
    line: Option<usize>,
    pair: &Pair,
    raw: &Raw,
) -> Result<(), NoMemory>
    ensures { OnOk result (pool.new ≡ with_all pool.old (path_read tables.now line (value_read 0 pair.now (raw_view raw.now)))) }
{
    if is_file(pair) {
        let path = path_at(alloc, tables, line, number_of(raw))?;
        put_path(pool, path)
    } else {
        Ok(())
    }
}

// The paths of an entry of a file are used.
fn put_row(alloc: Global, pool: &mut Pool, file: &File, entry: u32) -> Result<(), NoMemory>
    requires { entry < entries_in (units_of file.now.units) }
    ensures { (row : EntryRow) → slice_get (rows_of (units_of file.now.units)) entry ≡ Some row
        → OnOk result (pool.new ≡ with_all pool.old (row_paths file.now row)) }
{
    let unit = file.units.entry(entry).unit;
    let line = at_or(file.resolved.lines.as_slice(), unit as usize, None);
    let tables = file.resolved.tables.as_slice();
    let Values { pairs, mut cursor } = file.units.values(entry);
    for pair in pairs {
        let raw = known_value(&mut cursor, pair);
        put_value(alloc, pool, tables, line, pair, &raw)?;
    }
    Ok(())
}

// The paths of an entry of these files are used, if it is there.
fn put_row_at(alloc: Global, pool: &mut Pool, files: &[File], row: Row) -> Result<(), NoMemory>
    ensures { OnOk result (pool.new ≡ with_all pool.old (paths_at files.now row)) }
{
    let Some(file) = files.get(row.file as usize) else {
        return Ok(());
    };
    if row.entry >= file.units.entries() {
        return Ok(());
    }
    put_row(alloc, pool, file, row.entry)
}

// The paths of an entry that is written are used.
fn put_entry(alloc: Global, pool: &mut Pool, files: &[File], origin: Origin) -> Result<(), NoMemory>
    ensures { OnOk result (pool.new ≡ with_all pool.old (origin_paths files.now origin)) }
{
    match origin {
        Origin::Read(row) => put_row_at(alloc, pool, files, row),
        Origin::OwnRoot(_) => Ok(()),
        Origin::Chained { .. } => Ok(()),
        Origin::Imported(_) => Ok(()),
    }
}

// The paths of the entries of a unit are used.
fn put_unit(
    alloc: Global,
    pool: &mut Pool,
    files: &[File],
    known: &EntryTable,
    items: &UnitItems,
) -> Result<(), NoMemory>
    ensures { OnOk result (pool.new ≡ with_all pool.old (items_give (origin_paths files.now) known.now items.now)) }
{
    let mut walk = Walk::new(known, items);
    while let Some(entry) = walk.next() {
        put_entry(alloc, pool, files, entry.origin)?;
    }
    Ok(())
}

/// The paths of the files that the values of these units number (DWARF 5, 2.14), each once, in the order in which they come, entry by entry
/// and value by value. `files` are those whose entries the lists have. Where the units are all of the common file, these are the paths of
/// its line table.
pub fn common_paths(
    alloc: Global,
    files: &[File],
    known: &EntryTable,
    order: &[UnitItems],
) -> Result<Pool, NoMemory>
    ensures said { IfOk result (λ pool. pool ≡ with_all [] (order_paths files.now known.now order.now)) }
    ensures common { (f : RunFacts Alone) → f.files ≡ files.now → IsCommonOrder f known.now order.now
        → IfOk result (λ pool. pool ≡ paths (run f)) }
{
    let mut pool = Pool::new(alloc);
    for items in order {
        put_unit(alloc, &mut pool, files, known, items)?;
    }
    Ok(pool)
}
