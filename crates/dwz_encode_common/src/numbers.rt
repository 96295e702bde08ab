//! The numbers of files in the line table of the common file.

ghost use Rattle.std.specs.Prelude.{◌≡◌, ◌<◌, ◌++◌, map, Some, slice_get, IfOk, OnOk};
ghost use Rattle.std.specs.Option.{option_map};
ghost use Rattle.dwz_def_reading.specs.Units.{entries_in};
ghost use Rattle.dwz_forms.specs.RawValues.{raw_view};
ghost use Rattle.dwz_layout.specs.Attributes.{value_read};
ghost use Rattle.dwz_unit.specs.Rows.{EntryRow, rows_of, units_of};
ghost use Rattle.dwz_encode_common.specs.Numbers as Specs;
ghost use Rattle.dwz_encode_common.specs.Numbers.{number_read, numbers_in_file, row_numbers};

use crate::paths::{is_file, number_of, path_at};
use crate::pool::Pool;
use dwz_forms::Raw;
use dwz_graph::File;
use dwz_layout::behind;
use dwz_lines::TableRows;
use dwz_model::{NoMemory, Pair, at_or};
use dwz_unit::{Values, known_value};
use std::alloc::Global;

// The number of a path, counted from 1, and 0 where there is none.
fn number_in(paths: &Pool, path: Option<Vec<u8>>) -> Result<u32, NoMemory>
    ensures { IfOk result (λ n. n ≡ Specs.number_in paths.now (option_map (λ p. p.items) path)) }
{
    let Some(path) = path else {
        return Ok(0);
    };
    match paths.find(&path) {
        None => Ok(0),
        Some(number) => behind(number, 1),
    }
}

// Appends that of a value, if it is the number of a file.
fn put_number(
    alloc: Global,
    numbers: &mut Vec<u32>,
    paths: &Pool,
    tables: &[TableRows],
    line: Option<usize>,
    pair: &Pair,
    raw: &Raw,
) -> Result<(), NoMemory>
    ensures { OnOk result (numbers.new.items
        ≡ numbers.old.items ++ number_read paths.now tables.now line (value_read 0 pair.now (raw_view raw.now))) }
{
    if !is_file(pair) {
        return Ok(());
    }
    let path = path_at(alloc, tables, line, number_of(raw))?;
    let number = number_in(paths, path)?;
    numbers.push(number)?;
    Ok(())
}

// Appends those of an entry of a file.
fn put_row(
    alloc: Global,
    numbers: &mut Vec<u32>,
    paths: &Pool,
    file: &File,
    entry: u32,
) -> Result<(), NoMemory>
    requires { entry < entries_in (units_of file.now.units) }
    ensures { (row : EntryRow) → slice_get (rows_of (units_of file.now.units)) entry ≡ Some row
        → OnOk result (numbers.new.items ≡ numbers.old.items ++ row_numbers paths.now file.now row) }
{
    let unit = file.units.entry(entry).unit;
    let line = at_or(file.resolved.lines.as_slice(), unit as usize, None);
    let tables = file.resolved.tables.as_slice();
    let Values { pairs, mut cursor } = file.units.values(entry);
    for pair in pairs {
        let raw = known_value(&mut cursor, pair);
        put_number(alloc, numbers, paths, tables, line, pair, &raw)?;
    }
    Ok(())
}

// Those of a file.
fn numbers_of_file(alloc: Global, paths: &Pool, file: &File) -> Result<Vec<u32>, NoMemory>
    ensures { IfOk result (λ numbers. numbers.items ≡ numbers_in_file paths.now file.now) }
{
    let mut numbers = Vec::new(alloc);
    for i in 0..file.units.entries() {
        put_row(alloc, &mut numbers, paths, file, i)?;
    }
    Ok(numbers)
}

/// For each file, and each of its values that is the number of a file (DWARF 5, 2.14), in preorder, then in the order of attributes: the
/// number of its path in a line table that has these paths, counted from 1, and 0 where the value is no file or its path isn't there.
pub fn path_numbers(alloc: Global, files: &[File], paths: &Pool) -> Result<Vec<Vec<u32>>, NoMemory>
    ensures { IfOk result (λ all. map (λ numbers. numbers.items) all.items ≡ map (numbers_in_file paths.now) files.now) }
{
    let mut all = Vec::with_capacity(alloc, files.len())?;
    for file in files {
        let numbers = numbers_of_file(alloc, paths, file)?;
        all.push(numbers)?;
    }
    Ok(all)
}
