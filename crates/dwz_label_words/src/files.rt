//! Paths of files.

ghost use Rattle.std.specs.Prelude.{◌≡◌, ℕ, pos, ◌<◌, ◌≤◌, ◌^◌, List, [], ◌∷◌, Some, None, Ok, true, OnOk};
ghost use Rattle.dwz_def_reading.specs.Documents.{File, Value};
ghost use Rattle.dwz_def_reading.specs.Entries.{RawAttr};
ghost use Rattle.dwz_def_reading.specs.Meanings.{MeaningContext, path_by, stmt_list};
ghost use Rattle.dwz_def_reading.specs.Meant.{file_by};
ghost use Rattle.dwz_def_reading.specs.LineTables.{FileTable};
ghost use Rattle.std.specs.Prelude.{slice_get};
ghost use Rattle.dwz_forms.specs.RawValues.{raw_view};
ghost use Rattle.dwz_graph.specs.Parts.{numbers_file};
ghost use Rattle.dwz_label_entries.specs.Plain.{KnowsLine};
ghost use Rattle.dwz_label_marks.specs.Marks.{plain_mark};
ghost use Rattle.dwz_label_marks.specs.Told.{Adds};
ghost use Rattle.dwz_label_words.specs.Known.{StaysNamed};

use crate::FileNames;
use dwz_forms::Raw;
use dwz_label_entries::number_of;
use dwz_label_marks::{put_named, put_plainly};
use dwz_model::NoMemory;
use std::alloc::Global;

// Stands for no file.
const NO_FILE: u64 = 4;

// A number that may be one of a row; no table has as many rows as 2^63.
#[inline(always)]
fn row_number(number: i128) -> u64
    ensures low { (n : ℕ) → number ≡ pos n → n < 2 ^ 63 → result ≡ n }
    ensures high { (n : ℕ) → number ≡ pos n → 2 ^ 63 ≤ n → 2 ^ 63 ≤ result }
{
    if number < 0 || number > u64::MAX as i128 {
        return u64::MAX;
    }
    number as u64
}

// Appends the mark of the file with a number in the table with a number.
#[inline(always)]
fn put_path_mark(
    alloc: Global,
    names: &mut FileNames,
    out: &mut Vec<u8>,
    table: usize,
    number: i128,
) -> Result<(), NoMemory>
    ensures stays { OnOk result (StaysNamed names.old names.new) }
    ensures told { (t : FileTable) (path : List ℕ) → slice_get names.old.tables table ≡ Some t → path_by t number ≡ Some path
        → OnOk result (Adds names.new.names (plain_mark (File (Some path)) ∷ []) out.old.items out.new.items) }
{
    match names.path(alloc, table, row_number(number))? {
        None => Ok(()),
        Some(name) => put_named(out, name),
    }
}

/// Appends the mark of the file whose number in the line table of its unit a value stores, by its path (DWARF 5, 2.14).
#[inline(always)]
pub(crate) fn put_file_mark(
    alloc: Global,
    names: &mut FileNames,
    out: &mut Vec<u8>,
    line: Option<usize>,
    raw: &Raw,
) -> Result<(), NoMemory>
    ensures stays { OnOk result (StaysNamed names.old names.new) }
    ensures told { (s : MeaningContext ℕ) (a : RawAttr) (v : Value ℕ) → numbers_file a ≡ true → a.raw ≡ raw_view raw.now
        → KnowsLine s a names.old.tables line → file_by (stmt_list s) s a ≡ Ok v
        → OnOk result (Adds names.new.names (plain_mark v.plain ∷ []) out.old.items out.new.items) }
{
    match line {
        None => put_plainly(out, NO_FILE),
        Some(table) => put_path_mark(alloc, names, out, table, number_of(raw)),
    }
}
