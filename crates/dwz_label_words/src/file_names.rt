//! The names of a file.

ghost use Rattle.std.specs.Prelude.{◌≡◌, ℕ, ◌<◌, ◌≤◌, ◌^◌, List, Some, IfOk, OnOk, length, slice_get};
ghost use Rattle.dwz_def_reading.specs.Documents.{File, Text};
ghost use Rattle.dwz_def_reading.specs.LineTables.{FileTable, nth_path};
ghost use Rattle.dwz_def_reading.specs.TextRows.{text_number};
ghost use Rattle.dwz_def_reading.specs.Texts;
ghost use Rattle.dwz_label.specs.Labels.{plain_label};
ghost use Rattle.dwz_label_words.specs.Known.{HasName, StaysNamed};
ghost use Rattle.dwz_label_words.specs.Shapes.{pairs_shape};
ghost use Rattle.dwz_model.specs.declared.place.Pair.{Pair};

use crate::made::{name_path, name_shape, name_text};
use dwz_label_marks::{Found, Names};
use dwz_lines::TableRows;
use dwz_model::NoMemory;
use dwz_strs::text_at;
use dwz_unit::Declarations;
use std::alloc::Global;
use std::marker::Model;

// How many numbers of texts, of paths and of shapes are kept at most.
const TEXTS: usize = 1 << 16;

const PATHS: usize = 1 << 12;

const SHAPES: usize = 1 << 16;

// Of how many rows of a table the numbers are kept.
const ROWS: u64 = 4096;

// Of how many tables, and of how many declarations.
const TABLES: usize = 1 << 32;

const DECLARATIONS: usize = 1 << 32;

// For how many numbers there is room where so many are told apart: half of the most, or a half of that, and so on.
fn room_for(count: usize, most: usize) -> usize
    requires { 0 < most }
    ensures { 0 < result }
{
    let mut room = most;
    'halving: while room > 16 && room / 2 >= count {
        room /= 2;
    }
    room
}

// The table with a number.
#[inline(always)]
fn table_at<'s, 'a>(tables: &'s [TableRows<'a>], table: usize) -> &'s TableRows<'a>
    requires { table < length tables.now }
    ensures { slice_get tables.now table ≡ Some result.now }
{
    &tables[table]
}

/// Names of what the entries of a file name again and again. Clauses see the file's texts, tables and declarations, and the names.
#[derive(Drop)]
pub struct FileNames<'s, 'a> {
    strs: &'a [u8],
    tables: &'s [TableRows<'a>],
    declarations: Declarations<'s>,
    names: Names,
    // The numbers that were found before.
    texts: Found,
    paths: Found,
    shapes: Found,
    // The name that was made last.
    made: Vec<u8>,
}

impl<'s, 'a> Model for FileNames<'s, 'a> {
    ghost use Rattle.dwz_label_words.specs.Known.{AreFound, FileNames};

    ghost Value = { FileNames };

    ghost view = { λ f. record { strs = f.strs.now; tables = f.tables.now; declarations = f.declarations; names = f.names } };

    ghost invariant = { λ f. AreFound f.names f.strs.now f.tables.now f.declarations f.texts f.paths f.shapes };
}

impl<'s, 'a> FileNames<'s, 'a> {
    /// The names that there are, to be used for a file with these texts (`.debug_str`), line tables and declarations.
    pub fn new(
        alloc: Global,
        strs: &'a [u8],
        tables: &'s [TableRows<'a>],
        declarations: Declarations<'s>,
        names: Names,
    ) -> Result<FileNames<'s, 'a>, NoMemory>
        ensures { IfOk result (λ f. f ≡ record { strs = strs.now; tables = tables.now; declarations = declarations.entry; names = names }) }
    {
        let texts = room_for(strs.len() / 8, TEXTS);
        let paths = room_for(tables.len().saturating_mul(64), PATHS);
        let shapes = room_for(declarations.len(), SHAPES);
        Ok(FileNames {
            strs,
            tables,
            declarations,
            names,
            texts: Found::new(alloc, texts)?,
            paths: Found::new(alloc, paths)?,
            shapes: Found::new(alloc, shapes)?,
            made: Vec::new(alloc),
        })
    }

    /// The names, for another file.
    pub fn into_names(self) -> Names
        ensures { result ≡ self.entry.names }
    {
        let FileNames { names, .. } = self;
        names
    }

    /// The number of the name of the text at an offset of `.debug_str`. None only where none stands there.
    #[inline(always)]
    pub fn text(&mut self, offset: u64) -> Result<Option<u32>, NoMemory>
        ensures stays { StaysNamed self.old self.new }
        ensures found { (text : List ℕ) → Texts.text_at self.old.strs offset ≡ Some text
            → IfOk result (λ n. HasName self.new.names (plain_label (Text text)) n) }
    {
        if let Some(number) = self.texts.get(offset) {
            return Ok(Some(number));
        }
        let Some(text) = text_at(self.strs, offset) else {
            return Ok(None);
        };
        let number = name_text(&mut self.names, &mut self.made, text)?;
        self.texts.put(offset, number);
        Ok(Some(number))
    }

    /// The number of the name of the path with a number in the table with a number. None only where there is none. No table has 2^63 paths.
    #[inline(always)]
    pub fn path(&mut self, alloc: Global, table: usize, row: u64) -> Result<Option<u32>, NoMemory>
        ensures stays { StaysNamed self.old self.new }
        ensures found { (t : FileTable) (path : List ℕ) → slice_get self.old.tables table ≡ Some t → nth_path t.paths row ≡ Some path
            → IfOk result (λ n. HasName self.new.names (plain_label (File (Some path))) n) }
        ensures many { (t : FileTable) → slice_get self.old.tables table ≡ Some t → 4096 ≤ row → OnOk result (length t.paths < 2 ^ 63) }
    {
        if row >= ROWS || table >= TABLES {
            return self.new_path(alloc, table, row);
        }
        let key = ROWS * table as u64 + row;
        if let Some(number) = self.paths.get(key) {
            return Ok(Some(number));
        }
        let Some(number) = self.new_path(alloc, table, row)? else {
            return Ok(None);
        };
        self.paths.put(key, number);
        Ok(Some(number))
    }

    // The same, where it wasn't found before.
    #[inline(never)]
    fn new_path(&mut self, alloc: Global, table: usize, row: u64) -> Result<Option<u32>, NoMemory>
        ensures stays { StaysNamed self.old self.new }
        ensures found { (t : FileTable) (path : List ℕ) → slice_get self.old.tables table ≡ Some t → nth_path t.paths row ≡ Some path
            → IfOk result (λ n. HasName self.new.names (plain_label (File (Some path))) n) }
        ensures many { (t : FileTable) → slice_get self.old.tables table ≡ Some t → OnOk result (length t.paths < 2 ^ 63) }
    {
        if table >= self.tables.len() {
            return Ok(None);
        }
        match table_at(self.tables, table).path(alloc, row)? {
            None => Ok(None),
            Some(path) => {
                let number = name_path(&mut self.names, &mut self.made, &path)?;
                Ok(Some(number))
            }
        }
    }

    /// The number of the name of the shape of an entry with that number and tag.
    #[inline(always)]
    pub fn shape(&mut self, entry: u32, tag: u16) -> Result<u32, NoMemory>
        requires { entry < length self.old.declarations.numbers }
        ensures stays { StaysNamed self.old self.new }
        ensures found { (decl : ℕ) (pairs : List Pair) → slice_get self.old.declarations.numbers entry ≡ Some decl
            → slice_get self.old.declarations.pairs decl ≡ Some pairs
            → IfOk result (λ n. text_number self.new.names (pairs_shape tag pairs) ≡ Some n) }
    {
        let decl = self.declarations.number(entry);
        self.shape_of(decl, tag)
    }

    // The same by the number of its declaration.
    #[inline(always)]
    fn shape_of(&mut self, decl: usize, tag: u16) -> Result<u32, NoMemory>
        requires { decl < length self.old.declarations.pairs }
        ensures stays { StaysNamed self.old self.new }
        ensures found { (pairs : List Pair) → slice_get self.old.declarations.pairs decl ≡ Some pairs
            → IfOk result (λ n. text_number self.new.names (pairs_shape tag pairs) ≡ Some n) }
    {
        if decl >= DECLARATIONS {
            return self.new_shape(decl, tag);
        }
        let key = DECLARATIONS as u64 * tag as u64 + decl as u64;
        if let Some(number) = self.shapes.get(key) {
            return Ok(number);
        }
        let number = self.new_shape(decl, tag)?;
        self.shapes.put(key, number);
        Ok(number)
    }

    // The same, where it wasn't found before.
    #[inline(never)]
    fn new_shape(&mut self, decl: usize, tag: u16) -> Result<u32, NoMemory>
        requires { decl < length self.old.declarations.pairs }
        ensures stays { StaysNamed self.old self.new }
        ensures found { (pairs : List Pair) → slice_get self.old.declarations.pairs decl ≡ Some pairs
            → IfOk result (λ n. text_number self.new.names (pairs_shape tag pairs) ≡ Some n) }
    {
        let pairs = self.declarations.pairs(decl);
        name_shape(&mut self.names, &mut self.made, tag, pairs)
    }

    /// The number of the name of any bytes.
    pub fn other(&mut self, bytes: &[u8]) -> Result<u32, NoMemory>
        ensures stays { StaysNamed self.old self.new }
        ensures found { IfOk result (λ n. text_number self.new.names bytes.now ≡ Some n) }
    {
        self.names.number(bytes)
    }
}
