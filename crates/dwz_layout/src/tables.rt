//! The tables of `.debug_abbrev`, each once.
//!
//! They are found by their bytes, in an ordered map. Its order isn't that in which they stand, so the length of each is kept beside it:
//! clauses see the section cut by these lengths. Each table stands in memory twice, here and as a key.

ghost use Rattle.std.specs.Prelude.{◌≡◌, ◌==◌, ◌<◌, ◌^◌, ◌+◌, ◌++◌, ◌∷◌, [], None, IfOk, OnErr, OnOk, Some, length};
ghost use Rattle.dwz_def_encoding.specs.Writing.{joined, or_zero, table_in, with_table};
ghost use Rattle.dwz_layout.specs.Maps.{FindsSame, Puts};

use dwz_model::NoMemory;
use std::alloc::Global;
use std::collections::BTreeMap;
use std::marker::Model;

/// Tables, one behind the other. Clauses see them in that order.
#[derive(Drop)]
pub struct Tables {
    section: Vec<u8>,
    // The length of each table, in their order.
    lengths: Vec<usize>,
    // Each table with its offset in the section.
    offsets: BTreeMap<Vec<u8>, u64>,
}

impl Model for Tables {
    ghost use Rattle.std.specs.Prelude.{List, ℕ};

    ghost Value = { List (List ℕ) };

    ghost use Rattle.dwz_layout.specs.Tables.{HasTables, parts};

    ghost view = { λ t. parts t.lengths.items t.section.items };

    ghost invariant = { λ t. HasTables t.section.items t.lengths.items t.offsets };
}

// Appends a table to a section, and keeps its offset. After an error nothing has changed.
fn put(
    section: &mut Vec<u8>,
    offsets: &mut BTreeMap<Vec<u8>, u64>,
    table: Vec<u8>,
) -> Result<u64, NoMemory>
    ensures offset { IfOk result (λ offset. offset ≡ length section.old.items) }
    ensures section { OnOk result (section.new.items ≡ section.old.items ++ table.items) }
    ensures offsets { IfOk result (λ offset. Puts offsets.old offsets.new table.items (Some offset)) }
    ensures err { OnErr result (section.new.items ≡ section.old.items) }
    ensures same { OnErr result (FindsSame offsets.old offsets.new) }
{
    let before = section.len();
    section.extend_from_slice(&table)?;
    if let Err(failed) = offsets.insert(table, before as u64) {
        section.truncate(before);
        return Err(failed.into());
    }
    Ok(before as u64)
}

impl Tables {
    /// No tables.
    pub fn new(alloc: Global) -> Tables
        ensures { result ≡ [] }
    {
        Tables {
            section: Vec::new(alloc),
            lengths: Vec::new(alloc),
            offsets: BTreeMap::new(alloc),
        }
    }

    /// How many bytes the section has.
    pub fn len(&self) -> u64
        ensures len { result ≡ length (joined self.now) }
        ensures small { result < 2 ^ 63 }
    {
        self.section.len() as u64
    }

    /// Whether the section has no bytes.
    pub fn is_empty(&self) -> bool
        ensures { result ≡ (length (joined self.now) == 0) }
    {
        self.len() == 0
    }

    // The offset of a table, if it is among them.
    fn offset_of(&self, table: &[u8]) -> Option<u64>
        ensures { result ≡ table_in 0 self.now table.now }
    {
        self.offsets.get(table).copied()
    }

    // Appends a table that isn't among them. After an error nothing has changed.
    fn add(&mut self, table: Vec<u8>) -> Result<u64, NoMemory>
        requires { table_in 0 self.old table.items ≡ None }
        ensures offset { IfOk result (λ offset. offset ≡ length (joined self.old)) }
        ensures ok { OnOk result (self.new ≡ self.old ++ table.items ∷ []) }
        ensures err { OnErr result (self.new ≡ self.old) }
    {
        self.lengths.push(table.len())?;
        match put(&mut self.section, &mut self.offsets, table) {
            Ok(offset) => Ok(offset),
            Err(failed) => {
                self.lengths.pop();
                Err(failed)
            }
        }
    }

    /// The offset of a table, which is appended if it isn't among them. After an error nothing has changed.
    pub fn keep(&mut self, table: Vec<u8>) -> Result<u64, NoMemory>
        ensures offset { IfOk result (λ offset. offset ≡ or_zero (table_in 0 (with_table self.old table.items) table.items)) }
        ensures ok { OnOk result (self.new ≡ with_table self.old table.items) }
        ensures err { OnErr result (self.new ≡ self.old) }
    {
        match self.offset_of(&table) {
            Some(offset) => Ok(offset),
            None => self.add(table),
        }
    }

    /// The bytes of the section.
    pub fn section(&self) -> &[u8]
        ensures { result.now ≡ joined self.now }
    {
        self.section.as_slice()
    }
}
