//! What is known of the entries of all files, in flat lists by their numbers.

ghost use Rattle.std.specs.Prelude.{◌≡◌, ◌+◌, ◌<◌, ◌^◌, All, IfSome, MatchOption, None, OnSome, slice_index};
ghost use Rattle.std.specs.Option.{option_map};
ghost use Rattle.dwz_def_reading.specs.Abbrevs.{IsPlainPair};
ghost use Rattle.dwz_unit.specs.Rows.{entry_shown};
ghost use Rattle.dwz_layout.specs.Known.{HasValues, file_at, firsts_of, number_of, owner_of, reference_at, row_at, space_at, text_at};
ghost use Rattle.dwz_layout.specs.Known.{text_held, top_row, unit_of_part};
ghost use Rattle.dwz_layout.specs.Ways.{holder_view};

use crate::ways::UnitRole;
use dwz_unit::{RawEntry, Units, Values};

/// An entry that was read: the number of its file, and its number there, in preorder over all units.
#[derive(Clone, Copy)]
pub struct Row {
    pub file: u32,
    pub entry: u32,
}

/// Where what an entry names begins: among the references, among the texts, and among the numbers of files of its file.
#[derive(Clone, Copy)]
pub struct ValueCounts {
    pub reference: u64,
    pub text: u64,
    pub file: u64,
}

/// Where a text is written: an offset in `.debug_str` of a file (DWARF 5, 7.5.5).
#[derive(Clone, Copy)]
pub enum TextAt {
    /// Of the file itself, as it was read or as it is pruned (`DW_FORM_strp`).
    Own(u32),
    /// Of the common file, in a unit of another file (`DW_FORM_strp_sup`).
    Shared(u32),
    /// Of the common file, in a unit of that file (`DW_FORM_strp`).
    Pooled(u32),
}

/// The entries of a file that was read, and what they name.
#[derive(Drop)]
pub struct FileRows<'u, 'a> {
    pub units: &'u Units<'a>,
    /// The number of its first entry among those of all files.
    pub start: u32,
    /// For each entry where its own begin in the lists below.
    pub firsts: Vec<ValueCounts>,
    /// For each reference (DWARF 5, 7.5.5), but of `DW_AT_sibling`, and each operand of an expression that names an entry, in preorder,
    /// then in the order of attributes, then of operands: the entry that stands for its target after, by its number among all files.
    pub references: Vec<u32>,
    /// For each text that is stored by an offset or by a slot, in preorder, then in the order of attributes: where it is written with the
    /// entry. It counts only where a text isn't written as it was read.
    pub texts: Vec<TextAt>,
    /// For each value that is the number of a file (2.14), in preorder, then in the order of attributes: the number of its path in the
    /// common file's line table, and 0 for no file. It counts only where the entry is written in the common file.
    pub files: Vec<u32>,
}

/// A space: its entry, and where its name is written in a partial unit of its file, and in one of the common file.
#[derive(Clone, Copy)]
pub struct SpaceRow {
    pub row: Row,
    pub text: TextAt,
    pub common: TextAt,
}

impl SpaceRow {
    /// Where its name is written in a partial unit that this holds.
    #[inline(always)]
    pub fn text_in(&self, holder: UnitRole) -> TextAt
        ensures { result ≡ text_held (holder_view holder) self.now }
    {
        match holder {
            UnitRole::CommonUnit => self.common,
            _ => self.text,
        }
    }
}

/// The entries that were read, what they refer to, and the units in which they are written. Units that are written are counted over all
/// files, the common one first.
#[derive(Drop)]
pub struct EntryTable<'u, 'a> {
    pub files: Vec<FileRows<'u, 'a>>,
    /// For each entry, by its number among all files, the unit in which it is written, where it stands for itself or for others.
    pub owners: Vec<u32>,
    /// For each top its entry.
    pub tops: Vec<Row>,
    /// For each space its entry.
    pub spaces: Vec<SpaceRow>,
    /// For each partial unit the unit that it is among those that are written.
    pub parts: Vec<u32>,
    /// How many units the common file has.
    pub commons: u32,
}

// The number at a place, and 0 behind the last one.
#[inline(always)]
fn at_or_zero(numbers: &[u32], i: u64) -> u32
    ensures { result ≡ slice_index numbers.now i }
{
    match numbers.get(i as usize) {
        Some(number) => *number,
        None => 0,
    }
}

impl<'u, 'a> EntryTable<'u, 'a> {
    /// The entry, if it is there.
    #[inline(always)]
    pub fn entry(&self, row: Row) -> Option<RawEntry>
        ensures entry { result ≡ option_map entry_shown (row_at self.now row) }
        ensures tag { IfSome result (λ e. 0 < e.tag) }
        ensures few { OnSome result (row.entry + 1 < 2 ^ 32) }
    {
        let file = self.files.get(row.file as usize)?;
        if row.entry >= file.units.entries() {
            return None;
        }
        Some(file.units.entry(row.entry))
    }

    /// Its values.
    #[inline(always)]
    pub fn values(&self, row: Row) -> Option<Values<'u, 'a>>
        ensures values { MatchOption result (row_at self.now row ≡ None) (λ v. HasValues self.now row v.pairs.now v.cursor) }
        ensures plain { IfSome result (λ v. All IsPlainPair v.pairs.now) }
    {
        let file = self.files.get(row.file as usize)?;
        if row.entry >= file.units.entries() {
            return None;
        }
        Some(file.units.values(row.entry))
    }

    /// Its number among the entries of all files.
    #[inline(always)]
    pub fn number(&self, row: Row) -> u64
        ensures { result ≡ number_of self.now row }
    {
        match self.files.get(row.file as usize) {
            Some(file) => file.start as u64 + row.entry as u64,
            None => row.entry as u64,
        }
    }

    /// Where what it names begins.
    #[inline(always)]
    pub fn firsts(&self, row: Row) -> ValueCounts
        ensures { result ≡ firsts_of self.now row }
    {
        let none = ValueCounts {
            reference: 0,
            text: 0,
            file: 0,
        };
        match self.files.get(row.file as usize) {
            Some(file) => match file.firsts.get(row.entry as usize) {
                Some(firsts) => *firsts,
                None => none,
            },
            None => none,
        }
    }

    /// A reference of a file.
    #[inline(always)]
    pub fn reference(&self, file: u32, n: u64) -> u32
        ensures { result ≡ reference_at self.now file n }
    {
        match self.files.get(file as usize) {
            Some(file) => at_or_zero(file.references.as_slice(), n),
            None => 0,
        }
    }

    /// A text of a file.
    #[inline(always)]
    pub fn text(&self, file: u32, n: u64) -> TextAt
        ensures { result ≡ text_at self.now file n }
    {
        match self.files.get(file as usize) {
            Some(file) => match file.texts.get(n as usize) {
                Some(text) => *text,
                None => TextAt::Own(0),
            },
            None => TextAt::Own(0),
        }
    }

    /// The number of a path in the common file's line table, for a number of a file.
    #[inline(always)]
    pub fn file(&self, file: u32, n: u64) -> u32
        ensures { result ≡ file_at self.now file n }
    {
        match self.files.get(file as usize) {
            Some(file) => at_or_zero(file.files.as_slice(), n),
            None => 0,
        }
    }

    /// The unit in which an entry is written, by its number among all files.
    #[inline(always)]
    pub fn owner(&self, number: u32) -> u32
        ensures { result ≡ owner_of self.now number }
    {
        at_or_zero(self.owners.as_slice(), number as u64)
    }

    /// The unit that a partial unit is among those that are written.
    #[inline(always)]
    pub fn part(&self, part: u32) -> u32
        ensures { result ≡ unit_of_part self.now part }
    {
        at_or_zero(self.parts.as_slice(), part as u64)
    }

    /// The entry of a top.
    #[inline(always)]
    pub fn top(&self, top: u32) -> Row
        ensures { result ≡ top_row self.now top }
    {
        match self.tops.get(top as usize) {
            Some(row) => *row,
            None => Row { file: 0, entry: 0 },
        }
    }

    /// A space.
    #[inline(always)]
    pub fn space(&self, space: u32) -> SpaceRow
        ensures { result ≡ space_at self.now space }
    {
        match self.spaces.get(space as usize) {
            Some(space) => *space,
            None => SpaceRow {
                row: Row { file: 0, entry: 0 },
                text: TextAt::Own(0),
                common: TextAt::Own(0),
            },
        }
    }
}
