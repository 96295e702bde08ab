//! The texts.

ghost use Rattle.std.specs.Prelude.{◌≡◌, ◌+◌, ◌-◌, ◌^◌, ◌<◌, ◌++◌, ◌∷◌, [], None, Some, IfOk, OnErr, OnOk, length, slice_get};
ghost use Rattle.std.specs.Option.{option_map};
ghost use Rattle.dwz_def_reading.specs.TextRows.{AreDifferent, start_of, text_number, text_section, with_text};

use crate::numbers::{Numbers, hash_of};
use crate::rows::Rows;
use dwz_model::NoMemory;
use std::alloc::Global;
use std::marker::Model;

/// Texts by number, and their numbers. Numbers count from 0 in the order of first use. Clauses see the texts in that order;
/// no two are equal.
#[derive(Drop)]
pub struct Texts {
    rows: Rows,
    numbers: Numbers,
}

impl Model for Texts {
    ghost use Rattle.std.specs.Prelude.{List, ℕ};

    ghost Value = { List (List ℕ) };

    ghost use Rattle.dwz_pool.specs.Numbered.{AreNumbered};
    ghost use Rattle.dwz_pool.specs.Stored.{HasTexts, texts_of};

    ghost view = { λ t. texts_of t.rows };

    ghost invariant = { λ t. HasTexts t.rows × AreNumbered (texts_of t.rows) t.numbers };
}

impl Texts {
    /// No texts. Takes no memory.
    pub fn new(alloc: Global) -> Texts
        ensures { result ≡ [] }
    {
        Texts {
            rows: Rows::new(alloc),
            numbers: Numbers::new(alloc),
        }
    }

    /// How many texts there are.
    pub fn len(&self) -> u32
        ensures count { result ≡ length self.now }
        ensures different { AreDifferent self.now }
        ensures short { length (text_section self.now) < 2 ^ 64 }
    {
        self.rows.places.len() as u32
    }

    /// How many bytes a section has that holds all texts in order, each with a zero byte after it.
    pub fn size(&self) -> u64
        ensures { result ≡ length (text_section self.now) }
    {
        self.rows.section.len() as u64
    }

    /// The text of a number. None exactly where the number isn't below the count.
    pub fn text(&self, i: u32) -> Option<&[u8]>
        ensures { option_map (λ t. t.now) result ≡ slice_get self.now i }
    {
        self.rows.text(i)
    }

    /// The number of a text. None exactly where it isn't there.
    pub fn find(&self, text: &[u8]) -> Option<u32>
        ensures { result ≡ text_number self.now text.now }
    {
        self.numbers.find(&self.rows, hash_of(text), text)
    }

    /// Where a text begins, in bytes from the first of a section that holds all texts in order, each with a zero byte after it.
    /// None exactly where it isn't there.
    pub fn start_of(&self, text: &[u8]) -> Option<u64>
        ensures { result ≡ start_of self.now text.now }
    {
        let number = self.find(text)?;
        let place = self.rows.places.get(number as usize)?;
        Some(place.start as u64)
    }

    // Appends a text that isn't there. After an error nothing has changed.
    fn add(&mut self, text: &[u8]) -> Result<(), NoMemory>
        requires new { text_number self.old text.now ≡ None }
        requires few { length self.old < 2 ^ 32 - 1 }
        ensures ok { OnOk result (self.new ≡ self.old ++ text.now ∷ []) }
        ensures err { OnErr result (self.new ≡ self.old) }
    {
        let number = self.rows.places.len() as u32;
        let alloc = *self.rows.section.allocator();
        self.rows.reserve(text.len())?;
        self.numbers.add(alloc, hash_of(text), text, number)?;
        self.rows.push(text);
        Ok(())
    }

    /// The number of a text: the one that it has, or the next, under which it is then there. A text that is there isn't
    /// copied. After an error nothing has changed.
    pub fn number(&mut self, text: &[u8]) -> Result<u32, NoMemory>
        requires few { length self.old < 2 ^ 32 - 1 }
        requires short { length (text_section self.old) + (length text.now + 1) < 2 ^ 64 }
        ensures ok { OnOk result (self.new ≡ with_text self.old text.now) }
        ensures number { IfOk result (λ n. text_number self.new text.now ≡ Some n) }
        ensures err { OnErr result (self.new ≡ self.old) }
    {
        if let Some(number) = self.find(text) {
            return Ok(number);
        }
        let number = self.len();
        self.add(text)?;
        Ok(number)
    }
}
