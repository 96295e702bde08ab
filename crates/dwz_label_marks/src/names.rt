//! Names: bytes that have numbers.

ghost use Rattle.std.specs.Prelude.{◌≡◌, ◌<◌, [], Some, IfOk, length, slice_get};
ghost use Rattle.dwz_def_reading.specs.TextRows.{text_number};
ghost use Rattle.dwz_label_marks.specs.Told.{Keeps};

use dwz_model::NoMemory;
use dwz_pool::Texts;
use std::alloc::{AllocError, Global};
use std::marker::Model;

/// Bytes that have numbers, counted from 0 in the order of first use. Clauses see them in that order; no two are equal.
#[derive(Drop)]
pub struct Names {
    texts: Texts,
}

impl Model for Names {
    ghost use Rattle.std.specs.Prelude.{List, ℕ};

    ghost Value = { List (List ℕ) };

    ghost view = { λ n. n.texts };
}

impl Names {
    /// No names. Takes no memory.
    pub fn new(alloc: Global) -> Names
        ensures { result ≡ [] }
    {
        Names {
            texts: Texts::new(alloc),
        }
    }

    /// How many there are.
    pub fn len(&self) -> u32
        ensures { result ≡ length self.now }
    {
        self.texts.len()
    }

    /// The bytes with a number.
    pub fn bytes(&self, number: u32) -> &[u8]
        requires { number < length self.now }
        ensures { slice_get self.now number ≡ Some result.now }
    {
        match self.texts.text(number) {
            Some(bytes) => bytes,
            None => &[],
        }
    }

    /// The number of bytes: the one that they have, or the next. `NoMemory` also where there would be 2^32 names, or 2^64 bytes of them.
    /// Numbers stay, after an error too.
    pub fn number(&mut self, bytes: &[u8]) -> Result<u32, NoMemory>
        ensures kept { Keeps self.old self.new }
        ensures number { IfOk result (λ n. text_number self.new bytes.now ≡ Some n) }
    {
        if self.texts.len() == u32::MAX {
            return Err(AllocError);
        }
        let Some(_size) = self.texts.size().checked_add(bytes.len() as u64 + 1) else {
            return Err(AllocError);
        };
        let number = self.texts.number(bytes)?;
        Ok(number)
    }
}
