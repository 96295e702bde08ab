//! Texts, each once.

ghost use Rattle.std.specs.Prelude.{◌≡◌, false, true, [], MatchOption, OnOk};
ghost use Rattle.dwz_def_encoding.specs.Placing.{has_text, path_index, text_place, with_common_text};

use dwz_layout::more;
use dwz_model::NoMemory;
use dwz_pool::Texts;
use std::alloc::{AllocError, Global};
use std::marker::Model;

/// Texts, each once, in the order of their first use. Clauses see them in that order.
#[derive(Drop)]
pub struct Pool {
    pub(crate) texts: Texts,
}

impl Model for Pool {
    ghost use Rattle.std.specs.Prelude.{List, ℕ};

    ghost Value = { List (List ℕ) };

    ghost view = { λ p. p.texts };
}

impl Pool {
    /// No texts. Takes no memory.
    pub fn new(alloc: Global) -> Pool
        ensures { result ≡ [] }
    {
        Pool {
            texts: Texts::new(alloc),
        }
    }

    /// A text is used: it comes behind the others, if it isn't there yet. `NoMemory` also where there would be 2^32 texts, or 2^64 bytes.
    pub fn put(&mut self, text: &[u8]) -> Result<(), NoMemory>
        ensures { OnOk result (self.new ≡ with_common_text self.old text.now) }
    {
        if self.texts.len() == u32::MAX {
            return Err(AllocError);
        }
        more(self.texts.size(), text.len() as u64 + 1)?;
        self.texts.number(text)?;
        Ok(())
    }

    /// Where a text begins, in bytes from the first of a section that holds all texts in order, each with a zero byte after it. None
    /// exactly where it isn't there.
    pub fn start_of(&self, text: &[u8]) -> Option<u64>
        ensures { MatchOption result (has_text self.now text.now ≡ false)
            (λ at. (has_text self.now text.now ≡ true) × (at ≡ text_place self.now text.now)) }
    {
        self.texts.start_of(text)
    }

    /// The number of a text, counted from 0. None exactly where it isn't there.
    pub fn find(&self, text: &[u8]) -> Option<u32>
        ensures { MatchOption result (has_text self.now text.now ≡ false)
            (λ n. (has_text self.now text.now ≡ true) × (n ≡ path_index self.now text.now)) }
    {
        self.texts.find(text)
    }
}
