//! What pruning gives.

ghost use Rattle.std.specs.Prelude.{◌≡◌, IfOk};
ghost use Rattle.dwz_strs.specs.Pruned.{RisesAlong, moved_in, pruning};

use crate::hints::Hints;
use dwz_model::NoMemory;
use std::alloc::Global;
use std::marker::Model;

/// A section from which what isn't used is taken out, and where the texts that are used stand in it. Clauses see its bytes, the
/// uses in ascending order, each once, and beside each its new number.
#[derive(Drop)]
pub struct Pruned {
    bytes: Vec<u8>,
    uses: Vec<u32>,
    numbers: Vec<u32>,
    // Where a use may stand among them. No clause speaks of these.
    hints: Hints,
}

impl Model for Pruned {
    ghost use Rattle.dwz_strs.specs.Pruned.{Pruning, RisesAlong, pruning};

    ghost Value = { Pruning };

    ghost view = { λ p. pruning p.bytes.items p.uses.items p.numbers.items };

    ghost invariant = { λ p. RisesAlong p.uses.items p.numbers.items };
}

impl Pruned {
    // What is left, and the new number of each use.
    pub(crate) fn new(
        alloc: Global,
        bytes: Vec<u8>,
        uses: Vec<u32>,
        numbers: Vec<u32>,
    ) -> Result<Pruned, NoMemory>
        requires { RisesAlong uses.items numbers.items }
        ensures { IfOk result (λ r. r ≡ pruning bytes.items uses.items numbers.items) }
    {
        let hints = Hints::new(alloc, uses.as_slice())?;
        Ok(Pruned {
            bytes,
            uses,
            numbers,
            hints,
        })
    }

    /// The new section.
    pub fn bytes(&self) -> &[u8]
        ensures { result.now ≡ self.now.bytes }
    {
        self.bytes.as_slice()
    }

    /// The new number of a use: where its text stands in the new section, in bytes from the section's first. None exactly where
    /// the offset is no use.
    pub fn moved(&self, offset: u32) -> Option<u32>
        ensures { result ≡ moved_in self.now offset }
    {
        let place = self.hints.place(offset);
        if place < self.uses.len() && self.uses[place] == offset {
            return Some(self.numbers[place]);
        }
        match self.uses.binary_search(&offset) {
            Ok(place) => Some(self.numbers[place]),
            Err(_) => None,
        }
    }
}
