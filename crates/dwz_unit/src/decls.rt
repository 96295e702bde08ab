//! The declarations of entries, by number.

ghost use Rattle.std.specs.Prelude.{◌≡◌, ◌<◌, Some, length, slice_get};

use crate::flat_rows::PairRows;
use crate::rows::Row;
use dwz_model::Pair;
use std::marker::Model;

/// The declarations of all entries (DWARF 5, 7.5.3). They are far fewer than entries, so what follows from names and forms alone is found
/// once for each of them.
#[derive(Drop)]
pub struct Declarations<'u> {
    pub(crate) entries: &'u [Row],
    pub(crate) pairs: &'u PairRows,
}

impl<'u> Model for Declarations<'u> {
    ghost use Rattle.std.specs.Prelude.{◌<◌, All, length, map};
    ghost use Rattle.dwz_unit.specs.Declarations.{Declarations};

    ghost Value = { Declarations };

    ghost view = { λ d. record { pairs = d.pairs.now; numbers = map (λ row. row.decl) d.entries.now } };

    ghost invariant = { λ d. All (λ row. row.decl < length d.pairs.now) d.entries.now };
}

impl<'u> Declarations<'u> {
    /// How many there are.
    pub fn len(&self) -> usize
        ensures { result ≡ length self.now.pairs }
    {
        self.pairs.len()
    }

    /// The names and forms of the one with a number.
    pub fn pairs(&self, number: usize) -> &'u [Pair]
        requires { number < length self.now.pairs }
        ensures { slice_get self.now.pairs number ≡ Some result.now }
    {
        self.pairs.get(number)
    }

    /// The number of the declaration of the entry with that number.
    #[inline(always)]
    pub fn number(&self, entry: u32) -> usize
        requires { entry < length self.now.numbers }
        ensures number { slice_get self.now.numbers entry ≡ Some result }
        ensures within { result < length self.now.pairs }
    {
        self.entries[entry as usize].decl as usize
    }
}
