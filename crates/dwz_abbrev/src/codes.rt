//! Where each code leads.
//!
//! Compilers number the declarations of a table 1, 2, 3 and so on. The places of such codes follow from them, and a map has the places of
//! the others: so it is empty for the tables that compilers write.

ghost use Rattle.std.specs.Prelude.{◌≡◌, ◌<◌, ◌^◌, ◌++◌, ◌∷◌, List, [], ℕ, None, OnErr, OnOk, length};
ghost use Rattle.std.specs.BTreeMap.{get};
ghost use Rattle.std.specs.Ordering.{nat_cmp};
ghost use Rattle.dwz_abbrev.specs.Places.{Leads, place_in, place_of};

use dwz_model::NoMemory;
use std::alloc::Global;
use std::collections::BTreeMap;

/// The places of codes that differ, counted from 0.
#[derive(Drop)]
pub(crate) struct Codes {
    // So many of the first are one more than their places.
    pub counted: usize,
    // The places of the others.
    pub others: BTreeMap<u64, usize>,
}

impl Codes {
    /// No codes.
    pub(crate) fn new(alloc: Global) -> Codes
        ensures { Leads result [] }
    {
        Codes {
            counted: 0,
            others: BTreeMap::new(alloc),
        }
    }

    // The place of a code that doesn't follow from it.
    #[inline(never)]
    fn other(&self, code: u64) -> Option<usize>
        ensures { result ≡ get nat_cmp self.now.others code }
    {
        self.others.get(&code).copied()
    }

    /// The place of a code, if it is one of these.
    #[inline(always)]
    pub(crate) fn place(&self, code: u64) -> Option<usize>
        ensures { result ≡ place_in self.now code }
    {
        if code == 0 || code > self.counted as u64 {
            return self.other(code);
        }
        Some((code - 1) as usize)
    }

    /// Appends a code that none of them is, at the place behind them.
    pub(crate) fn push(&mut self, code: u64, place: usize) -> Result<(), NoMemory>
        requires { place < 2 ^ 63 }
        ensures ok { (codes : List ℕ) → Leads self.old codes → place ≡ length codes → place_of codes code ≡ None
            → OnOk result (Leads self.new (codes ++ code ∷ [])) }
        ensures err { (codes : List ℕ) → Leads self.old codes → OnErr result (Leads self.new codes) }
    {
        if self.counted == place && code == place as u64 + 1 {
            self.counted = place + 1;
        } else {
            self.others.insert(code, place)?;
        }
        Ok(())
    }
}
