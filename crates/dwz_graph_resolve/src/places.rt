//! The numbers of the line tables that were read, by their places.

ghost use Rattle.std.specs.Prelude.{◌≡◌, ℕ, None, Some, IfSome, OnOk, cond, nat_eq};
ghost use Rattle.dwz_graph_resolve.specs.TablePlaces.{number_in};

use dwz_model::NoMemory;
use std::alloc::Global;
use std::collections::BTreeMap;
use std::marker::Model;

// A place of `.debug_line`, and the number of its table.
#[derive(Clone, Copy)]
struct Numbered {
    place: u32,
    table: usize,
}

/// For places of `.debug_line` the numbers of their tables. Clauses see rows of a place and a number.
#[derive(Drop)]
pub(crate) struct TablePlaces {
    all: BTreeMap<u32, usize>,
    // The one that was asked for last: values of a unit number files of one table.
    last: Option<Numbered>,
}

impl Model for TablePlaces {
    ghost use Rattle.std.specs.Prelude.{ℕ, List};
    ghost use Rattle.dwz_graph_resolve.specs.TablePlaces.{IsLast};

    ghost Value = { List (ℕ × ℕ) };

    ghost view = { λ p. p.all.entries };

    ghost invariant = { λ p. IsLast p.all.entries p.last };
}

impl TablePlaces {
    /// No place has a table.
    pub(crate) fn new(alloc: Global) -> TablePlaces
        ensures { (place : ℕ) → number_in result place ≡ None }
    {
        TablePlaces {
            all: BTreeMap::new(alloc),
            last: None,
        }
    }

    /// The number of the table at a place.
    pub(crate) fn get(&self, place: u32) -> Option<usize>
        ensures { result ≡ number_in self.now place }
    {
        self.all.get(&place).copied()
    }

    /// The same, where the same place is asked for again and again.
    #[inline(always)]
    pub(crate) fn find(&mut self, place: u32) -> Option<usize>
        ensures found { result ≡ number_in self.old place }
        ensures same { self.new ≡ self.old }
    {
        if let Some(last) = self.last {
            if last.place == place {
                return Some(last.table);
            }
        }
        self.look_up(place)
    }

    /// The number of the table at a place, if it was asked for last.
    #[inline(always)]
    pub(crate) fn last_at(&self, place: u32) -> Option<usize>
        ensures { IfSome result (λ number. number_in self.now place ≡ Some number) }
    {
        match self.last {
            None => None,
            Some(last) => {
                if last.place == place {
                    Some(last.table)
                } else {
                    None
                }
            }
        }
    }

    fn look_up(&mut self, place: u32) -> Option<usize>
        ensures found { result ≡ number_in self.old place }
        ensures same { self.new ≡ self.old }
    {
        match self.get(place) {
            None => None,
            Some(table) => {
                self.last = Some(Numbered { place, table });
                Some(table)
            }
        }
    }

    /// Gives the table at a place a number.
    pub(crate) fn insert(&mut self, place: u32, table: usize) -> Result<(), NoMemory>
        ensures { OnOk result ((q : ℕ) → number_in self.new q ≡ cond (nat_eq place q) (Some table) (number_in self.old q)) }
    {
        self.last = None;
        self.all.insert(place, table)?;
        Ok(())
    }
}
