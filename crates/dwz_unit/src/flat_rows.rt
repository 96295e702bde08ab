//! Lists that lie in one row.

ghost use Rattle.std.specs.Prelude.{◌≡◌, ◌<◌, ◌++◌, ◌∷◌, All, IfOk, OnErr, OnOk, Some, [], length, map, slice_get};
ghost use Rattle.dwz_unit.specs.Spans.{IsWithin, part_of};

use crate::stops::Stop;
use dwz_model::{NoMemory, Pair};
use std::alloc::Global;
use std::marker::Model;

/// A part of a row of items.
#[derive(Clone, Copy)]
pub(crate) struct Span {
    /// How many items stand before it.
    pub first: usize,
    /// How many items it has.
    pub count: usize,
}

/// Lists, each a part of one row of items. Parts may overlap. Clauses see the lists.
#[derive(Drop)]
pub(crate) struct FlatRows<T> {
    items: Vec<T>,
    spans: Vec<Span>,
}

/// The names and forms of declarations (DWARF 5, 7.5.3).
pub(crate) type PairRows = FlatRows<Pair>;

/// The stops of declarations.
pub(crate) type StopRows = FlatRows<Stop>;

impl<T> Model for FlatRows<T> {
    ghost use Rattle.std.specs.Prelude.{List, map, length, All};
    ghost use Rattle.dwz_unit.specs.Spans.{IsWithin, part_of};

    ghost Value = { List (List T) };

    ghost view = { λ r. map (part_of r.items.items) r.spans.items };

    ghost invariant = { λ r. All (IsWithin (length r.items.items)) r.spans.items };
}

impl<T> FlatRows<T> {
    /// The parts of a row.
    pub fn from_parts(items: Vec<T>, spans: Vec<Span>) -> FlatRows<T>
        requires { All (IsWithin (length items.items)) spans.items }
        ensures { result ≡ map (part_of items.items) spans.items }
    {
        FlatRows { items, spans }
    }

    /// How many lists there are.
    pub fn len(&self) -> usize
        ensures { result ≡ length self.now }
    {
        self.spans.len()
    }

    /// The list with a number.
    #[inline(always)]
    pub fn get(&self, number: usize) -> &[T]
        requires { number < length self.now }
        ensures { slice_get self.now number ≡ Some result.now }
    {
        let Span { first, count } = self.spans[number];
        &self.items[first..first + count]
    }

    /// The row of items, and the lists as parts of it.
    pub fn into_parts(self) -> (Vec<T>, Vec<Span>)
        ensures lists { self ≡ map (part_of result.0.items) result.1.items }
        ensures within { All (IsWithin (length result.0.items)) result.1.items }
    {
        let FlatRows { items, spans } = self;
        (items, spans)
    }
}

impl<T: Copy> FlatRows<T> {
    /// No list, and room for so many, and for so many items.
    pub fn with_capacity(alloc: Global, lists: usize, items: usize) -> Result<FlatRows<T>, NoMemory>
        ensures { IfOk result (λ rows. rows ≡ []) }
    {
        Ok(FlatRows {
            items: Vec::with_capacity(alloc, items)?,
            spans: Vec::with_capacity(alloc, lists)?,
        })
    }

    /// Puts a list behind the others.
    pub fn push(&mut self, list: &[T]) -> Result<(), NoMemory>
        ensures ok { OnOk result (self.new ≡ self.old ++ list.now ∷ []) }
        ensures err { OnErr result (self.new ≡ self.old) }
    {
        let first = self.items.len();
        let count = list.len();
        self.items.extend_from_slice(list)?;
        self.spans.push(Span { first, count })?;
        Ok(())
    }
}
