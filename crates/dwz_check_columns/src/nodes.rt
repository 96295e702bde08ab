//! The columns of nodes: of tops, and of roots and spaces.

ghost use Rattle.std.specs.Prelude.{◌≡◌, ℕ, ◌+◌, ◌<◌, ◌^◌, ◌++◌, [], All, List, OnOk, false, length, map, not, slice_index, slice_index_or};
ghost use Rattle.dwz_check_columns.specs.Drawn.{top_lists};
ghost use Rattle.dwz_check_columns.specs.Puts.{PutsLists, PutsLone};
ghost use Rattle.dwz_check_index.specs.declared.index.CrossStarts.{CrossStarts};
ghost use Rattle.dwz_check_sides.specs.Names.{AreApart, Keeps};
ghost use Rattle.dwz_check_sides.specs.Says.{IsSide, SaysSome};
ghost use Rattle.dwz_def_check.specs.CrossNames.{cross_tops};
ghost use Rattle.dwz_def_reading.specs.Documents.{DwUnit};
ghost use Rattle.dwz_imports.specs.Imports.{imports_any, unit_nodes};

use dwz_check_index::TopEntry;
use dwz_check_sides::{NameLists, Side, space_lists};
use dwz_model::NoMemory;
use std::alloc::Global;

/// What is known of the nodes of the files so far.
#[derive(Drop)]
pub(crate) struct NodeDraft<'f> {
    /// The numbers of name lists.
    pub(crate) lists: NameLists<'f>,
    /// The number that the next name list may have.
    pub(crate) next: u32,
    /// Of each top the number of its name list.
    pub(crate) tops: Vec<u32>,
    /// Of each top whether it imports no partial unit.
    pub(crate) plain: Vec<bool>,
    /// Of each root and each space the number of its name list.
    pub(crate) lone: Vec<u32>,
}

// Adds the numbers of the roots and spaces that tops stand in, where entries have these.
fn put_outer(numbers: &[u32], tops: &[TopEntry], names: &mut Vec<u32>) -> Result<(), NoMemory>
    requires { All (λ t. t.outer < length numbers.now) tops.now }
    ensures { OnOk result (names.new.items ≡ names.old.items ++ map (λ t. slice_index numbers.now t.outer) tops.now) }
{
    for top in tops {
        names.push(numbers[top.outer as usize])?;
    }
    Ok(())
}

// Adds of tops whether they import nothing, where entries import what the flags say.
fn put_plain(importing: &[bool], tops: &[TopEntry], plain: &mut Vec<bool>) -> Result<(), NoMemory>
    requires { All (λ t. t.entry < length importing.now) tops.now }
    ensures { OnOk result (plain.new.items ≡ plain.old.items ++ map (λ t. not (slice_index_or importing.now t.entry false)) tops.now) }
{
    for top in tops {
        plain.push(!importing[top.entry as usize])?;
    }
    Ok(())
}

// Adds the numbers of these entries, where entries have these.
fn put_numbers(numbers: &[u32], entries: &[u32], names: &mut Vec<u32>) -> Result<(), NoMemory>
    requires { All (λ i. i < length numbers.now) entries.now }
    ensures { OnOk result (names.new.items ≡ names.old.items ++ map (slice_index numbers.now) entries.now) }
{
    for entry in entries {
        names.push(numbers[*entry as usize])?;
    }
    Ok(())
}

impl<'f> NodeDraft<'f> {
    /// Nothing yet. Takes no memory.
    pub(crate) fn new(alloc: Global) -> NodeDraft<'f>
        ensures lists { AreApart result.lists 1 }
        ensures next { result.next ≡ 1 }
        ensures tops { result.tops.items ≡ [] }
        ensures plain { result.plain.items ≡ [] }
        ensures lone { result.lone.items ≡ [] }
    {
        NodeDraft {
            lists: NameLists::new(alloc),
            next: 1,
            tops: Vec::new(alloc),
            plain: Vec::new(alloc),
            lone: Vec::new(alloc),
        }
    }

    /// Adds the tops, roots and spaces of a file, where entries import what the flags say.
    pub(crate) fn put_nodes(
        &mut self,
        alloc: Global,
        side: &Side<'f, '_>,
        importing: &[bool],
    ) -> Result<(), NoMemory>
        requires said { SaysSome side.now }
        requires some { 0 < self.old.next }
        requires room { self.old.next + length side.now.index.now.steps < 2 ^ 32 }
        requires flags { length importing.now ≡ length side.now.index.now.steps }
        ensures apart { AreApart self.old.lists self.old.next → OnOk result (AreApart self.new.lists self.new.next) }
        ensures next { OnOk result (self.new.next ≡ self.old.next + length side.now.index.now.steps) }
        ensures kept { OnOk result (Keeps self.old.lists self.new.lists) }
        ensures tops { (said : List (DwUnit ℕ)) (starts : CrossStarts) → IsSide side.now said starts
            → OnOk result (PutsLists self.new.lists (top_lists said) self.old.tops.items self.new.tops.items) }
        ensures plain { (said units : List (DwUnit ℕ)) (starts : CrossStarts) → IsSide side.now said starts
            → importing.now ≡ map (imports_any units) (unit_nodes said) → OnOk result (self.new.plain.items ≡ self.old.plain.items
            ++ map (λ t. not (imports_any units t.node)) (cross_tops said)) }
        ensures lone { (said : List (DwUnit ℕ)) (starts : CrossStarts) → IsSide side.now said starts
            → OnOk result (PutsLone self.new.lists said self.old.lone.items self.new.lone.items) }
    {
        let numbers = space_lists(alloc, side, &mut self.lists, self.next)?;
        self.next += numbers.len() as u32;
        let tops = side.index.tops();
        put_outer(numbers.as_slice(), tops, &mut self.tops)?;
        put_plain(importing, tops, &mut self.plain)?;
        put_numbers(numbers.as_slice(), side.index.lone(), &mut self.lone)?;
        Ok(())
    }
}
