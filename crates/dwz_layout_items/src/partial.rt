//! What is written of a partial unit.
ghost use Rattle.std.specs.Prelude.{◌≡◌, ℕ, List, ◌+◌, ◌<◌, ◌≤◌, ◌^◌, ◌++◌, All, length, slice_index, IfOk, OnOk};
ghost use Rattle.dwz_def_reading.specs.Lists.{In};
ghost use Rattle.dwz_def_tops.specs.Spots.{EntryName};
ghost use Rattle.dwz_layout_items.specs.Chains.{AreUp, IsChain, IsRising, Up, chain_lines, chains_lines, down, inner_at, names_at, partial_lines};
ghost use Rattle.dwz_layout_items.specs.Chains.{path_lines, tops_lines};
ghost use Rattle.dwz_layout_items.specs.Order.{Names, order_lines};

use crate::chains::{chains_of, split};
use crate::order::{Item, ItemKind};
use dwz_groups::Groups;
use dwz_model::NoMemory;
use std::alloc::Global;

/// A space of a compile unit.
#[derive(Clone, Copy, Debug, PartialEq, Eq)]
pub struct SpaceRow {
    /// The space with this number.
    pub space: u32,
    /// One more than the row of the space that it stands in, or 0 where it stands in a root.
    pub outer: u32,
}

/// The spaces that a top stands in.
#[derive(Clone, Copy, Debug, PartialEq, Eq)]
pub struct TopSpaces {
    /// One more than the row of the innermost one, or 0 where the top stands in a root.
    pub inner: u32,
    /// The number of the list of their names, or 0 where the top stands in a root.
    pub names: u32,
}

// Appends a chain of spaces, down to that before the number `inner`, and answers how deep stands what is in it.
fn put_spaces(
    order: &mut Vec<Item>,
    rows: &[SpaceRow],
    inner: u32,
    chain: u32,
) -> Result<u32, NoMemory>
    requires rising { IsRising rows.now }
    requires within { inner ≤ length rows.now }
    requires few { inner + 2 < 2 ^ 32 }
    ensures depth { (ups : List ℕ) → Up rows.now inner ups → IfOk result (λ depth. depth ≡ 2 + length ups) }
    ensures lines { (names : Names EntryName) (ups : List ℕ) → Up rows.now inner ups
        → OnOk result (order_lines names order.new.items ≡ order_lines names order.old.items ++ path_lines names chain 0 (down ups)) }
    ensures deep { IfOk result (λ depth. depth ≤ 2 + inner) }
{
    if inner == 0 {
        return Ok(2);
    }
    let row = rows[inner as usize - 1];
    let depth = put_spaces(order, rows, row.outer, chain)?;
    order.push(Item {
        what: ItemKind::InChain {
            chain,
            space: row.space,
        },
        depth,
    })?;
    Ok(depth + 1)
}

// Appends tops that stand so deep.
fn put_tops(order: &mut Vec<Item>, tops: &[u32], depth: u32) -> Result<(), NoMemory>
    ensures { (names : Names EntryName) → OnOk result (order_lines names order.new.items ≡ order_lines names order.old.items
        ++ tops_lines names depth tops.now) }
{
    for top in tops {
        order.push(Item {
            what: ItemKind::Top(*top),
            depth,
        })?;
    }
    Ok(())
}

// Appends a chain of spaces with the tops that stand in it.
fn put_chain(
    order: &mut Vec<Item>,
    rows: &[SpaceRow],
    inner: u32,
    tops: &[u32],
    chain: u32,
) -> Result<(), NoMemory>
    requires rising { IsRising rows.now }
    requires within { inner ≤ length rows.now }
    requires few { inner + 2 < 2 ^ 32 }
    ensures { (names : Names EntryName) (ups : List ℕ) → Up rows.now inner ups
        → OnOk result (order_lines names order.new.items ≡ order_lines names order.old.items
        ++ chain_lines names chain (down ups) tops.now) }
{
    let depth = put_spaces(order, rows, inner, chain)?;
    put_tops(order, tops, depth)?;
    Ok(())
}

// The number before which the row of the innermost space of a chain stands.
fn inner_of(tops: &[u32], of_tops: &[TopSpaces]) -> u32
    requires { IsChain of_tops.now tops.now }
    ensures { result ≡ inner_at of_tops.now (slice_index tops.now 0) }
{
    of_tops[tops[0] as usize].inner
}

// Appends chains of spaces with the tops that stand in them.
fn put_chains(
    order: &mut Vec<Item>,
    rows: &[SpaceRow],
    of_tops: &[TopSpaces],
    chains: &Groups,
) -> Result<(), NoMemory>
    requires rising { IsRising rows.now }
    requires within { All (λ x. x.inner ≤ length rows.now) of_tops.now }
    requires few { length rows.now + 2 < 2 ^ 32 }
    requires few_chains { length chains.now < 2 ^ 32 }
    requires chains { All (IsChain of_tops.now) chains.now }
    ensures { (names : Names EntryName) (ups : ℕ → List ℕ) → AreUp rows.now of_tops.now ups chains.now
        → OnOk result (order_lines names order.new.items ≡ order_lines names order.old.items ++ chains_lines names (λ t. down (ups t)) 0
        chains.now) }
{
    for chain in 0..chains.len() {
        let tops = chains.get(chain);
        put_chain(order, rows, inner_of(tops, of_tops), tops, chain as u32)?;
    }
    Ok(())
}

/// Appends what is written of a partial unit with these tops: its root; the tops that stand in no space; and then for each name list
/// of spaces, in the order of first tops, spaces with these names one in the other, with all tops of that list. Numbers of name
/// lists are the same where the lists are.
pub fn put_partial(
    alloc: Global,
    order: &mut Vec<Item>,
    rows: &[SpaceRow],
    of_tops: &[TopSpaces],
    tops: &[u32],
) -> Result<(), NoMemory>
    requires rising { IsRising rows.now }
    requires within { All (λ x. x.inner ≤ length rows.now) of_tops.now }
    requires few { length rows.now + 2 < 2 ^ 32 }
    requires few_tops { length tops.now < 2 ^ 32 }
    requires inside { All (λ t. t < length of_tops.now) tops.now }
    ensures { (names : Names EntryName) (ups : ℕ → List ℕ) → ((t : ℕ) → In t tops.now → Up rows.now (inner_at of_tops.now t) (ups t))
        → OnOk result (order_lines names order.new.items ≡ order_lines names order.old.items ++ partial_lines names (λ t. down (ups t))
        (names_at of_tops.now) tops.now) }
{
    let parts = split(alloc, tops, of_tops)?;
    let chains = chains_of(alloc, parts.spaced.as_slice(), of_tops)?;
    order.push(Item {
        what: ItemKind::Root,
        depth: 1,
    })?;
    put_tops(order, parts.unspaced.as_slice(), 2)?;
    put_chains(order, rows, of_tops, &chains)?;
    Ok(())
}
