//! The tops of a partial unit by the name lists of the spaces that they stand in.
ghost use Rattle.std.specs.Prelude.{◌≡◌, ◌<◌, ◌≤◌, ◌^◌, ◌++◌, ◌∷◌, [], ◌==◌, not, All, filter, length, if◌then◌else◌, IfOk, OnOk};
ghost use Rattle.dwz_layout_items.specs.Chains.{chains_by, names_at};
ghost use Rattle.dwz_layout_items.specs.Grouping.{IsNumbered};

use crate::partial::TopSpaces;
use dwz_groups::{Edge, Groups, group};
use dwz_model::NoMemory;
use indexmap::IndexSet;
use std::alloc::Global;

// The tops under the numbers of their name lists, which are numbered as they come; and how many lists there are.
#[derive(Drop)]
struct ByList {
    count: usize,
    pairs: Vec<Edge>,
}

fn number_lists(alloc: Global, tops: &[u32], of_tops: &[TopSpaces]) -> Result<ByList, NoMemory>
    requires few { length tops.now < 2 ^ 32 }
    requires inside { All (λ t. t < length of_tops.now) tops.now }
    ensures { IfOk result (λ n. IsNumbered of_tops.now tops.now n.count n.pairs.items) }
{
    let mut lists = IndexSet::new(alloc);
    let mut pairs = Vec::new(alloc);
    for top in tops {
        let (number, _) = lists.insert_full(of_tops[*top as usize].names)?;
        pairs.push(Edge {
            key: number as u32,
            value: *top,
        })?;
    }
    Ok(ByList {
        count: lists.len(),
        pairs,
    })
}

/// The tops of each name list, in order; the lists come in the order of their first tops.
pub(crate) fn chains_of(
    alloc: Global,
    tops: &[u32],
    of_tops: &[TopSpaces],
) -> Result<Groups, NoMemory>
    requires few { length tops.now < 2 ^ 32 }
    requires inside { All (λ t. t < length of_tops.now) tops.now }
    ensures { IfOk result (λ chains. chains ≡ chains_by (names_at of_tops.now) tops.now) }
{
    let lists = number_lists(alloc, tops, of_tops)?;
    let chains = group(alloc, lists.count, lists.pairs.as_slice())?;
    Ok(chains)
}

/// Tops by whether they stand in a space.
#[derive(Drop)]
pub(crate) struct Parted {
    pub(crate) unspaced: Vec<u32>,
    pub(crate) spaced: Vec<u32>,
}

fn push_if(found: &mut Vec<u32>, wanted: bool, top: u32) -> Result<(), NoMemory>
    ensures { OnOk result (found.new.items ≡ found.old.items ++ (if wanted then top ∷ [] else [])) }
{
    if wanted {
        found.push(top)?;
    }
    Ok(())
}

/// The tops that stand in no space, and the others, both in order.
pub(crate) fn split(alloc: Global, tops: &[u32], of_tops: &[TopSpaces]) -> Result<Parted, NoMemory>
    requires { All (λ t. t < length of_tops.now) tops.now }
    ensures unspaced { IfOk result (λ s. s.unspaced.items ≡ filter (λ t. names_at of_tops.now t == 0) tops.now) }
    ensures spaced { IfOk result (λ s. s.spaced.items ≡ filter (λ t. not (names_at of_tops.now t == 0)) tops.now) }
{
    let mut unspaced = Vec::new(alloc);
    let mut spaced = Vec::new(alloc);
    for top in tops {
        let in_root = of_tops[*top as usize].names == 0;
        push_if(&mut unspaced, in_root, *top)?;
        push_if(&mut spaced, !in_root, *top)?;
    }
    Ok(Parted { unspaced, spaced })
}
