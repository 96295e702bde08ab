//! From a round on: only what changed is looked at again, until nothing is pending.
//!
//! That begins where a next round would look at many nodes, or many rounds went by, and in the last one at most a sixteenth of the nodes
//! changed. "Changed" leaves out the largest part of each class, so a class isn't named by its least node any more; the least nodes are
//! found once, at the end.
ghost use Rattle.std.specs.Prelude.{◌≡◌, ℕ, ◌+◌, ◌-◌, ◌*◌, ◌<◌, ◌≤◌, ◌^◌, ◌⊎◌, [], All, IfOk, IfSome, IsTrue, OnOk, length, min};
ghost use Rattle.std.specs.Prelude.{slice_index, slice_set};
ghost use Rattle.dwz_nodes.specs.Graph.{IsClosed};
ghost use Rattle.dwz_nodes.specs.Looks.{IsLeastBelow, IsRefined};
ghost use Rattle.dwz_nodes.specs.Uses.{AreUses};
ghost use Rattle.dwz_rounds.specs.Rounds.{IsLevel, IsRound};
ghost use Rattle.dwz_rounds.specs.Members.{AreMembers};
ghost use Rattle.dwz_rounds.specs.Pending.{IsPending};
ghost use Rattle.dwz_rounds.specs.Room.{IsRoom};

use crate::members::Range;
use crate::pass::{new_room, pass};
use crate::start::{count_moved, largest_parts, members_of, moved_nodes, number_classes};
use dwz_model::NoMemory;
use dwz_nodes::{Nodes, Uses};
use std::alloc::Global;

// Stands for no node.
const NONE: u32 = u32::MAX;

// Passes until nothing is pending. It answers false where there weren't numbers enough.
fn pass_all(
    alloc: Global,
    nodes: &Nodes,
    uses: &Uses,
    numbers: &mut [u32],
    ranges: &mut Vec<Range>,
    members: &mut Vec<u32>,
    pending: &mut Vec<u32>,
) -> Result<bool, NoMemory>
    requires closed { IsClosed nodes.now }
    requires few { length nodes.now < 2 ^ 32 - 1 }
    requires uses { AreUses nodes.now uses.now }
    requires pending { IsPending nodes.now numbers.old pending.old.items }
    requires members { AreMembers numbers.old ranges.old.items members.old.items }
    ensures len { length numbers.new ≡ length numbers.old }
    ensures pending { IfOk result (λ done. IsTrue done → IsPending nodes.now numbers.new []) }
    ensures numbers { IfOk result (λ done. IsTrue done → All (λ c. c < length nodes.now) numbers.new) }
{
    let mut room = new_room(alloc, nodes.len() as usize)?;
    'passes: while !pending.is_empty() {
        let done = pass(
            alloc, nodes, uses, numbers, ranges, members, pending, &mut room,
        )?;
        if !done {
            return Ok(false);
        }
    }
    Ok(true)
}

// The same over a `Vec`, whose length stays.
fn pass_all_in(
    alloc: Global,
    nodes: &Nodes,
    uses: &Uses,
    numbers: &mut Vec<u32>,
    ranges: &mut Vec<Range>,
    members: &mut Vec<u32>,
    pending: &mut Vec<u32>,
) -> Result<bool, NoMemory>
    requires closed { IsClosed nodes.now }
    requires few { length nodes.now < 2 ^ 32 - 1 }
    requires uses { AreUses nodes.now uses.now }
    requires pending { IsPending nodes.now numbers.old.items pending.old.items }
    requires members { AreMembers numbers.old.items ranges.old.items members.old.items }
    ensures pending { IfOk result (λ done. IsTrue done → IsPending nodes.now numbers.new.items []) }
    ensures numbers { IfOk result (λ done. IsTrue done → All (λ c. c < length nodes.now) numbers.new.items) }
{
    pass_all(
        alloc,
        nodes,
        uses,
        numbers.as_mut_slice(),
        ranges,
        members,
        pending,
    )
}

// Notes a node as the first with its number, if there is none before it, and answers the first.
fn first_with(firsts: &mut [u32], number: usize, a: u32) -> u32
    requires { number < length firsts.old }
    ensures first { result ≡ slice_index firsts.new number }
    ensures noted { ((slice_index firsts.old number ≡ 2 ^ 32 - 1) × (firsts.new ≡ slice_set firsts.old number a))
        ⊎ ((¬ (slice_index firsts.old number ≡ 2 ^ 32 - 1)) × (firsts.new ≡ firsts.old)) }
{
    if firsts[number] == NONE {
        firsts[number] = a;
    }
    firsts[number]
}

fn put_least(numbers: &[u32], firsts: &mut [u32], least: &mut Vec<u32>) -> Result<(), NoMemory>
    requires few { length numbers.now < 2 ^ 32 - 1 }
    requires numbers { All (λ c. c < length numbers.now) numbers.now }
    requires many { length firsts.old ≡ length numbers.now }
    requires none { (c : ℕ) → c < length numbers.now → slice_index firsts.old c ≡ 2 ^ 32 - 1 }
    requires least { least.old.items ≡ [] }
    ensures len { OnOk result (length least.new.items ≡ length numbers.now) }
    ensures each { OnOk result ((a : ℕ) → a < length numbers.now
        → IsLeastBelow (length numbers.now) (λ b. slice_index numbers.now a ≡ slice_index numbers.now b) (slice_index least.new.items a)) }
{
    for a in 0..numbers.len() {
        least.push(first_with(firsts, numbers[a] as usize, a as u32))?;
    }
    Ok(())
}

/// For each node the least node with its number.
pub(crate) fn least_nodes(alloc: Global, numbers: &[u32]) -> Result<Vec<u32>, NoMemory>
    requires few { length numbers.now < 2 ^ 32 - 1 }
    requires numbers { All (λ c. c < length numbers.now) numbers.now }
    ensures len { IfOk result (λ least. length least.items ≡ length numbers.now) }
    ensures each { IfOk result (λ least. (a : ℕ) → a < length numbers.now
        → IsLeastBelow (length numbers.now) (λ b. slice_index numbers.now a ≡ slice_index numbers.now b) (slice_index least.items a)) }
{
    let mut firsts = vec![in alloc; NONE; numbers.len()]?;
    let mut least = Vec::with_capacity(alloc, numbers.len())?;
    put_least(numbers, firsts.as_mut_slice(), &mut least)?;
    Ok(least)
}

/// For each node the least node that is alike to it, from the last two rows of classes of whole rounds and, beside each
/// class, a part of it whose nodes aren't looked at for it. None where there weren't numbers enough, or there are 2^32
/// targets or more.
pub(crate) fn finish(
    alloc: Global,
    nodes: &Nodes,
    classes: &[u32],
    next: &[u32],
    largest: &[u32],
) -> Result<Option<Vec<u32>>, NoMemory>
    requires closed { IsClosed nodes.now }
    requires level { (k : ℕ) × IsLevel nodes.now k classes.now }
    requires round { IsRound nodes.now classes.now next.now }
    requires largest { length largest.now ≡ length classes.now }
    ensures { IfOk result (λ found. IfSome found (λ answers. IsRefined nodes.now answers.items)) }
{
    let _count = nodes.len();
    let named = number_classes(alloc, next)?;
    let mut numbers = named.numbers;
    let rows = members_of(alloc, numbers.as_slice(), named.count)?;
    let mut ranges = rows.ranges;
    let mut members = rows.members;
    let mut pending = moved_nodes(alloc, classes, next, largest)?;
    let Some(uses) = nodes.uses(alloc)? else {
        return Ok(None);
    };
    let done = pass_all_in(
        alloc,
        nodes,
        &uses,
        &mut numbers,
        &mut ranges,
        &mut members,
        &mut pending,
    )?;
    if !done {
        return Ok(None);
    }
    let answers = least_nodes(alloc, numbers.as_slice())?;
    Ok(Some(answers))
}

// A whole round costs about as much as looking again at the sources of one node in so many.
const SHARE: usize = 16;

// How many classes there are.
fn count_classes(classes: &[u32]) -> usize
    ensures { result ≤ length classes.now }
{
    let mut count = 0;
    for a in 0..classes.len() {
        if classes[a] as usize == a {
            count += 1;
        }
    }
    count
}

// A part of each class of which no node is looked at for it, its largest; None where more than a few nodes aren't in it.
fn few_moved(alloc: Global, classes: &[u32], next: &[u32]) -> Result<Option<Vec<u32>>, NoMemory>
    requires few { length classes.now < 2 ^ 32 }
    requires len { length next.now ≡ length classes.now }
    requires classes { All (λ c. c < length classes.now) classes.now }
    requires next { All (λ c. c < length classes.now) next.now }
    ensures { IfOk result (λ largest. IfSome largest (λ parts. length parts.items ≡ length classes.now)) }
{
    let few = classes.len() / SHARE;
    // Each new class has a node that isn't in the largest part.
    if count_classes(next).saturating_sub(count_classes(classes)) > few {
        return Ok(None);
    }
    let largest = largest_parts(alloc, classes, next)?;
    if count_moved(classes, next, largest.as_slice()) > few {
        return Ok(None);
    }
    Ok(Some(largest))
}

/// The same as `finish` where few nodes changed, and else None.
pub(crate) fn finish_if_few(
    alloc: Global,
    nodes: &Nodes,
    classes: &[u32],
    next: &[u32],
) -> Result<Option<Vec<u32>>, NoMemory>
    requires closed { IsClosed nodes.now }
    requires level { (k : ℕ) × IsLevel nodes.now k classes.now }
    requires round { IsRound nodes.now classes.now next.now }
    ensures { IfOk result (λ found. IfSome found (λ answers. IsRefined nodes.now answers.items)) }
{
    let _count = nodes.len();
    let Some(largest) = few_moved(alloc, classes, next)? else {
        return Ok(None);
    };
    finish(alloc, nodes, classes, next, largest.as_slice())
}
