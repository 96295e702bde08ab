//! New numbers for the parts of classes.
//!
//! Which part of a class is the largest, and how many nodes it has left, is looked up in tables that no clause speaks of: they say what is
//! cheap, not what is right.
ghost use Rattle.std.specs.Prelude.{◌≡◌, ℕ, ◌<◌, ◌≤◌, ◌^◌, ◌∷◌, ◌++◌, [], All, IfOk, IsTrue, OnOk, List, length, slice_index, slice_set};
ghost use Rattle.dwz_rounds.specs.Members.{AreMembers};
ghost use Rattle.dwz_rounds.specs.Split.{IsChoice, IsGrouped, IsSplitting};

use crate::members::Range;
use dwz_model::NoMemory;

/// Where the largest part of a class begins among the nodes that are looked at, and how many nodes it has.
#[derive(Clone, Copy)]
pub(crate) struct Part {
    start: usize,
    len: usize,
}

/// No part.
pub(crate) const NO_PART: Part = Part { start: 0, len: 0 };

// Forgets the parts of the classes of these nodes.
fn clear_parts(nodes: &[u32], numbers: &[u32], parts: &mut [Part])
    requires nodes { All (λ a. a < length numbers.now) nodes.now }
    requires numbers { All (λ c. c < length parts.old) numbers.now }
    ensures { length parts.new ≡ length parts.old }
{
    for node in nodes {
        parts[numbers[*node as usize] as usize] = NO_PART;
    }
}

/// Finds the largest part of each class of these nodes, where that is wanted.
pub(crate) fn find_parts(
    nodes: &[u32],
    news: &[bool],
    numbers: &[u32],
    wanted: bool,
    parts: &mut [Part],
)
    requires nodes { All (λ a. a < length numbers.now) nodes.now }
    requires news { length news.now ≡ length nodes.now }
    requires numbers { All (λ c. c < length parts.old) numbers.now }
    ensures { length parts.new ≡ length parts.old }
{
    if !wanted {
        return;
    }
    clear_parts(nodes, numbers, parts);
    let mut start = 0;
    for at in 0..nodes.len() {
        if news[at] {
            start = at;
        }
        let class = numbers[nodes[at] as usize] as usize;
        let len = at - start + 1;
        if len > parts[class].len {
            parts[class] = Part { start, len };
        }
    }
}

// Goes on to the number for the node at a place: that of the part that goes on there; or, where one begins, that of its
// class for the largest part of a class of which all nodes are there, and else a new one. It answers false where there
// are as many numbers as nodes.
fn next_number(
    at: usize,
    is_new: bool,
    class: u32,
    limit: usize,
    whole: &[bool],
    parts: &[Part],
    number: &mut u32,
    ranges: &mut Vec<Range>,
    members: &[u32],
) -> Result<bool, NoMemory>
    requires class { (class < length whole.now) × (class < length parts.now) }
    requires limit { limit < 2 ^ 32 }
    ensures { IfOk result (λ room. IsTrue room → IsChoice at is_new class number.old limit whole.now parts.now ranges.old.items
        (length members.now) number.new ranges.new.items) }
{
    if !is_new {
        return Ok(true);
    }
    if whole[class as usize] && parts[class as usize].start == at {
        *number = class;
        return Ok(true);
    }
    let next = ranges.len();
    if next >= limit {
        return Ok(false);
    }
    *number = next as u32;
    let start = members.len();
    ranges.push(Range {
        start,
        end: start,
        live: 0,
    })?;
    Ok(true)
}

// Gives a node another number, and a place in its range, which is the last.
fn move_node(
    node: u32,
    number: u32,
    numbers: &mut [u32],
    ranges: &mut [Range],
    members: &mut Vec<u32>,
) -> Result<(), NoMemory>
    requires node { node < length numbers.old }
    requires number { number < length ranges.old }
    requires members { AreMembers numbers.old ranges.old members.old.items }
    ensures len { (length numbers.new ≡ length numbers.old) × (length ranges.new ≡ length ranges.old) }
    ensures numbers { OnOk result (numbers.new ≡ slice_set numbers.old node number) }
    ensures members { OnOk result (AreMembers numbers.new ranges.new members.new.items) }
{
    members.push(node)?;
    let class = numbers[node as usize] as usize;
    let old = ranges[class];
    ranges[class] = Range {
        live: old.live.saturating_sub(1),
        ..old
    };
    let new = ranges[number as usize];
    ranges[number as usize] = Range {
        end: members.len(),
        live: new.live.saturating_add(1),
        ..new
    };
    numbers[node as usize] = number;
    Ok(())
}

// The same over a `Vec`, whose length stays.
fn move_in(
    node: u32,
    number: u32,
    numbers: &mut [u32],
    ranges: &mut Vec<Range>,
    members: &mut Vec<u32>,
) -> Result<(), NoMemory>
    requires node { node < length numbers.old }
    requires number { number < length ranges.old.items }
    requires members { AreMembers numbers.old ranges.old.items members.old.items }
    ensures len { length ranges.new.items ≡ length ranges.old.items }
    ensures numbers { OnOk result (numbers.new ≡ slice_set numbers.old node number) }
    ensures members { OnOk result (AreMembers numbers.new ranges.new.items members.new.items) }
{
    move_node(node, number, numbers, ranges.as_mut_slice(), members)
}

/// Gives the nodes new numbers, part by part, and lists those whose number changed. It answers false where there aren't
/// numbers enough.
pub(crate) fn split(
    nodes: &[u32],
    news: &[bool],
    whole: &[bool],
    parts: &[Part],
    numbers: &mut [u32],
    ranges: &mut Vec<Range>,
    members: &mut Vec<u32>,
    pending: &mut Vec<u32>,
) -> Result<bool, NoMemory>
    requires few { length numbers.old < 2 ^ 32 }
    requires nodes { All (λ a. a < length numbers.old) nodes.now }
    requires len { (length news.now ≡ length nodes.now) × (length whole.now ≡ length numbers.old)
        × (length parts.now ≡ length numbers.old) }
    requires members { AreMembers numbers.old ranges.old.items members.old.items }
    requires some { 0 < length ranges.old.items }
    requires none { pending.old.items ≡ [] }
    ensures len { length numbers.new ≡ length numbers.old }
    ensures members { IfOk result (λ done. IsTrue done → AreMembers numbers.new ranges.new.items members.new.items) }
    ensures grown { IfOk result (λ done. IsTrue done → length ranges.old.items ≤ length ranges.new.items) }
    ensures more { IfOk result (λ done. IsTrue done → 0 < length pending.new.items → length ranges.old.items < length ranges.new.items) }
    ensures split { IfOk result (λ done. IsTrue done → (key : ℕ → List ℕ) → IsGrouped key numbers.old nodes.now news.now
        → (number : ℕ) × IsSplitting key nodes.now numbers.old whole.now parts.now (length ranges.old.items) (length nodes.now) numbers.new
        pending.new.items number) }
{
    let count = ranges.len();
    let limit = numbers.len();
    let mut number = 0;
    for at in 0..nodes.len() {
        let node = nodes[at];
        let class = numbers[node as usize];
        let room = next_number(
            at,
            news[at],
            class,
            limit,
            whole,
            parts,
            &mut number,
            ranges,
            members.as_slice(),
        )?;
        if !room {
            return Ok(false);
        }
        if number as usize >= count {
            move_in(node, number, numbers, ranges, members)?;
            pending.push(node)?;
        }
    }
    Ok(true)
}
