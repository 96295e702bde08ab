//! From a whole round to numbers of classes, and to the nodes of the smaller parts of the classes before it.
ghost use Rattle.std.specs.Prelude.{◌≡◌, ℕ, ◌-◌, ◌<◌, ◌≤◌, ◌^◌, All, IfOk, length, slice_index};
ghost use Rattle.dwz_rounds.specs.Members.{AreMembers};
ghost use Rattle.dwz_rounds.specs.Start.{AreNumbered, AreMoved, IsLed, number_pairs};

use crate::members::Range;
use dwz_groups::{Edge, group};
use dwz_model::NoMemory;
use std::alloc::Global;

/// Numbers of classes, from 0 to before a count.
#[derive(Drop)]
pub(crate) struct Numbered {
    pub(crate) numbers: Vec<u32>,
    pub(crate) count: u32,
}

/// Numbers the classes in the order of their least nodes.
pub(crate) fn number_classes(alloc: Global, classes: &[u32]) -> Result<Numbered, NoMemory>
    requires few { length classes.now < 2 ^ 32 }
    requires led { IsLed classes.now }
    ensures { IfOk result (λ n. AreNumbered classes.now (length classes.now) n.count n.numbers.items) }
{
    let mut numbers = Vec::with_capacity(alloc, classes.len())?;
    let mut count = 0;
    for a in 0..classes.len() {
        let class = classes[a] as usize;
        if class == a {
            numbers.push(count)?;
            count += 1;
        } else {
            let number = numbers[class];
            numbers.push(number)?;
        }
    }
    Ok(Numbered { numbers, count })
}

// Each node under its number.
fn number_pairs(alloc: Global, numbers: &[u32]) -> Result<Vec<Edge>, NoMemory>
    requires { length numbers.now < 2 ^ 32 }
    ensures { IfOk result (λ pairs. pairs.items ≡ number_pairs 0 numbers.now) }
{
    let mut pairs = Vec::with_capacity(alloc, numbers.len())?;
    for a in 0..numbers.len() {
        pairs.push(Edge {
            key: numbers[a],
            value: a as u32,
        })?;
    }
    Ok(pairs)
}

/// The members of each class, one class after the other.
#[derive(Drop)]
pub(crate) struct Rows {
    pub(crate) ranges: Vec<Range>,
    pub(crate) members: Vec<u32>,
}

/// The members of classes with these numbers.
pub(crate) fn members_of(alloc: Global, numbers: &[u32], count: u32) -> Result<Rows, NoMemory>
    requires few { length numbers.now < 2 ^ 32 - 1 }
    requires numbers { All (λ c. c < count) numbers.now }
    requires count { count ≤ length numbers.now }
    ensures { IfOk result (λ rows. AreMembers numbers.now rows.ranges.items rows.members.items) }
{
    let pairs = number_pairs(alloc, numbers)?;
    let nodes = group(alloc, count as usize, pairs.as_slice())?;
    let mut ranges = Vec::with_capacity(alloc, count as usize)?;
    let mut members = Vec::with_capacity(alloc, numbers.len())?;
    for class in 0..count {
        let start = members.len();
        members.extend_from_slice(nodes.get(class as usize))?;
        let end = members.len();
        let live = (end - start).min(u32::MAX as usize) as u32;
        ranges.push(Range { start, end, live })?;
    }
    Ok(Rows { ranges, members })
}

// Counts the nodes of each class.
fn count_nodes(classes: &[u32], sizes: &mut [u32])
    requires { All (λ c. c < length sizes.old) classes.now }
    ensures { length sizes.new ≡ length sizes.old }
{
    for class in classes {
        let class = *class as usize;
        sizes[class] = sizes[class].saturating_add(1);
    }
}

// Puts beside each class the largest part of it.
fn choose_parts(classes: &[u32], next: &[u32], sizes: &[u32], largest: &mut [u32])
    requires len { (length next.now ≡ length classes.now) × (length sizes.now ≡ length classes.now)
        × (length largest.old ≡ length classes.now) }
    requires classes { All (λ c. c < length classes.now) classes.now }
    requires largest { All (λ c. c < length classes.now) largest.old }
    ensures { length largest.new ≡ length largest.old }
{
    for a in 0..classes.len() {
        if next[a] as usize == a {
            let class = classes[a] as usize;
            if sizes[largest[class] as usize] < sizes[a] {
                largest[class] = next[a];
            }
        }
    }
}

/// Beside each class its largest part after the next round, or beside what is no class any number.
pub(crate) fn largest_parts(
    alloc: Global,
    classes: &[u32],
    next: &[u32],
) -> Result<Vec<u32>, NoMemory>
    requires few { length classes.now < 2 ^ 32 }
    requires len { length next.now ≡ length classes.now }
    requires classes { All (λ c. c < length classes.now) classes.now }
    requires next { All (λ c. c < length classes.now) next.now }
    ensures { IfOk result (λ largest. length largest.items ≡ length classes.now) }
{
    let count = classes.len();
    let mut sizes = vec![in alloc; 0; count]?;
    count_nodes(next, sizes.as_mut_slice());
    let mut largest = Vec::with_capacity(alloc, count)?;
    for a in 0..count {
        largest.push(a as u32)?;
    }
    choose_parts(classes, next, sizes.as_slice(), largest.as_mut_slice());
    Ok(largest)
}

/// How many nodes aren't in the largest part of their class.
pub(crate) fn count_moved(classes: &[u32], next: &[u32], largest: &[u32]) -> usize
    requires len { (length next.now ≡ length classes.now) × (length largest.now ≡ length classes.now) }
    requires classes { All (λ c. c < length classes.now) classes.now }
    ensures { result ≤ length classes.now }
{
    let mut count = 0;
    for a in 0..classes.len() {
        if next[a] != largest[classes[a] as usize] {
            count += 1;
        }
    }
    count
}

/// The nodes that aren't in the largest part of their class.
pub(crate) fn moved_nodes(
    alloc: Global,
    classes: &[u32],
    next: &[u32],
    largest: &[u32],
) -> Result<Vec<u32>, NoMemory>
    requires few { length classes.now < 2 ^ 32 }
    requires len { (length next.now ≡ length classes.now) × (length largest.now ≡ length classes.now) }
    requires classes { All (λ c. c < length classes.now) classes.now }
    ensures { IfOk result (λ pending. AreMoved classes.now next.now largest.now (length classes.now) pending.items) }
{
    let mut pending = Vec::new(alloc);
    for a in 0..classes.len() {
        if next[a] != largest[classes[a] as usize] {
            pending.push(a as u32)?;
        }
    }
    Ok(pending)
}
