//! Lists in which each number stands once.

ghost use Rattle.std.specs.Prelude.{◌≡◌, ◌+◌, ◌<◌, ◌≤◌, ◌^◌, ◌++◌, All, IfOk, OnOk, length, map};
ghost use Rattle.std.specs.List.{concat};
ghost use Rattle.dwz_imports.specs.Stored.{edge, edges_of, once_each};

use dwz_groups::{Edge, Groups, group};
use dwz_model::NoMemory;
use std::alloc::Global;

// Adds numbers under a key, each once, where it stands first. Of each number the mark is one more than the last key under which it came.
fn put_once(
    edges: &mut Vec<Edge>,
    marks: &mut [u32],
    key: u32,
    numbers: &[u32],
) -> Result<(), NoMemory>
    requires numbers { All (λ n. n < length marks.old) numbers.now }
    requires marks { All (λ m. m ≤ key) marks.old }
    requires room { key + 1 < 2 ^ 32 }
    ensures edges { OnOk result (edges.new.items ≡ edges.old.items ++ map (edge key) (once_each numbers.now)) }
    ensures marks { All (λ m. m ≤ key + 1) marks.new }
{
    for number in numbers {
        if marks[*number as usize] != key + 1 {
            marks[*number as usize] = key + 1;
            edges.push(Edge {
                key,
                value: *number,
            })?;
        }
    }
    Ok(())
}

/// The same lists of numbers below a count, but each number once, where it stands first.
pub(crate) fn each_once(alloc: Global, groups: &Groups, count: usize) -> Result<Groups, NoMemory>
    requires numbers { All (All (λ n. n < count)) groups.now }
    requires room { length groups.now < 2 ^ 32 }
    ensures { IfOk result (λ lists. lists ≡ map once_each groups.now) }
{
    let mut edges = Vec::new(alloc);
    let mut marks = vec![in alloc; 0u32; count]?;
    for key in 0..groups.len() {
        put_once(&mut edges, &mut marks, key as u32, groups.get(key))?;
    }
    group(alloc, groups.len(), &edges)
}
