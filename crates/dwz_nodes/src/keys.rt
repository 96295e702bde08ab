//! The keys of nodes in a round: a node's label and the classes of its targets; and in a pass the parts of them that changed.
ghost use Rattle.std.specs.Prelude.{◌≡◌, ℕ, ◌+◌, ◌-◌, ◌<◌, ◌≤◌, ◌^◌, ◌↔◌, [], ◌∷◌, ◌++◌, All, IsTrue, length, IfOk, OnOk, OnErr};
ghost use Rattle.std.specs.Prelude.{slice_range};
ghost use Rattle.dwz_nodes.specs.Graph.{IsClosed};
ghost use Rattle.std.specs.List.Sorted.{IsNonDecreasingBy};
ghost use Rattle.dwz_nodes.specs.Keys.{key, key_at, mixed, words_hash, AreKeys, AreKeysOf};
ghost use Rattle.dwz_nodes.specs.Mentions.{part_key, words_of};
ghost use Rattle.dwz_nodes.specs.Parts.{start_at};

use crate::Nodes;
use crate::mentions::{Mention, run_of};
use dwz_model::NoMemory;
use std::alloc::Global;
use std::marker::Model;

// The hash of no words.
const BASIS: u64 = 14695981039346656037;

// Odd, and near 2^64 divided by the golden ratio: so words that are near to each other are spread over the upper bits.
const MULTIPLIER: u64 = 11400714819323198485;

/// Lists of words, one after the other in one row.
#[derive(Drop)]
pub struct Keys {
    ends: Vec<usize>,
    words: Vec<u32>,
}

impl Model for Keys {
    ghost use Rattle.std.specs.Prelude.{ℕ, List, length};
    ghost use Rattle.dwz_nodes.specs.Parts.{parts_of, Rise};

    ghost Value = { List (List ℕ) };

    ghost view = { λ k. parts_of 0 k.ends.items k.words.items };

    ghost invariant = { λ k. Rise 0 k.ends.items (length k.words.items) };
}

impl Keys {
    /// No keys. They take memory from `alloc` as they grow.
    pub fn new(alloc: Global) -> Keys
        ensures { result ≡ [] }
    {
        Keys {
            ends: Vec::new(alloc),
            words: Vec::new(alloc),
        }
    }

    /// Forgets all keys, and keeps their room.
    fn clear(&mut self)
        ensures { self.new ≡ [] }
    {
        self.ends.clear();
        self.words.clear();
    }

    /// Appends the key of a node. After an error no key is left.
    fn push(&mut self, nodes: &Nodes, classes: &[u32], a: u32) -> Result<(), NoMemory>
        requires closed { IsClosed nodes.now }
        requires len { length classes.now ≡ length nodes.now }
        requires inside { a < length nodes.now }
        ensures appended { OnOk result (self.new ≡ self.old ++ key nodes.now classes.now a ∷ []) }
        ensures none { OnErr result (self.new ≡ []) }
    {
        match put_row(&mut self.ends, &mut self.words, nodes, classes, a) {
            Ok(()) => Ok(()),
            Err(error) => {
                self.ends.clear();
                self.words.clear();
                Err(error)
            }
        }
    }

    /// Appends a number with positions and numbers. After an error no key is left.
    fn push_part(&mut self, number: u32, run: &[Mention]) -> Result<(), NoMemory>
        ensures appended { OnOk result (self.new ≡ self.old ++ (number ∷ words_of run.now) ∷ []) }
        ensures none { OnErr result (self.new ≡ []) }
    {
        match put_part_row(&mut self.ends, &mut self.words, number, run) {
            Ok(()) => Ok(()),
            Err(error) => {
                self.ends.clear();
                self.words.clear();
                Err(error)
            }
        }
    }

    /// How many keys there are.
    pub fn len(&self) -> usize
        ensures { result ≡ length self.now }
    {
        self.ends.len()
    }

    /// The words of the key at `at`.
    pub fn get(&self, at: usize) -> &[u32]
        requires { at < length self.now }
        ensures { result.now ≡ key_at self.now at }
    {
        let end = self.ends[at];
        part(
            self.words.as_slice(),
            start_of(self.ends.as_slice(), at),
            end,
        )
    }
}

// Where the bytes of the key at `at` begin.
fn start_of(ends: &[usize], at: usize) -> usize
    requires { at < length ends.now }
    ensures { result ≡ start_at 0 ends.now at }
{
    if at == 0 { 0 } else { ends[at - 1] }
}

fn part(words: &[u32], start: usize, end: usize) -> &[u32]
    requires rising { start ≤ end }
    requires within { end ≤ length words.now }
    ensures { result.now ≡ slice_range words.now start end }
{
    &words[start..end]
}

/// Whether two keys are the same, word by word.
pub(crate) fn is_same_key(a: &[u32], b: &[u32]) -> bool
    ensures { IsTrue result ↔ (a.now ≡ b.now) }
{
    a == b
}

/// The hash of words. What it is good for stands in its upper bits.
pub(crate) fn hash_words(words: &[u32]) -> u64
    ensures { result ≡ words_hash words.now }
{
    let mut hash = hash_start();
    for word in words {
        hash = mix_word(hash, *word);
    }
    hash
}

/// The hash of no words.
#[inline(always)]
pub(crate) fn hash_start() -> u64
    ensures { result ≡ words_hash [] }
{
    BASIS
}

/// The hash after one more word.
#[inline(always)]
pub(crate) fn mix_word(hash: u64, word: u32) -> u64
    ensures { result ≡ mixed hash word }
{
    (hash ^ u64::from(word)).wrapping_mul(MULTIPLIER)
}

// Appends the key of a node.
fn put_key(words: &mut Vec<u32>, nodes: &Nodes, classes: &[u32], a: u32) -> Result<(), NoMemory>
    requires closed { IsClosed nodes.now }
    requires len { length classes.now ≡ length nodes.now }
    requires inside { a < length nodes.now }
    ensures words { OnOk result (words.new.items ≡ words.old.items ++ key nodes.now classes.now a) }
{
    words.push(nodes.label(a))?;
    for target in nodes.targets(a) {
        words.push(classes[*target as usize])?;
    }
    Ok(())
}

// The same, and its end.
fn put_row(
    ends: &mut Vec<usize>,
    words: &mut Vec<u32>,
    nodes: &Nodes,
    classes: &[u32],
    a: u32,
) -> Result<(), NoMemory>
    requires closed { IsClosed nodes.now }
    requires len { length classes.now ≡ length nodes.now }
    requires inside { a < length nodes.now }
    ensures end { OnOk result (ends.new.items ≡ ends.old.items ++ length words.new.items ∷ []) }
    ensures words { OnOk result (words.new.items ≡ words.old.items ++ key nodes.now classes.now a) }
{
    put_key(words, nodes, classes, a)?;
    ends.push(words.len())?;
    Ok(())
}

// Appends a number, and a position and a number for each mention.
fn put_part(words: &mut Vec<u32>, number: u32, run: &[Mention]) -> Result<(), NoMemory>
    ensures { OnOk result (words.new.items ≡ words.old.items ++ number ∷ words_of run.now) }
{
    words.push(number)?;
    for mention in run {
        words.push(mention.position)?;
        words.push(mention.number)?;
    }
    Ok(())
}

// The same, and its end.
fn put_part_row(
    ends: &mut Vec<usize>,
    words: &mut Vec<u32>,
    number: u32,
    run: &[Mention],
) -> Result<(), NoMemory>
    ensures end { OnOk result (ends.new.items ≡ ends.old.items ++ length words.new.items ∷ []) }
    ensures words { OnOk result (words.new.items ≡ words.old.items ++ number ∷ words_of run.now) }
{
    put_part(words, number, run)?;
    ends.push(words.len())?;
    Ok(())
}

/// Writes over what `keys` held the number of each of these nodes, and the positions and numbers of its pending targets.
pub fn fill_parts(
    keys: &mut Keys,
    numbers: &[u32],
    mentions: &[Mention],
    visit: &[u32],
) -> Result<(), NoMemory>
    requires few { length numbers.now < 2 ^ 32 }
    requires rising { IsNonDecreasingBy (λ m. m.source) mentions.now }
    requires inside { All (λ a. a < length numbers.now) visit.now }
    ensures { OnOk result (AreKeysOf (part_key numbers.now mentions.now) visit.now keys.new) }
{
    Keys::clear(keys);
    for a in visit {
        keys.push_part(numbers[*a as usize], run_of(mentions, *a))?;
    }
    Ok(())
}

/// Writes the keys of all nodes under classes over what `keys` held.
pub fn fill(keys: &mut Keys, nodes: &Nodes, classes: &[u32]) -> Result<(), NoMemory>
    requires closed { IsClosed nodes.now }
    requires len { length classes.now ≡ length nodes.now }
    ensures keys { OnOk result (AreKeys nodes.now classes.now keys.new) }
    ensures few { OnOk result (length keys.new < 2 ^ 32 - 1) }
{
    keys.clear();
    for a in 0..nodes.len() {
        keys.push(nodes, classes, a)?;
    }
    Ok(())
}
