//! The numbers of texts, by their hashes.
//!
//! They stand in ordered maps, so that n texts take n log n comparisons, whatever they are. The library's hash map has a fixed seed: a file
//! could be made whose texts all meet in it.

ghost use Rattle.std.specs.Prelude.{◌≡◌, ◌<◌, ◌%◌, [], All, IfOk, None, OnErr, OnOk, length, slice_get};
ghost use Rattle.dwz_pool.specs.Numbered;
ghost use Rattle.dwz_pool.specs.Numbered.{AreUnchanged, IsAdded, IsFirst, first_in, found_in, text_hash};
ghost use Rattle.dwz_pool.specs.Stored.{HasTexts, texts_of};

use crate::rows::Rows;
use dwz_model::NoMemory;
use std::alloc::Global;
use std::collections::BTreeMap;
use std::hash::{FoldHasher, Hasher};

// How many parts the numbers by hash are kept in, so that each part of an ordinary file has few.
const PARTS: usize = 4096;

/// A hash of a text.
pub(crate) fn hash_of(text: &[u8]) -> u64
    ensures { result ≡ text_hash text.now }
{
    let mut hasher = FoldHasher::default();
    hasher.write(text);
    hasher.finish()
}

/// Numbers by text. Texts with one hash are rare, so the numbers are mostly found by hashes alone.
#[derive(Drop)]
pub(crate) struct Numbers {
    // For each hash the number of the first text that has it, in the part of the hash. There are no parts before the first number.
    pub(crate) firsts: Vec<BTreeMap<u64, u32>>,
    // The numbers of the other texts.
    pub(crate) others: BTreeMap<Vec<u8>, u32>,
}

impl Numbers {
    /// No numbers.
    pub(crate) fn new(alloc: Global) -> Numbers
        ensures firsts { result.firsts.items ≡ [] }
        ensures others { result.others.entries ≡ [] }
    {
        Numbers {
            firsts: Vec::new(alloc),
            others: BTreeMap::new(alloc),
        }
    }

    /// The number of a text with a hash.
    pub(crate) fn find(&self, rows: &Rows, hash: u64, text: &[u8]) -> Option<u32>
        requires { HasTexts rows.now }
        ensures { result ≡ found_in (texts_of rows.now) self.now hash text.now }
    {
        let first = self.first(hash)?;
        if is_text(rows, first, text) {
            return Some(first);
        }
        self.others.get(text).copied()
    }

    /// A text that has no number gets one.
    pub(crate) fn add(
        &mut self,
        alloc: Global,
        hash: u64,
        text: &[u8],
        number: u32,
    ) -> Result<(), NoMemory>
        ensures ok { OnOk result (IsAdded self.old self.new hash text.now number) }
        ensures err { OnErr result (AreUnchanged self.old self.new) }
    {
        if self.first(hash).is_none() {
            return self.add_first(alloc, hash, number);
        }
        let text = text.to_vec(alloc)?;
        self.others.insert(text, number)?;
        Ok(())
    }

    // The number that is kept for a hash.
    fn first(&self, hash: u64) -> Option<u32>
        ensures { result ≡ first_in self.now hash }
    {
        let parts = self.firsts.len();
        if parts == 0 {
            return None;
        }
        self.firsts[part_of(hash, parts)].get(&hash).copied()
    }

    // Keeps a number for a hash that had none.
    fn add_first(&mut self, alloc: Global, hash: u64, number: u32) -> Result<(), NoMemory>
        requires { first_in self.old hash ≡ None }
        ensures ok { OnOk result (IsFirst self.old self.new hash number) }
        ensures err { OnErr result (AreUnchanged self.old self.new) }
    {
        self.open(alloc)?;
        let part = part_of(hash, self.firsts.len());
        self.firsts[part].insert(hash, number)?;
        Ok(())
    }

    // Makes parts, if there are none.
    fn open(&mut self, alloc: Global) -> Result<(), NoMemory>
        ensures same { AreUnchanged self.old self.new }
        ensures ok { OnOk result (0 < length self.new.firsts.items) }
    {
        if self.firsts.is_empty() {
            self.firsts = empty_parts(alloc)?;
        }
        Ok(())
    }
}

// The part of a hash.
fn part_of(hash: u64, parts: usize) -> usize
    requires { 0 < parts }
    ensures { result ≡ hash % parts }
{
    (hash % parts as u64) as usize
}

// Parts that hold nothing.
fn empty_parts(alloc: Global) -> Result<Vec<BTreeMap<u64, u32>>, NoMemory>
    ensures some { IfOk result (λ parts. 0 < length parts.items) }
    ensures empty { IfOk result (λ parts. All (λ part. part.entries ≡ []) parts.items) }
{
    let mut parts = Vec::with_capacity(alloc, PARTS)?;
    for _ in 0..PARTS {
        parts.push(BTreeMap::new(alloc))?;
    }
    Ok(parts)
}

// Whether a number is that of a text.
fn is_text(rows: &Rows, number: u32, text: &[u8]) -> bool
    requires { HasTexts rows.now }
    ensures { result ≡ Numbered.is_text (slice_get (texts_of rows.now) number) text.now }
{
    match rows.text(number) {
        Some(other) => other == text,
        None => false,
    }
}
