//! The codes of shapes, looked up by words.

ghost use Rattle.std.specs.Prelude.{◌≡◌, ◌++◌, All, IfOk, None, OnErr, OnOk, Some, fold};
ghost use Rattle.dwz_layout.specs.Keys;
ghost use Rattle.dwz_layout.specs.Keys.{HasBits, key_of, pair_words};
ghost use Rattle.dwz_layout.specs.Maps.{FindsNone, FindsSame, Puts, look};
ghost use Rattle.dwz_layout.specs.Shapes.{shape_of};

use dwz_model::{NoMemory, Pair};
use std::alloc::Global;
use std::collections::BTreeMap;

// The odd number next to 2^64 divided by the golden ratio.
const STEP: u64 = 0x9e37_79b9_7f4a_7c15;

/// A hash with one word more.
#[inline(always)]
pub(crate) fn mix(hash: u64, word: u64) -> u64
    ensures { result ≡ Keys.mixed hash word }
{
    (hash ^ word).wrapping_mul(STEP)
}

// Appends the words of a pair. Answers the hash with them.
#[inline(always)]
fn put_pair(key: &mut Vec<u64>, hash: u64, pair: &Pair) -> Result<u64, NoMemory>
    ensures hash { IfOk result (λ more. more ≡ fold Keys.mixed hash (pair_words pair.now)) }
    ensures words { OnOk result (key.new.items ≡ key.old.items ++ pair_words pair.now) }
    ensures bits { HasBits pair.now }
{
    let (name, form, constant) = (pair.name as u64, pair.form, pair.constant.cast_unsigned());
    key.push(name)?;
    key.push(form)?;
    key.push(constant)?;
    Ok(mix(mix(mix(hash, name), form), constant))
}

// Makes the key of a shape.
#[inline(always)]
fn put_key(key: &mut Vec<u64>, tag: u16, children: bool, pairs: &[Pair]) -> Result<(), NoMemory>
    ensures ok { OnOk result (key.new.items ≡ key_of (shape_of tag children pairs.now)) }
    ensures bits { OnOk result (All HasBits pairs.now) }
{
    let (first, second) = (tag as u64, if children { 1 } else { 0 });
    key.clear();
    key.push(0)?;
    key.push(first)?;
    key.push(second)?;
    let mut hash = mix(mix(0, first), second);
    for pair in pairs {
        hash = put_pair(key, hash, pair)?;
    }
    key[0] = hash;
    Ok(())
}

/// The codes of shapes by their keys, and the key that was made last, in whose room the next is made.
#[derive(Drop)]
pub(crate) struct Codes {
    pub(crate) by_key: BTreeMap<Vec<u64>, u64>,
    pub(crate) key: Vec<u64>,
}

impl Codes {
    /// No codes.
    pub(crate) fn new(alloc: Global) -> Codes
        ensures { FindsNone result.by_key }
    {
        Codes {
            by_key: BTreeMap::new(alloc),
            key: Vec::new(alloc),
        }
    }

    /// The code of a shape, whose key is made.
    #[inline(always)]
    pub(crate) fn code_of(
        &mut self,
        tag: u16,
        children: bool,
        pairs: &[Pair],
    ) -> Result<Option<u64>, NoMemory>
        ensures code { IfOk result (λ code. code ≡ look self.old.by_key (key_of (shape_of tag children pairs.now))) }
        ensures key { OnOk result (self.new.key.items ≡ key_of (shape_of tag children pairs.now)) }
        ensures bits { OnOk result (All HasBits pairs.now) }
        ensures same { self.new.by_key ≡ self.old.by_key }
    {
        put_key(&mut self.key, tag, children, pairs)?;
        Ok(self.by_key.get(self.key.as_slice()).copied())
    }

    /// Keeps a code under the key. After an error nothing has changed.
    pub(crate) fn keep(&mut self, code: u64) -> Result<(), NoMemory>
        ensures ok { OnOk result (Puts self.old.by_key self.new.by_key self.old.key.items (Some code)) }
        ensures err { OnErr result (FindsSame self.old.by_key self.new.by_key) }
        ensures key { self.new.key ≡ self.old.key }
    {
        let key = Vec::from_slice(*self.key.allocator(), self.key.as_slice())?;
        self.by_key.insert(key, code)?;
        Ok(())
    }

    /// Takes away what is kept under the key.
    pub(crate) fn forget(&mut self)
        ensures { Puts self.old.by_key self.new.by_key self.old.key.items None }
    {
        self.by_key.remove(self.key.as_slice());
    }
}
