//! Name lists by numbers: equal lists alone have one number.
//!
//! The empty list has the number 0. Any other one is found by the number of the list without its last name and the number of this name,
//! and each name by its text.

ghost use Rattle.std.specs.Prelude.{◌≡◌, ℕ, ◌+◌, ◌<◌, ◌^◌, ◌++◌, ◌∷◌, [], List, IfOk, OnOk};
ghost use Rattle.dwz_check_sides.specs.Names.{AreApart, IsFound, IsListNumber, IsNumberUnder, Keeps, look};

use dwz_model::NoMemory;
use std::alloc::Global;
use std::collections::BTreeMap;

/// The numbers of names, and those of lists by the numbers of the list outside and of the last name.
#[derive(Drop)]
pub struct NameLists<'t> {
    pub(crate) names: BTreeMap<&'t [u8], u32>,
    pub(crate) lists: BTreeMap<u64, u32>,
}

// The number of a text: that under which it was met, or else the new one.
fn number_of<'t>(
    seen: &mut BTreeMap<&'t [u8], u32>,
    text: &'t [u8],
    new: u32,
) -> Result<u32, NoMemory>
    ensures { IfOk result (λ number. IsFound (look seen.old) (look seen.new) text.now new number) }
{
    match seen.get(&text) {
        Some(number) => Ok(*number),
        None => {
            seen.insert(text, new)?;
            Ok(new)
        }
    }
}

// The number under a key: that under which it was met, or else the new one.
fn number_under(seen: &mut BTreeMap<u64, u32>, key: u64, new: u32) -> Result<u32, NoMemory>
    ensures { IfOk result (λ number. IsNumberUnder seen.old seen.new key new number) }
{
    if let Some(number) = seen.get(&key) {
        return Ok(*number);
    }
    seen.insert(key, new)?;
    Ok(new)
}

impl<'t> NameLists<'t> {
    /// No names and no lists. Takes no memory.
    pub fn new(alloc: Global) -> NameLists<'t>
        ensures { AreApart result 1 }
    {
        NameLists {
            names: BTreeMap::new(alloc),
            lists: BTreeMap::new(alloc),
        }
    }

    /// The number of the list that ends with a name, behind the names of the list with a number: the one that it has, or else the new
    /// one, which is greater than all others.
    pub fn number(&mut self, outer: u32, name: &'t [u8], new: u32) -> Result<u32, NoMemory>
        requires { 0 < new }
        ensures apart { AreApart self.old new → OnOk result (AreApart self.new (new + 1)) }
        ensures kept { OnOk result (Keeps self.old self.new) }
        ensures number { (names : List (List ℕ)) → IsListNumber self.old names outer
            → IfOk result (λ number. IsListNumber self.new (names ++ name.now ∷ []) number) }
    {
        let last = number_of(&mut self.names, name, new)?;
        let key = outer as u64 * 0x1_0000_0000 + last as u64;
        let number = number_under(&mut self.lists, key, new)?;
        Ok(number)
    }
}
