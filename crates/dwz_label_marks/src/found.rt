//! Numbers that were found before.

ghost use Rattle.std.specs.Prelude.{◌≡◌, ◌⊎◌, ℕ, ◌<◌, IfOk, IfSome};
ghost use Rattle.dwz_label_marks.specs.Found.{Has};

use dwz_model::NoMemory;
use std::alloc::Global;
use std::marker::Model;

/// A number that was found for a key, or none yet.
#[derive(Clone, Copy)]
pub(crate) struct Slot {
    pub(crate) key: u64,
    pub(crate) number: Option<u32>,
}

/// Numbers that were found before, by keys. Keys share slots, so a number may be lost when another is kept. Clauses see the slots.
#[derive(Drop)]
pub struct Found {
    slots: Vec<Slot>,
    mask: u64,
}

impl Model for Found {
    ghost use Rattle.std.specs.Prelude.{◌<◌, List, length};
    ghost use Rattle.dwz_label_marks.specs.declared.found.Slot.{Slot};

    ghost Value = { List Slot };

    ghost view = { λ f. f.slots.items };

    ghost invariant = { λ f. f.mask < length f.slots.items };
}

impl Found {
    /// No numbers, with room for so many, best a power of two.
    pub fn new(alloc: Global, room: usize) -> Result<Found, NoMemory>
        requires { 0 < room }
        ensures { (key n : ℕ) → IfOk result (λ found. Has found key n → ⊥) }
    {
        let empty = Slot {
            key: 0,
            number: None,
        };
        let slots = vec![in alloc; empty; room]?;
        Ok(Found {
            slots,
            mask: room as u64 - 1,
        })
    }

    /// The number that was kept last for the key, if it isn't lost.
    #[inline(always)]
    pub fn get(&self, key: u64) -> Option<u32>
        ensures { IfSome result (λ n. Has self.now key n) }
    {
        let slot = self.slots[(key & self.mask) as usize];
        if slot.key == key { slot.number } else { None }
    }

    /// Keeps a number for a key.
    #[inline(always)]
    pub fn put(&mut self, key: u64, number: u32)
        ensures { (k n : ℕ) → Has self.new k n → Has self.old k n ⊎ ((k ≡ key) × (n ≡ number)) }
    {
        self.slots[(key & self.mask) as usize] = Slot {
            key,
            number: Some(number),
        };
    }
}
