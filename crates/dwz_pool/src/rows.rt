//! Texts one behind the other, and where each stands.

ghost use Rattle.std.specs.Prelude.{◌≡◌, ◌+◌, ◌^◌, ◌<◌, ◌++◌, ◌∷◌, [], OnOk, length, slice_get};
ghost use Rattle.std.specs.Option.{option_map};
ghost use Rattle.dwz_pool.specs.Stored.{AreSame, HasRoom, HasTexts, texts_of};

use dwz_model::NoMemory;
use std::alloc::Global;

/// Where a text stands in a section.
#[derive(Clone, Copy)]
pub(crate) struct Place {
    pub(crate) start: usize,
    pub(crate) len: usize,
}

/// Texts by number, in one section.
#[derive(Drop)]
pub(crate) struct Rows {
    // The texts in order, each with a zero byte after it.
    pub(crate) section: Vec<u8>,
    // Where each of them stands there.
    pub(crate) places: Vec<Place>,
}

impl Rows {
    /// No texts.
    pub(crate) fn new(alloc: Global) -> Rows
        ensures section { result.section.items ≡ [] }
        ensures places { result.places.items ≡ [] }
    {
        Rows {
            section: Vec::new(alloc),
            places: Vec::new(alloc),
        }
    }

    /// The text of a number. None exactly where the number isn't below the count.
    pub(crate) fn text(&self, i: u32) -> Option<&[u8]>
        requires { HasTexts self.now }
        ensures { option_map (λ t. t.now) result ≡ slice_get (texts_of self.now) i }
    {
        let place = *self.places.get(i as usize)?;
        Some(&self.section[place.start..place.start + place.len])
    }

    /// Makes room for a text of a length.
    pub(crate) fn reserve(&mut self, len: usize) -> Result<(), NoMemory>
        requires { len < 2 ^ 63 }
        ensures same { AreSame self.old self.new }
        ensures ok { OnOk result (HasRoom self.new len) }
    {
        self.places.reserve(1)?;
        self.section.reserve(len + 1)?;
        Ok(())
    }

    /// Appends a text for which there is room.
    pub(crate) fn push(&mut self, text: &[u8])
        requires { HasRoom self.old (length text.now) }
        ensures section { self.new.section.items ≡ self.old.section.items ++ (text.now ++ 0 ∷ []) }
        ensures places { self.new.places.items
            ≡ self.old.places.items ++ record { start = length self.old.section.items; len = length text.now } ∷ [] }
    {
        let place = Place {
            start: self.section.len(),
            len: text.len(),
        };
        self.places.push(place).unwrap();
        self.section.extend_from_slice(text).unwrap();
        self.section.push(0).unwrap();
    }
}
