//! Texts of a common file that is made, and of one that stands.

ghost use Rattle.std.specs.Prelude.{◌≡◌, false, true, MatchOption};
ghost use Rattle.dwz_def_encoding.specs.Placing.{has_text, text_place};
ghost use Rattle.dwz_encode_common.specs.TextsIn as Specs;
ghost use Rattle.dwz_encode_common.specs.TextsIn.{texts_in};

use crate::StandingTexts;
use crate::pool::Pool;

/// The texts of the common file: of one that is made, or of one that stands.
#[derive(Clone, Copy)]
pub enum PlacedTexts<'p, 's> {
    /// Each once, in the order of first use.
    Made(&'p Pool),
    /// Where they stand.
    Standing(&'p StandingTexts<'s>),
}

impl<'p, 's> PlacedTexts<'p, 's> {
    /// Whether the common file is made: nothing is written in one that stands.
    pub fn is_made(&self) -> bool
        ensures { result ≡ Specs.is_made self.now }
    {
        match self {
            PlacedTexts::Made(_) => true,
            PlacedTexts::Standing(_) => false,
        }
    }

    /// Where a text begins, in bytes from the first of `.debug_str` (DWARF 5, 7.5.5). None exactly where it isn't there.
    pub fn start_of(&self, text: &[u8]) -> Option<u64>
        ensures { MatchOption result (has_text (texts_in self.now) text.now ≡ false)
            (λ at. (has_text (texts_in self.now) text.now ≡ true) × (at ≡ text_place (texts_in self.now) text.now)) }
    {
        match self {
            PlacedTexts::Made(pool) => pool.start_of(text),
            PlacedTexts::Standing(texts) => texts.start_of(text),
        }
    }
}
