//! Texts by their places.

ghost use Rattle.std.specs.Prelude.{◌≡◌, false, true, [], MatchOption, IfOk, OnOk};
ghost use Rattle.dwz_def_encoding.specs.Placing.{has_text, text_place};
ghost use Rattle.dwz_def_readback.specs.Files.{texts_from};
ghost use Rattle.dwz_encode_common.specs.Places.{IsPut, look};

use dwz_model::NoMemory;
use dwz_strs::text_at;
use std::alloc::Global;
use std::collections::BTreeMap;
use std::marker::Model;

/// The texts between the zero bytes of a section. Clauses see them in order, also those that are equal.
#[derive(Drop)]
pub struct StandingTexts<'s> {
    section: &'s [u8],
    // Of each text the place of the first byte where it first stands.
    starts: BTreeMap<&'s [u8], u64>,
}

impl<'s> Model for StandingTexts<'s> {
    ghost use Rattle.std.specs.Prelude.{List, ℕ, []};
    ghost use Rattle.dwz_def_readback.specs.Files.{texts_from};
    ghost use Rattle.dwz_encode_common.specs.Places.{PlacesThem, look};

    ghost Value = { List (List ℕ) };

    ghost view = { λ t. texts_from [] t.section.now };

    ghost invariant = { λ t. PlacesThem (texts_from [] t.section.now) (look t.starts) };
}

// A text stands there, unless it stood somewhere before.
fn put_first<'s>(
    starts: &mut BTreeMap<&'s [u8], u64>,
    text: &'s [u8],
    start: u64,
) -> Result<(), NoMemory>
    ensures { OnOk result (IsPut (look starts.old) (look starts.new) text.now start) }
{
    match starts.get(&text) {
        Some(_) => Ok(()),
        None => {
            starts.insert(text, start)?;
            Ok(())
        }
    }
}

impl<'s> StandingTexts<'s> {
    /// Those of `.debug_str` of a common file.
    pub fn read(alloc: Global, section: &'s [u8]) -> Result<StandingTexts<'s>, NoMemory>
        ensures { IfOk result (λ texts. texts ≡ texts_from [] section.now) }
    {
        let mut starts = BTreeMap::new(alloc);
        let mut at = 0u64;
        'texts: while let Some(text) = text_at(section, at) {
            put_first(&mut starts, text, at)?;
            at += text.len() as u64 + 1;
        }
        Ok(StandingTexts { section, starts })
    }

    /// Where a text begins, in bytes from the first of the section: of equal texts the first. None exactly where it isn't there.
    pub fn start_of(&self, text: &[u8]) -> Option<u64>
        ensures { MatchOption result (has_text self.now text.now ≡ false)
            (λ at. (has_text self.now text.now ≡ true) × (at ≡ text_place self.now text.now)) }
    {
        self.starts.get(text).copied()
    }
}
