//! Where texts are written once the common file has texts.

ghost use Rattle.std.specs.Prelude.{◌≡◌, false, true, MatchOption, IfOk};
ghost use Rattle.dwz_def_encoding.specs.Placing.{has_text, text_place};
ghost use Rattle.dwz_encode_common.specs.TextsIn.{texts_in};
ghost use Rattle.dwz_encode_common.specs.Shared;

use crate::standing::PlacedTexts;
use dwz_layout::TextAt;
use dwz_model::NoMemory;
use std::alloc::AllocError;

// Where a text of the common file begins, in bytes from the first of its `.debug_str`. None where it isn't there; `NoMemory` where its
// place has more than four bytes.
fn start_of(texts: &PlacedTexts, text: &[u8]) -> Result<Option<u32>, NoMemory>
    ensures { IfOk result (λ start. MatchOption start (has_text (texts_in texts.now) text.now ≡ false)
        (λ at. (has_text (texts_in texts.now) text.now ≡ true) × (at ≡ text_place (texts_in texts.now) text.now))) }
{
    match texts.start_of(text) {
        None => Ok(None),
        Some(start) if start <= u32::MAX as u64 => Ok(Some(start as u32)),
        Some(_) => Err(AllocError),
    }
}

// A text of an entry that is written in the common file.
fn in_common(texts: &PlacedTexts, text: &[u8], own: TextAt) -> Result<TextAt, NoMemory>
    ensures { IfOk result (λ t. t ≡ Shared.placed_text true true (texts_in texts.now) text.now own) }
{
    match start_of(texts, text)? {
        Some(start) => Ok(TextAt::Pooled(start)),
        None => Ok(own),
    }
}

// A text of an entry of a file that shares the texts of the common file.
fn in_sharing(texts: &PlacedTexts, text: &[u8], own: TextAt) -> Result<TextAt, NoMemory>
    ensures { IfOk result (λ t. t ≡ Shared.placed_text false true (texts_in texts.now) text.now own) }
{
    match start_of(texts, text)? {
        Some(start) => Ok(TextAt::Shared(start)),
        None => Ok(own),
    }
}

/// Where a text is written, once these are the texts of the common file (DWARF 5, 7.5.5, class string): in `.debug_str` of that file, if
/// the entry is written there, or if its file shares these texts and the text is among them; and else at its own place. `NoMemory` where
/// the place in the common file has more than four bytes.
pub fn place_text(
    texts: &PlacedTexts,
    is_common: bool,
    shares: bool,
    text: &[u8],
    own: TextAt,
) -> Result<TextAt, NoMemory>
    ensures { IfOk result (λ t. t ≡ Shared.placed_text is_common shares (texts_in texts.now) text.now own) }
{
    if is_common {
        in_common(texts, text, own)
    } else if shares {
        in_sharing(texts, text, own)
    } else {
        Ok(own)
    }
}
