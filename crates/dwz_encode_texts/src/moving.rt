//! Texts that have moved in `.debug_str` of their file.

ghost use Rattle.std.specs.Prelude.{◌≡◌, map};
ghost use Rattle.dwz_encode_texts.specs.MovedTexts;

use dwz_layout::TextAt;
use dwz_strs::Pruned;

// A text of the file itself at its new place.
#[inline(always)]
fn moved_text(text: TextAt, pruned: &Pruned) -> TextAt
    ensures { result ≡ MovedTexts.moved_text pruned.now text }
{
    match text {
        TextAt::Own(offset) => TextAt::Own(pruned.moved(offset).unwrap_or(offset)),
        TextAt::Shared(offset) => TextAt::Shared(offset),
        TextAt::Pooled(offset) => TextAt::Pooled(offset),
    }
}

/// Writes over each place of a text the one where the text stands once just the uses stay. A text that is no use keeps its place, and so
/// does one of the common file.
pub fn move_texts(texts: &mut [TextAt], pruned: &Pruned)
    ensures { texts.new ≡ map (MovedTexts.moved_text pruned.now) texts.old }
{
    for text in texts.iter_mut() {
        *text = moved_text(*text, pruned);
    }
}

/// The same of a list of such places, which takes no memory.
pub fn moved_texts(texts: Vec<TextAt>, pruned: &Pruned) -> Vec<TextAt>
    ensures { result.items ≡ map (MovedTexts.moved_text pruned.now) texts.items }
{
    let mut moved = texts;
    move_texts(moved.as_mut_slice(), pruned);
    moved
}
