//! What is new in a file that is made from another.

ghost use Rattle.std.specs.Prelude.{◌≡◌};
ghost use Rattle.std.specs.Option.{option_map};
ghost use Rattle.dwz_def_reading.specs.ElfLayout;
ghost use Rattle.dwz_elf.specs.Rebuilds.{changes_of};

use dwz_def_reading::{NewContent, Section};
use dwz_model::Blob;

/// New contents, the newest first, of which the first for a code holds, and the content of `.debug_sup` where it is added.
#[derive(Drop)]
pub(crate) struct Edits {
    pub(crate) replaced: Vec<NewContent>,
    pub(crate) sup: Option<Blob>,
}

// The first content for a code.
fn first_for(replaced: &[NewContent], code: u8) -> Option<&[u8]>
    ensures { option_map (λ bytes. bytes.now) result ≡ ElfLayout.content_for replaced.now code }
{
    for content in replaced {
        if content.code == code {
            return Some(content.bytes.as_slice());
        }
    }
    None
}

/// The new content of a section, if it has one.
pub(crate) fn replacement<'b>(edits: &'b Edits, section: &Section) -> Option<&'b [u8]>
    ensures { option_map (λ bytes. bytes.now) result ≡ ElfLayout.replacement (changes_of edits.now) section.now }
{
    let code = section.name.code;
    if code == 0 {
        return None;
    }
    first_for(&edits.replaced, code)
}

/// The content of the section that is added, or nothing.
pub(crate) fn sup_bytes(edits: &Edits) -> &[u8]
    ensures { result.now ≡ ElfLayout.added_bytes (changes_of edits.now) }
{
    match &edits.sup {
        Some(bytes) => bytes.as_slice(),
        None => &[],
    }
}
