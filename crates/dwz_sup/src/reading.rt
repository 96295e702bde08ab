//! What `.debug_sup` says (DWARF 5, 7.3.6).

ghost use Rattle.std.specs.Prelude.{◌≡◌, ◌+◌};
ghost use Rattle.std.specs.Option.{option_map};
ghost use Rattle.dwz_bytes.specs.Reading.{Gives, uleb_at};
ghost use Rattle.dwz_def_reading.specs.Supplementary.{flag_read, name_read, read_sup, sum_read};
ghost use Rattle.dwz_def_reading.specs.Texts.{zero_ended_at};
ghost use Rattle.dwz_sup.specs.Readings.{ReadsSup, sup_seen};

use dwz_bytes::{ByteErr, Cursor};
use dwz_def_reading::Sup;
use dwz_model::{Blob, DEBUG_SUP, Fault, ReadErr, Reason};
use dwz_strs::text_at;
use std::alloc::Global;

// The version of `.debug_sup`.
const VERSION: u16 = 5;

/// What `.debug_sup` says, whose bytes lie in the section.
#[derive(Clone, Copy)]
pub struct SupRef<'a> {
    /// Whether the file that has it is the supplementary one.
    pub supplementary: bool,
    /// The name of the other file, in the file that isn't the supplementary one.
    pub name: &'a [u8],
    /// The checksum of the supplementary file.
    pub sum: &'a [u8],
}

// The text at the cursor, which is left behind the zero byte.
fn text<'a>(cursor: &mut Cursor<'a>) -> Result<&'a [u8], ByteErr>
    ensures { Gives (λ t. t.now) cursor.old cursor.new result (zero_ended_at cursor.old) }
{
    let at = cursor.at();
    match text_at(cursor.bytes(), at as u64) {
        None => Err(ByteErr::Short { at }),
        Some(text) => {
            cursor.take(text.len() + 1)?;
            Ok(text)
        }
    }
}

// The length of the checksum, and the checksum, which is the rest.
fn from_sum<'a>(cursor: &mut Cursor<'a>, supplementary: bool, name: &'a [u8]) -> Option<SupRef<'a>>
    ensures { option_map sup_seen result ≡ sum_read supplementary name.now (uleb_at cursor.old) }
{
    let Ok(len) = cursor.uleb() else {
        return None;
    };
    let sum = &cursor.bytes()[cursor.at()..];
    if sum.len() as u64 != len {
        return None;
    }
    Some(SupRef {
        supplementary,
        name,
        sum,
    })
}

// The name, and what stands behind it.
fn from_name<'a>(cursor: &mut Cursor<'a>, supplementary: bool) -> Option<SupRef<'a>>
    ensures { option_map sup_seen result ≡ name_read supplementary (zero_ended_at cursor.old) }
{
    match text(cursor) {
        Ok(name) => from_sum(cursor, supplementary, name),
        Err(_) => None,
    }
}

// The flag, and what stands behind it.
fn from_flag<'a>(cursor: &mut Cursor<'a>) -> Option<SupRef<'a>>
    ensures { option_map sup_seen result ≡ flag_read (cursor.old.at + 1) cursor.old.rest }
{
    match cursor.u8() {
        Ok(1) => from_name(cursor, true),
        Ok(0) => from_name(cursor, false),
        _ => None,
    }
}

/// What a section says that has version 5 in two bytes, a flag of 0 or 1, a name that a zero byte ends, the length of a checksum,
/// and as the rest a checksum of that length. None exactly where it hasn't. Takes no memory.
#[tactic(auto, unfolding(dwz_def_reading::specs::Supplementary::read_sup))]
pub fn sup_in(section: &[u8]) -> Option<SupRef<'_>>
    ensures { option_map sup_seen result ≡ read_sup section.now }
{
    let mut cursor = Cursor::new(section, 0);
    match cursor.u16() {
        Ok(VERSION) => from_flag(&mut cursor),
        _ => None,
    }
}

/// What a section says, with bytes of its own. Refused with `BadSup`, in `.debug_sup` at 0, exactly where `sup_in` answers None.
pub fn read_sup(alloc: Global, section: &[u8]) -> Result<Sup, ReadErr>
    ensures { ReadsSup result (read_sup section.now) }
{
    let Some(sup) = sup_in(section) else {
        return Err(ReadErr::Refused(Fault {
            section: DEBUG_SUP,
            at: 0,
            reason: Reason::BadSup,
        }));
    };
    let name = Vec::from_slice(alloc, sup.name)?;
    let sum = Vec::from_slice(alloc, sup.sum)?;
    Ok(Sup {
        supplementary: sup.supplementary,
        name: Blob::new(name),
        sum: Blob::new(sum),
    })
}
