//! Which section is `.debug_sup` (DWARF 5, 7.3.6).

ghost use Rattle.std.specs.Prelude.{◌≡◌, ◌==◌};
ghost use Rattle.dwz_def_reading.specs.ElfNames.{known_name, name_at, section_named};
ghost use Rattle.dwz_def_reading.specs.ElfReading.{has_code};

use crate::headers::is_there;
use dwz_def_reading::Header;

// Whether that name begins at a place of the name table.
fn is_name_of_sup(table: &[u8], at: usize) -> bool
    ensures { result ≡ ((known_name (name_at table.now at)).code == 9) }
{
    match table.get(at..) {
        Some(rest) => rest.starts_with(b".debug_sup\0"),
        None => false,
    }
}

/// Whether the section is `.debug_sup`, and is there.
pub(crate) fn is_sup(table: &[u8], header: &Header) -> bool
    ensures { result ≡ has_code 9 (section_named table.now header.now) }
{
    is_there(header) && is_name_of_sup(table, header.name as usize)
}
