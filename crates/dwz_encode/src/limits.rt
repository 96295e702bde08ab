//! Sections that would be too large.

ghost use Rattle.std.specs.Prelude.{◌≡◌, length};
ghost use Rattle.dwz_def_encoding.specs.Writing.{joined};
ghost use Rattle.dwz_encode.specs.Limits.{too_large_in};

use dwz_layout::FileLayout;

// So many bytes have no section: 2^32 - 16.
const TOO_LARGE: u64 = 0xffff_fff0;

/// The least section of a file that would be too large: 1 is `.debug_info`, 2 `.debug_abbrev`.
pub fn too_large(laid: &FileLayout) -> Option<u8>
    ensures { result ≡ too_large_in laid.now.end (length (joined laid.now.tables)) }
{
    if laid.end >= TOO_LARGE {
        return Some(1);
    }
    if laid.tables.len() >= TOO_LARGE {
        return Some(2);
    }
    None
}
