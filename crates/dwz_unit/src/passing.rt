//! Bytes between values that are looked at.

ghost use Rattle.std.specs.Prelude.{◌≡◌, ◌≤◌, length};
ghost use Rattle.dwz_bytes.specs.Input.{past};

use dwz_bytes::Cursor;

/// Passes over the next `count` bytes.
#[inline(always)]
pub fn pass_bytes(cursor: &mut Cursor, count: usize)
    requires { count ≤ length cursor.old.rest }
    ensures { cursor.new ≡ past count cursor.old }
{
    *cursor = Cursor::new(cursor.bytes(), cursor.at() + count);
}
