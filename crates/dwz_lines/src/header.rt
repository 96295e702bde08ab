//! The header of a line table (DWARF 5, 6.2.4), for the 32-bit format (7.4).

ghost use Rattle.std.specs.Prelude.{◌≡◌, ◌+◌, ◌≤◌, length};
ghost use Rattle.dwz_def_reading.specs.Units.{field};
ghost use Rattle.dwz_def_reading.specs.LineTables;
ghost use Rattle.dwz_lines.specs.Headers.{Begins};

use dwz_bytes::Cursor;

// How many bytes the fields of a header have up to the lengths of the standard opcodes.
const FIXED: usize = 18;

// The number of four bytes at a place.
#[inline(always)]
pub(crate) fn four(bytes: &[u8], at: usize) -> u32
    requires { at + 4 ≤ length bytes.now }
    ensures { result ≡ field at 4 bytes.now }
{
    Cursor::new(bytes, at).u32().unwrap_or(0)
}

// The number of two bytes at a place.
#[inline(always)]
fn two(bytes: &[u8], at: usize) -> u16
    requires { at + 2 ≤ length bytes.now }
    ensures { result ≡ field at 2 bytes.now }
{
    Cursor::new(bytes, at).u16().unwrap_or(0)
}

// The byte at a place, as a number.
#[inline(always)]
fn one(bytes: &[u8], at: usize) -> u8
    requires { at + 1 ≤ length bytes.now }
    ensures { result ≡ field at 1 bytes.now }
{
    Cursor::new(bytes, at).u8().unwrap_or(0)
}

// Whether the fields are those of a table that is read, and its unit is whole, with its header.
fn is_header(bytes: &[u8]) -> bool
    requires { 18 ≤ length bytes.now }
    ensures { result ≡ LineTables.is_header bytes.now }
{
    let len = four(bytes, 0);
    len < 0xffff_fff0
        && bytes.len() >= len as usize + 4
        && len as usize + 4 >= four(bytes, 8) as usize + 12
        && two(bytes, 4) == 5
        && one(bytes, 6) == 8
        && one(bytes, 7) == 0
        && one(bytes, 17) != 0
}

/// Where the directories and files of a line table begin, in the bytes in which they have to end: those that both the length
/// of the unit and that of the header count. None where no table's header stands at the place, or where these bytes end before.
pub(crate) fn tables_of<'a>(line: &'a [u8], place: u64) -> Option<Cursor<'a>>
    ensures { Begins line.now place result }
{
    if place > line.len() as u64 {
        return None;
    }
    let bytes = &line[place as usize..];
    if bytes.len() < FIXED || !is_header(bytes) {
        return None;
    }
    let unit_end = four(bytes, 0) as usize + 4;
    let header_end = four(bytes, 8) as usize + 12;
    let begin = one(bytes, 17) as usize + 17;
    let end = unit_end.min(header_end);
    if begin > end {
        return None;
    }
    Some(Cursor::new(&bytes[..end], begin))
}
