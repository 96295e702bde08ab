//! A place in bytes, from which numbers are read.

ghost use Rattle.std.specs.Prelude.{◌≡◌, ◌≤◌, length, drop, take};
ghost use Rattle.dwz_bytes.specs.Input.{Input, input};
ghost use Rattle.dwz_bytes.specs.Reading.{Gives, fixed_at, uleb_at, sleb_at, take_at};
ghost use Rattle.dwz_bytes.specs.Spelling.{le_value};

use crate::error::ByteErr;
use crate::groups::{signed_of, unsigned_of};
use std::marker::Model;

/// A place in bytes. Clauses see the place and the bytes from there on. After an error of a call the cursor stands where
/// it was.
#[derive(Drop)]
pub struct Cursor<'a> {
    bytes: &'a [u8],
    at: usize,
}

impl<'a> Model for Cursor<'a> {
    ghost use Rattle.std.specs.Prelude.{◌≤◌, length};
    ghost use Rattle.dwz_bytes.specs.Input.{Input, input};

    ghost Value = { Input };

    ghost view = { λ c. input c.bytes.now c.at };

    ghost invariant = { λ c. c.at ≤ length c.bytes.now };
}

// The number that the first eight bytes spell.
#[inline(always)]
fn first_u64(rest: &[u8]) -> u64
    requires { 8 ≤ length rest.now }
    ensures { result ≡ le_value (take 8 rest.now) }
{
    u64::from_le_bytes([
        rest[0], rest[1], rest[2], rest[3], rest[4], rest[5], rest[6], rest[7],
    ])
}

impl<'a> Cursor<'a> {
    /// The place `at` in the bytes, counted from the first.
    #[inline(always)]
    pub fn new(bytes: &'a [u8], at: usize) -> Cursor<'a>
        requires { at ≤ length bytes.now }
        ensures { result ≡ record { at = at; rest = drop at bytes.now } }
    {
        Cursor { bytes, at }
    }

    /// The place, in bytes from the first.
    #[inline(always)]
    pub fn at(&self) -> usize
        ensures { result ≡ self.now.at }
    {
        self.at
    }

    /// The bytes in which it stands, whole.
    #[inline(always)]
    pub fn bytes(&self) -> &'a [u8]
        ensures here { input result.now self.now.at ≡ self.now }
        ensures within { self.now.at ≤ length result.now }
    {
        self.bytes
    }

    /// A byte. Short exactly where none is left.
    #[inline(always)]
    pub fn u8(&mut self) -> Result<u8, ByteErr>
        ensures { Gives (λ x. x) self.old self.new result (fixed_at 1 self.old) }
    {
        if self.at == self.bytes.len() {
            return Err(ByteErr::Short { at: self.at });
        }
        let byte = self.bytes[self.at];
        self.at += 1;
        Ok(byte)
    }

    /// A little-endian number of two bytes. Short exactly where fewer are left.
    #[inline(always)]
    pub fn u16(&mut self) -> Result<u16, ByteErr>
        ensures { Gives (λ x. x) self.old self.new result (fixed_at 2 self.old) }
    {
        let rest = &self.bytes[self.at..];
        if rest.len() < 2 {
            return Err(ByteErr::Short { at: self.at });
        }
        self.at += 2;
        Ok(u16::from_le_bytes([rest[0], rest[1]]))
    }

    /// A little-endian number of four bytes. Short exactly where fewer are left.
    #[inline(always)]
    pub fn u32(&mut self) -> Result<u32, ByteErr>
        ensures { Gives (λ x. x) self.old self.new result (fixed_at 4 self.old) }
    {
        let rest = &self.bytes[self.at..];
        if rest.len() < 4 {
            return Err(ByteErr::Short { at: self.at });
        }
        self.at += 4;
        Ok(u32::from_le_bytes([rest[0], rest[1], rest[2], rest[3]]))
    }

    /// A little-endian number of eight bytes. Short exactly where fewer are left.
    #[inline(always)]
    pub fn u64(&mut self) -> Result<u64, ByteErr>
        ensures { Gives (λ x. x) self.old self.new result (fixed_at 8 self.old) }
    {
        let rest = &self.bytes[self.at..];
        if rest.len() < 8 {
            return Err(ByteErr::Short { at: self.at });
        }
        self.at += 8;
        Ok(first_u64(rest))
    }

    /// An unsigned LEB128 number. Short exactly where the bytes end, fewer than ten of them, before one below 128; Wide
    /// exactly where the first ten are all 128 or more, or the number doesn't fit 64 bits.
    #[inline(always)]
    pub fn uleb(&mut self) -> Result<u64, ByteErr>
        ensures { Gives (λ x. x) self.old self.new result (uleb_at self.old) }
    {
        if self.at < self.bytes.len() && self.bytes[self.at] < 128 {
            let byte = self.bytes[self.at];
            self.at += 1;
            return Ok(byte as u64);
        }
        let (value, len) = unsigned_of(self.at, &self.bytes[self.at..])?;
        self.at += len;
        Ok(value)
    }

    /// A signed LEB128 number. Short and Wide as for an unsigned one.
    #[inline(always)]
    pub fn sleb(&mut self) -> Result<i64, ByteErr>
        ensures { Gives (λ x. x) self.old self.new result (sleb_at self.old) }
    {
        let (value, len) = signed_of(self.at, &self.bytes[self.at..])?;
        self.at += len;
        Ok(value)
    }

    /// The next `n` bytes. Short exactly where fewer are left.
    #[inline(always)]
    pub fn take(&mut self, n: usize) -> Result<&'a [u8], ByteErr>
        ensures { Gives (λ x. x.now) self.old self.new result (take_at n self.old) }
    {
        let rest = &self.bytes[self.at..];
        if rest.len() < n {
            return Err(ByteErr::Short { at: self.at });
        }
        self.at += n;
        Ok(&rest[..n])
    }
}
