//! Values that are written.

ghost use Rattle.std.specs.Prelude.{◌≡◌, ◌≤◌, [], ◌∷◌, ◌++◌, length, take, vec_len, OnErr, OnOk};
ghost use Rattle.dwz_bytes.specs.Spelling.{le_bytes, uleb};
ghost use Rattle.dwz_def_reading.specs.Values;
ghost use Rattle.dwz_def_reading.specs.Values.{HasSpelling, number_bytes, run_bytes, value_bytes, written_rows};
ghost use Rattle.dwz_forms.specs.Numbers.{FitsNumber};
ghost use Rattle.dwz_forms.specs.RawValues.{raw_view};
ghost use Rattle.dwz_forms.specs.Sizes.{number_len, run_len};

use crate::form_set::written_shape;
use crate::numbers::{put_fixed, sleb_len, to_signed, to_unsigned, uleb_len};
use crate::raw::Raw;
use dwz_bytes::{put_sleb, put_uleb};
use dwz_codes::Shape;
use dwz_model::NoMemory;

// How many bytes a number occupies.
#[inline(always)]
fn number_size(shape: Shape, number: i128) -> u64
    requires { FitsNumber shape number }
    ensures { result ≡ number_len shape number }
{
    match shape {
        Shape::Fixed1 => 1,
        Shape::Fixed2 => 2,
        Shape::Fixed3 => 3,
        Shape::Fixed4 => 4,
        Shape::Fixed8 => 8,
        Shape::Address => 8,
        Shape::Uleb => uleb_len(to_unsigned(number)),
        Shape::Sleb => sleb_len(to_signed(number)),
        _ => 0,
    }
}

// How many bytes the content of a text or a block occupies.
#[inline(always)]
fn run_size(shape: Shape, content: &[u8]) -> u64
    ensures { result ≡ run_len shape content.now }
{
    let len = content.len() as u64;
    match shape {
        Shape::Fixed16 => len,
        Shape::ZeroEnded => len + 1,
        Shape::Block1 => 1 + len,
        Shape::Block2 => 2 + len,
        Shape::Block4 => 4 + len,
        Shape::BlockUleb => uleb_len(len) + len,
        _ => 0,
    }
}

/// How many bytes a raw value occupies where it is written in a form. Some bytes have to spell it in this form.
#[inline(always)]
pub fn size_of_value(form: u16, raw: &Raw) -> u64
    requires { HasSpelling form (raw_view raw.now) }
    ensures { result ≡ length (value_bytes form (raw_view raw.now)) }
{
    let shape = written_shape(form as u64);
    match *raw {
        Raw::Number(number) => number_size(shape, number),
        Raw::Bytes(content) => run_size(shape, content),
    }
}

// Appends a number.
#[inline(always)]
fn put_number(out: &mut Vec<u8>, shape: Shape, number: i128) -> Result<(), NoMemory>
    requires { FitsNumber shape number }
    ensures ok { OnOk result (out.new.items ≡ out.old.items ++ number_bytes shape number) }
    ensures err { OnErr result (out.new.items ≡ out.old.items) }
{
    match shape {
        Shape::Fixed1 => put_fixed(out, 1, to_unsigned(number)),
        Shape::Fixed2 => put_fixed(out, 2, to_unsigned(number)),
        Shape::Fixed3 => put_fixed(out, 3, to_unsigned(number)),
        Shape::Fixed4 => put_fixed(out, 4, to_unsigned(number)),
        Shape::Fixed8 => put_fixed(out, 8, to_unsigned(number)),
        Shape::Address => put_fixed(out, 8, to_unsigned(number)),
        Shape::Uleb => put_uleb(out, to_unsigned(number)),
        Shape::Sleb => put_sleb(out, to_signed(number)),
        _ => Ok(()),
    }
}

// Appends bytes, or takes back what was appended since `out` had this length.
#[inline(always)]
fn put_or_take_back(out: &mut Vec<u8>, before: usize, bytes: &[u8]) -> Result<(), NoMemory>
    requires { before ≤ vec_len out.old }
    ensures ok { OnOk result (out.new.items ≡ out.old.items ++ bytes.now) }
    ensures err { OnErr result (out.new.items ≡ take before out.old.items) }
{
    let put = out.extend_from_slice(bytes);
    if put.is_err() {
        out.truncate(before);
    }
    put
}

// Appends a length of so many bytes, and the content.
#[inline(always)]
fn put_block(out: &mut Vec<u8>, width: usize, content: &[u8]) -> Result<(), NoMemory>
    requires { width ≤ 8 }
    ensures ok { OnOk result (out.new.items ≡ out.old.items ++ (le_bytes width (length content.now) ++ content.now)) }
    ensures err { OnErr result (out.new.items ≡ out.old.items) }
{
    let before = out.len();
    put_fixed(out, width, content.len() as u64)?;
    put_or_take_back(out, before, content)
}

// Appends a length as a LEB128 number, and the content.
#[inline(always)]
fn put_uleb_block(out: &mut Vec<u8>, content: &[u8]) -> Result<(), NoMemory>
    ensures ok { OnOk result (out.new.items ≡ out.old.items ++ (uleb (length content.now) ++ content.now)) }
    ensures err { OnErr result (out.new.items ≡ out.old.items) }
{
    let before = out.len();
    put_uleb(out, content.len() as u64)?;
    put_or_take_back(out, before, content)
}

// Appends a text and the zero byte that ends it.
#[inline(always)]
fn put_text(out: &mut Vec<u8>, text: &[u8]) -> Result<(), NoMemory>
    ensures ok { OnOk result (out.new.items ≡ out.old.items ++ (text.now ++ 0 ∷ [])) }
    ensures err { OnErr result (out.new.items ≡ out.old.items) }
{
    let before = out.len();
    out.extend_from_slice(text)?;
    put_or_take_back(out, before, &[0])
}

// Appends the content of a text or a block.
#[inline(always)]
fn put_run(out: &mut Vec<u8>, shape: Shape, content: &[u8]) -> Result<(), NoMemory>
    ensures ok { OnOk result (out.new.items ≡ out.old.items ++ run_bytes shape content.now) }
    ensures err { OnErr result (out.new.items ≡ out.old.items) }
{
    match shape {
        Shape::Fixed16 => out.extend_from_slice(content),
        Shape::ZeroEnded => put_text(out, content),
        Shape::Block1 => put_block(out, 1, content),
        Shape::Block2 => put_block(out, 2, content),
        Shape::Block4 => put_block(out, 4, content),
        Shape::BlockUleb => put_uleb_block(out, content),
        _ => Ok(()),
    }
}

/// Appends a raw value in a form, LEB128 numbers in their shortest spelling. Some bytes have to spell it in this form. After
/// an error `out` is as before.
#[inline(always)]
pub fn write_value(form: u16, raw: &Raw, out: &mut Vec<u8>) -> Result<(), NoMemory>
    requires { HasSpelling form (raw_view raw.now) }
    ensures ok { OnOk result (out.new.items ≡ out.old.items ++ value_bytes form (raw_view raw.now)) }
    ensures err { OnErr result (out.new.items ≡ out.old.items) }
{
    let shape = written_shape(form as u64);
    match *raw {
        Raw::Number(number) => put_number(out, shape, number),
        Raw::Bytes(content) => put_run(out, shape, content),
    }
}
