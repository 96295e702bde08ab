//! The pieces of labels, appended to bytes: what an attribute says, one kind a function, and what all of them are made of.
//!
//! After an error nothing is said of the bytes.

ghost use Rattle.std.specs.Prelude.{◌≡◌, ◌∷◌, ◌++◌, Some, None, OnOk};
ghost use Rattle.dwz_def_reading.specs.Spelling.{reach};
ghost use Rattle.dwz_def_reading.specs.Documents.{Addr, Block, File, Flag, Index, Num, Operand, Ref, Same, Sec, Sig, Text};
ghost use Rattle.dwz_label.specs.Labels.{base_label, counted, flag_label, language_label, number, part_label, plain_label};
ghost use Rattle.dwz_label.specs.Pieces.{sign};

use dwz_model::{Base, NoMemory};

// The groups of seven bits of a number that needs more than one (DWARF 5, 7.6).
fn put_groups(out: &mut Vec<u8>, value: u128) -> Result<(), NoMemory>
    ensures { OnOk result (out.new.items ≡ out.old.items ++ number value) }
{
    let mut rest = value;
    while rest >= 128 {
        out.push((rest % 128) as u8 + 128)?;
        rest /= 128;
    }
    out.push(rest as u8)?;
    Ok(())
}

/// Appends a number of up to 128 bits.
#[inline(always)]
#[tactic(auto, using(crate::proofs::NumberLemmas::number_last))]
pub fn put_number(out: &mut Vec<u8>, value: u128) -> Result<(), NoMemory>
    ensures { OnOk result (out.new.items ≡ out.old.items ++ number value) }
{
    if value < 128 {
        out.push(value as u8)?;
        return Ok(());
    }
    put_groups(out, value)
}

/// Appends bytes behind their length.
#[inline(always)]
pub fn put_counted(out: &mut Vec<u8>, bytes: &[u8]) -> Result<(), NoMemory>
    ensures { OnOk result (out.new.items ≡ out.old.items ++ counted bytes.now) }
{
    put_number(out, bytes.len() as u128)?;
    out.extend_from_slice(bytes)?;
    Ok(())
}

// Appends a byte, and a number behind it.
#[inline(always)]
fn put_kind(out: &mut Vec<u8>, kind: u8, value: u128) -> Result<(), NoMemory>
    ensures { OnOk result (out.new.items ≡ out.old.items ++ kind ∷ number value) }
{
    out.push(kind)?;
    put_number(out, value)
}

// Appends a byte, and bytes behind their length.
#[inline(always)]
fn put_bytes(out: &mut Vec<u8>, kind: u8, bytes: &[u8]) -> Result<(), NoMemory>
    ensures { OnOk result (out.new.items ≡ out.old.items ++ kind ∷ counted bytes.now) }
{
    out.push(kind)?;
    put_counted(out, bytes)
}

// How far a number is from 0, or a negative one from -1.
#[inline(always)]
fn reach_of(value: i128) -> u128
    ensures { result ≡ reach value }
{
    if value < 0 {
        (-1 - value) as u128
    } else {
        value as u128
    }
}

#[inline(always)]
fn sign_of(value: i128) -> u8
    ensures { result ≡ sign value }
{
    if value < 0 { 1 } else { 0 }
}

// ---- what attributes say

/// Appends that a value is a number. Where its form doesn't say whether it is signed and its top bit is set, `width` is how
/// many bytes it has, and else 0.
#[inline(always)]
#[tactic(auto, using(crate::proofs::NumberLemmas::num_label))]
pub fn put_num(out: &mut Vec<u8>, width: u8, value: i128) -> Result<(), NoMemory>
    ensures { OnOk result (out.new.items ≡ out.old.items ++ plain_label (Num width value)) }
{
    put_kind(out, sign_of(value), width as u128)?;
    put_number(out, reach_of(value))
}

/// Appends that a value is a flag.
#[inline(always)]
pub fn put_flag(out: &mut Vec<u8>, flag: bool) -> Result<(), NoMemory>
    ensures { OnOk result (out.new.items ≡ out.old.items ++ plain_label (Flag flag)) }
{
    out.push(2)?;
    put_bit(out, flag)
}

/// Appends that a value is a block.
#[inline(always)]
pub fn put_block(out: &mut Vec<u8>, bytes: &[u8]) -> Result<(), NoMemory>
    ensures { OnOk result (out.new.items ≡ out.old.items ++ plain_label (Block bytes.now)) }
{
    put_bytes(out, 3, bytes)
}

/// Appends that a value is a text, without the zero byte that ends it.
#[inline(always)]
pub fn put_text(out: &mut Vec<u8>, text: &[u8]) -> Result<(), NoMemory>
    ensures { OnOk result (out.new.items ≡ out.old.items ++ plain_label (Text text.now)) }
{
    put_bytes(out, 4, text)
}

/// Appends that a value is a file, with its path.
#[inline(always)]
pub fn put_file(out: &mut Vec<u8>, path: &[u8]) -> Result<(), NoMemory>
    ensures { OnOk result (out.new.items ≡ out.old.items ++ plain_label (File (Some path.now))) }
{
    out.push(5)?;
    put_bytes(out, 1, path)
}

/// Appends that a value is no file.
#[inline(always)]
pub fn put_no_file(out: &mut Vec<u8>) -> Result<(), NoMemory>
    ensures { OnOk result (out.new.items ≡ out.old.items ++ plain_label (File None)) }
{
    out.push(5)?;
    out.push(0)?;
    Ok(())
}

/// Appends that a value is an entry.
#[inline(always)]
pub fn put_ref(out: &mut Vec<u8>) -> Result<(), NoMemory>
    ensures { OnOk result (out.new.items ≡ out.old.items ++ plain_label Ref) }
{
    out.push(6)?;
    Ok(())
}

/// Appends that a value is the signature of a type.
#[inline(always)]
pub fn put_signature(out: &mut Vec<u8>, value: u128) -> Result<(), NoMemory>
    ensures { OnOk result (out.new.items ≡ out.old.items ++ plain_label (Sig value)) }
{
    put_kind(out, 7, value)
}

/// Appends that a value is an address.
#[inline(always)]
pub fn put_address(out: &mut Vec<u8>, value: u128) -> Result<(), NoMemory>
    ensures { OnOk result (out.new.items ≡ out.old.items ++ plain_label (Addr value)) }
{
    put_kind(out, 8, value)
}

/// Appends that a value is an index into a table of addresses or range lists.
#[inline(always)]
pub fn put_index(out: &mut Vec<u8>, value: u128) -> Result<(), NoMemory>
    ensures { OnOk result (out.new.items ≡ out.old.items ++ plain_label (Index value)) }
{
    put_kind(out, 9, value)
}

/// Appends that a value is an offset into another section.
#[inline(always)]
pub fn put_offset(out: &mut Vec<u8>, value: u128) -> Result<(), NoMemory>
    ensures { OnOk result (out.new.items ≡ out.old.items ++ plain_label (Sec value)) }
{
    put_kind(out, 10, value)
}

/// Appends that a value is an expression with so many parts, which are to follow.
#[inline(always)]
pub fn put_expression(out: &mut Vec<u8>, parts: u128) -> Result<(), NoMemory>
    ensures { OnOk result (out.new.items ≡ out.old.items ++ 11 ∷ number parts) }
{
    put_kind(out, 11, parts)
}

/// Appends that a value is a location list with so many expressions, which are to follow: each with the number of its parts,
/// and these.
#[inline(always)]
pub fn put_list(out: &mut Vec<u8>, expressions: u128) -> Result<(), NoMemory>
    ensures { OnOk result (out.new.items ≡ out.old.items ++ 12 ∷ number expressions) }
{
    put_kind(out, 12, expressions)
}

// ---- parts of expressions

/// Appends bytes of an expression that mean the same everywhere.
#[inline(always)]
pub fn put_same(out: &mut Vec<u8>, bytes: &[u8]) -> Result<(), NoMemory>
    ensures { OnOk result (out.new.items ≡ out.old.items ++ part_label (Same bytes.now)) }
{
    put_bytes(out, 0, bytes)
}

#[inline(always)]
fn put_bit(out: &mut Vec<u8>, flag: bool) -> Result<(), NoMemory>
    ensures { OnOk result (out.new.items ≡ out.old.items ++ flag_label flag) }
{
    out.push(if flag { 1 } else { 0 })?;
    Ok(())
}

fn put_base(out: &mut Vec<u8>, base: Base) -> Result<(), NoMemory>
    ensures { OnOk result (out.new.items ≡ out.old.items ++ base_label base) }
{
    out.push(match base {
        Base::Unit => 0,
        Base::Info => 1,
    })?;
    Ok(())
}

/// Appends an operand that names an entry: its width in bytes, whether it is a ULEB128 number, and what it is counted from.
/// Which entry that is stands beside the parts.
pub fn put_operand(out: &mut Vec<u8>, width: u128, uleb: bool, base: Base) -> Result<(), NoMemory>
    ensures { OnOk result (out.new.items ≡ out.old.items ++ part_label (Operand width uleb base)) }
{
    put_kind(out, 1, width)?;
    put_bit(out, uleb)?;
    put_base(out, base)
}

// ---- tops

/// Appends the language of a unit.
#[tactic(auto, using(crate::proofs::NumberLemmas::some_label))]
pub fn put_language(out: &mut Vec<u8>, language: Option<i128>) -> Result<(), NoMemory>
    ensures { OnOk result (out.new.items ≡ out.old.items ++ language_label language) }
{
    match language {
        None => {
            out.push(0)?;
            Ok(())
        }
        Some(value) => put_kind(out, 1 + sign_of(value), reach_of(value)),
    }
}
