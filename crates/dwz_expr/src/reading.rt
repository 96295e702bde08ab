//! Expressions that are read.

ghost use Rattle.std.specs.Prelude.{◌≡◌, ◌+◌, ◌<◌, ◌^◌, IfOk, length};
ghost use Rattle.dwz_def_reading.specs.Faults.{Answers};
ghost use Rattle.dwz_def_reading.specs.Exprs.{any_operands, expr_at};
ghost use Rattle.dwz_expr.specs.Few.{ArePlain};
ghost use Rattle.dwz_expr.specs.FirstFault.{AreAsked, ReadsInto};
ghost use Rattle.dwz_expr.specs.Gathering.{Grows, added};

use crate::ops::all;
use crate::plain::{Plain, plain_front};
use dwz_def_reading::Operand;
use dwz_model::ReadErr;
use std::alloc::Global;
use std::marker::Model;

/// An expression that was read (DWARF 5, 2.5): its bytes, and the operands in it that name entries, those of expressions in it
/// among them. Clauses see an `Expression`.
#[derive(Drop)]
pub struct Ops<'a> {
    bytes: &'a [u8],
    at: u64,
    operands: Vec<Operand>,
    address: bool,
}

impl<'a> Model for Ops<'a> {
    ghost use Rattle.dwz_def_reading.specs.Exprs.{Expression};

    ghost Value = { Expression };

    ghost view = { λ o. record { at = o.at; bytes = o.bytes.now; operands = o.operands.items; address = o.address } };
}

// How many expressions may be inside another one.
const MOST_INSIDE: u8 = 8;

// The same as `read_into`, where plain operators stand at the front.
#[inline(always)]
fn read_rest(
    operands: &mut Vec<Operand>,
    bytes: &[u8],
    plain: Plain,
    at: u64,
    section: u8,
) -> Result<bool, ReadErr>
    requires short { at + length bytes.now < 2 ^ 64 }
    requires front { ArePlain 1 bytes.now 0 plain }
    ensures found { ReadsInto section (record { at = at; rest = bytes.now }) (added operands.old.items operands.new.items) result }
    ensures grows { Grows operands.old.items operands.new.items }
{
    let mut address = plain.address;
    let rest = &bytes[plain.end..];
    let start = at + plain.end as u64;
    all(MOST_INSIDE, rest, start, section, operands, &mut address)?;
    Ok(address)
}

/// Reads the expression whose bytes these are, and whose first byte stands at that place of the section with that code, and
/// appends the operands in it that name entries. Answers whether it, or an expression in it, has an address or the index of one.
///
/// Refused exactly at the first operator that isn't read: as `UnsupportedOp` where its code has no row or one that says so, and
/// else as `BadExpr` where its operands don't end in the expression, a number in them is too wide, or an expression is inside
/// more than 8 others. Then the operands before it are appended, which are those that are looked up before: so the first of
/// those that names no entry is the first fault, and where each does it is the one that is answered.
#[inline(always)]
pub fn read_into(
    operands: &mut Vec<Operand>,
    bytes: &[u8],
    at: u64,
    section: u8,
) -> Result<bool, ReadErr>
    requires { at + length bytes.now < 2 ^ 64 }
    ensures found { ReadsInto section (record { at = at; rest = bytes.now }) (added operands.old.items operands.new.items) result }
    ensures grows { Grows operands.old.items operands.new.items }
{
    let plain = plain_front(bytes);
    if plain.end == bytes.len() {
        return Ok(plain.address);
    }
    read_rest(operands, bytes, plain, at, section)
}

impl<'a> Ops<'a> {
    /// Reads an expression, as `read_into` does, with operands of its own. Where it is refused they are lost, so that only the
    /// fault of layout is known.
    pub fn read(alloc: Global, bytes: &'a [u8], at: u64, section: u8) -> Result<Ops<'a>, ReadErr>
        requires { at + length bytes.now < 2 ^ 64 }
        ensures answer { Answers (λ o. o) result (expr_at (any_operands section) (record { at = at; rest = bytes.now })) }
        ensures asks { IfOk result (λ o. AreAsked section (record { at = at; rest = bytes.now }) o.operands) }
    {
        let mut operands = Vec::new(alloc);
        let address = read_into(&mut operands, bytes, at, section)?;
        Ok(Ops {
            bytes,
            at,
            operands,
            address,
        })
    }

    /// The bytes that it was read from.
    pub fn bytes(&self) -> &[u8]
        ensures { result.now ≡ self.now.bytes }
    {
        self.bytes
    }

    /// The place of its first byte in its section.
    pub fn at(&self) -> u64
        ensures { result ≡ self.now.at }
    {
        self.at
    }

    /// The operands that name entries, in order.
    pub fn operands(&self) -> &[Operand]
        ensures { result.now ≡ self.now.operands }
    {
        &self.operands
    }

    /// Whether it, or an expression in it, has an address or the index of one.
    pub fn has_address(&self) -> bool
        ensures { result ≡ self.now.address }
    {
        self.address
    }
}
