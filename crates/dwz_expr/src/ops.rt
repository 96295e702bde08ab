//! The operators of an expression, one by one.

ghost use Rattle.std.specs.Prelude.{◌≡◌, ◌+◌, ◌-◌, ◌<◌, ◌≤◌, ◌^◌, [], OnErr, length};
ghost use Rattle.dwz_model.specs.declared.fault.ReadErr.TheVariants.{Refused};
ghost use Rattle.dwz_model.specs.declared.place.Base.TheVariants.{Unit as FromUnit, Info as FromInfo};
ghost use Rattle.dwz_def_reading.specs.Exprs.{Entry4, EntryOrGeneric, EntryUleb, any_operands, bad_expr, fields_of, unsupported};
ghost use Rattle.dwz_def_reading.specs.Faults.{AnswersAt};
ghost use Rattle.dwz_expr.specs.Gathering.{Gathers, Grows, added, counted_at, field_into, fields_into, gathered, nested_into, op_into};
ghost use Rattle.dwz_expr.specs.Gathering.{operand4_at, operand_uleb_at, ops_into, shift, sized_at};
ghost use Rattle.dwz_expr.specs.Flat.{HasNoExpression};

use crate::fields::{byte, eight, four, run, sleb, uleb};
use dwz_bytes::Cursor;
use dwz_codes::{Shape, operator_shape};
use dwz_def_reading::Operand;
use dwz_model::{Base, Fault, ReadErr, Reason};

// A bad expression at an operator.
#[inline(always)]
fn bad_at(section: u8, at: u64) -> Fault
    ensures { result ≡ bad_expr (any_operands section) at }
{
    Fault {
        section,
        at,
        reason: Reason::BadExpr,
    }
}

// An operator that isn't read.
#[inline(always)]
fn unsupported_at(section: u8, at: u64, code: u8) -> ReadErr
    ensures { result ≡ Refused (unsupported (any_operands section) at code) }
{
    ReadErr::Refused(Fault {
        section,
        at,
        reason: Reason::UnsupportedOp { op: code },
    })
}

// An operand of four bytes.
#[inline(always)]
fn operand4(cursor: &mut Cursor, start: u64, bad: Fault, base: Base) -> Result<Operand, ReadErr>
    requires { start + (cursor.old.at + length cursor.old.rest) < 2 ^ 64 }
    ensures { AnswersAt (λ o. o) (shift start cursor.new) result (operand4_at bad base (shift start cursor.old)) }
{
    let at = start + cursor.at() as u64;
    let number = four(cursor, start, bad)? as u64;
    Ok(Operand {
        at,
        width: 4,
        uleb: false,
        base,
        number,
    })
}

// A ULEB128 number, and as many bytes.
#[inline(always)]
fn block<'a>(cursor: &mut Cursor<'a>, start: u64, bad: Fault) -> Result<&'a [u8], ReadErr>
    ensures { AnswersAt (λ x. x.now) (shift start cursor.new) result (counted_at bad (shift start cursor.old)) }
{
    let count = uleb(cursor, start, bad)?;
    run(cursor, start, bad, count as usize)
}

// A byte, and as many bytes as it says.
#[inline(always)]
fn sized_block<'a>(cursor: &mut Cursor<'a>, start: u64, bad: Fault) -> Result<&'a [u8], ReadErr>
    ensures { AnswersAt (λ x. x.now) (shift start cursor.new) result (sized_at bad (shift start cursor.old)) }
{
    let count = byte(cursor, start, bad)?;
    run(cursor, start, bad, count as usize)
}

// How many bytes there are from one place to another, both in one number.
#[inline(always)]
fn width(before: usize, behind: usize) -> u8
    requires order { before ≤ behind }
    requires few { behind ≤ before + 10 }
    ensures { result ≡ behind - before }
{
    (behind - before) as u8
}

// A ULEB128 operand.
#[inline(always)]
fn operand_uleb(cursor: &mut Cursor, start: u64, bad: Fault) -> Result<Operand, ReadErr>
    requires { start + (cursor.old.at + length cursor.old.rest) < 2 ^ 64 }
    ensures { AnswersAt (λ o. o) (shift start cursor.new) result (operand_uleb_at bad (shift start cursor.old)) }
{
    let before = cursor.at();
    let number = uleb(cursor, start, bad)?;
    let width = width(before, cursor.at());
    Ok(Operand {
        at: start + before as u64,
        width,
        uleb: true,
        base: Base::Unit,
        number,
    })
}

// The same, or 0 for the generic type. It is kept once it is read.
#[inline(always)]
fn operand_or_generic(
    cursor: &mut Cursor,
    start: u64,
    bad: Fault,
    operands: &mut Vec<Operand>,
    address: bool,
) -> Result<(), ReadErr>
    requires { start + (cursor.old.at + length cursor.old.rest) < 2 ^ 64 }
    ensures answer { AnswersAt (λ _. gathered operands.new.items address) (shift start cursor.new) result
        (field_into bad EntryOrGeneric (gathered operands.old.items address) (shift start cursor.old)) }
    ensures kept { OnErr result (operands.new.items ≡ operands.old.items) }
{
    let _address = address;
    let before = cursor.at();
    let number = uleb(cursor, start, bad)?;
    if number == 0 {
        return Ok(());
    }
    let width = width(before, cursor.at());
    operands.push(Operand {
        at: start + before as u64,
        width,
        uleb: true,
        base: Base::Unit,
        number,
    })?;
    Ok(())
}

// What stands behind the code of an operator that has no expression in it. Its operand is kept once all of it is read.
#[inline(always)]
#[tactic(auto, unfolding(crate::specs::Gathering::fields_into))]
fn fields(
    shape: Shape,
    code: u8,
    at: u64,
    section: u8,
    cursor: &mut Cursor,
    start: u64,
    operands: &mut Vec<Operand>,
    address: &mut bool,
) -> Result<(), ReadErr>
    requires flat { HasNoExpression shape }
    requires short { start + (cursor.old.at + length cursor.old.rest) < 2 ^ 64 }
    ensures answer { AnswersAt (λ _. gathered operands.new.items address.new) (shift start cursor.new) result
        (op_into section at code (fields_of shape) (gathered operands.old.items address.old) (shift start cursor.old)) }
    ensures kept { OnErr result (operands.new.items ≡ operands.old.items) }
{
    let bad = bad_at(section, at);
    match shape {
        Shape::Nothing => Ok(()),
        Shape::Fixed1 => {
            run(cursor, start, bad, 1)?;
            Ok(())
        }
        Shape::Fixed2 => {
            run(cursor, start, bad, 2)?;
            Ok(())
        }
        Shape::Fixed4 => {
            run(cursor, start, bad, 4)?;
            Ok(())
        }
        Shape::Fixed8 => {
            run(cursor, start, bad, 8)?;
            Ok(())
        }
        Shape::Uleb => {
            uleb(cursor, start, bad)?;
            Ok(())
        }
        Shape::Sleb => {
            sleb(cursor, start, bad)?;
            Ok(())
        }
        Shape::UlebSleb => {
            uleb(cursor, start, bad)?;
            sleb(cursor, start, bad)?;
            Ok(())
        }
        Shape::UlebUleb => {
            uleb(cursor, start, bad)?;
            uleb(cursor, start, bad)?;
            Ok(())
        }
        Shape::BlockUleb => {
            block(cursor, start, bad)?;
            Ok(())
        }
        Shape::Address => {
            eight(cursor, start, bad)?;
            *address = true;
            Ok(())
        }
        Shape::AddressIndex => {
            uleb(cursor, start, bad)?;
            *address = true;
            Ok(())
        }
        Shape::UnitEntry4 => {
            let operand = operand4(cursor, start, bad, Base::Unit)?;
            operands.push(operand)?;
            Ok(())
        }
        Shape::InfoEntry4 => {
            let operand = operand4(cursor, start, bad, Base::Info)?;
            operands.push(operand)?;
            Ok(())
        }
        Shape::InfoEntry4Sleb => {
            let operand = operand4(cursor, start, bad, Base::Info)?;
            sleb(cursor, start, bad)?;
            operands.push(operand)?;
            Ok(())
        }
        Shape::UlebEntryConst => {
            let operand = operand_uleb(cursor, start, bad)?;
            sized_block(cursor, start, bad)?;
            operands.push(operand)?;
            Ok(())
        }
        Shape::RegisterUlebEntry => {
            uleb(cursor, start, bad)?;
            let operand = operand_uleb(cursor, start, bad)?;
            operands.push(operand)?;
            Ok(())
        }
        Shape::SizeUlebEntry => {
            run(cursor, start, bad, 1)?;
            let operand = operand_uleb(cursor, start, bad)?;
            operands.push(operand)?;
            Ok(())
        }
        Shape::UlebEntryOrGeneric => {
            operand_or_generic(cursor, start, bad, operands, *address)?;
            Ok(())
        }
        Shape::Refused
        | Shape::Fixed3
        | Shape::Fixed16
        | Shape::ZeroEnded
        | Shape::Block1
        | Shape::Block2
        | Shape::Block4 => { Err(unsupported_at(section, at, code)) }
        Shape::NestedExpr
        | Shape::UlebUlebExpr
        | Shape::AddressAddressExpr
        | Shape::AddressUlebExpr => { Err(unsupported_at(section, at, code)) }
    }
}

// An expression behind its length, in an operator at that place, where so many expressions may be one inside another.
#[cycle(inside)]
fn nested_expr(
    alone: u8,
    at: u64,
    section: u8,
    cursor: &mut Cursor,
    start: u64,
    operands: &mut Vec<Operand>,
    address: &mut bool,
) -> Result<(), ReadErr>
    requires short { start + (cursor.old.at + length cursor.old.rest) < 2 ^ 64 }
    ensures answer { Gathers section (λ c. nested_into c alone (bad_expr c at) (gathered [] address.old) (shift start cursor.old))
        (added operands.old.items operands.new.items) (
          gathered (added operands.old.items operands.new.items) address.new,
          shift start cursor.new,
        ) result }
    ensures grows { Grows operands.old.items operands.new.items }
{
    let bad = bad_at(section, at);
    let count = uleb(cursor, start, bad)?;
    let place = start + cursor.at() as u64;
    let content = run(cursor, start, bad, count as usize)?;
    if alone == 0 {
        return Err(ReadErr::Refused(bad));
    }
    all(alone - 1, content, place, section, operands, address)
}

// The operators of an expression that has all the bytes, where so many expressions may be inside it in turn.
#[cycle(inside)]
pub(crate) fn all(
    inside: u8,
    bytes: &[u8],
    start: u64,
    section: u8,
    operands: &mut Vec<Operand>,
    address: &mut bool,
) -> Result<(), ReadErr>
    requires short { start + length bytes.now < 2 ^ 64 }
    ensures answer { Gathers section (λ c. ops_into c inside (gathered [] address.old) (record { at = start; rest = bytes.now }))
        (added operands.old.items operands.new.items) (gathered (added operands.old.items operands.new.items) address.new) result }
    ensures grows { Grows operands.old.items operands.new.items }
{
    let mut cursor = Cursor::new(bytes, 0);
    while cursor.at() < bytes.len() {
        let at = start + cursor.at() as u64;
        let code = byte(&mut cursor, start, bad_at(section, at))?;
        let shape = operator_shape(code);
        match shape {
            Shape::NestedExpr => nested_expr(
                inside,
                at,
                section,
                &mut cursor,
                start,
                operands,
                address,
            )?,
            _ => fields(
                shape,
                code,
                at,
                section,
                &mut cursor,
                start,
                operands,
                address,
            )?,
        }
    }
    Ok(())
}
