//! Values of entries, and the entries that they name.

ghost use Rattle.std.specs.Prelude.{◌≡◌, ℕ, ◌-◌, ◌++◌, List, Ok, drop, length, map, IfOk};
ghost use Rattle.dwz_def_reading.specs.Units.{entries_in};
ghost use Rattle.dwz_forms.specs.RawValues.{raw_view};
ghost use Rattle.dwz_def_reading.specs.Documents.{Value};
ghost use Rattle.dwz_def_reading.specs.Exprs.{Expression, expr_at};
ghost use Rattle.dwz_def_reading.specs.Meanings;
ghost use Rattle.dwz_def_reading.specs.Meanings.{MeaningContext, expr_context};
ghost use Rattle.dwz_def_reading.specs.Meant.{meaning};
ghost use Rattle.dwz_encode_operands.specs.First.{first_over, first_of_two};
ghost use Rattle.dwz_encode_operands.specs.Narrow.{number_by};
ghost use Rattle.dwz_encode_operands.specs.Walked.{KeepsPlaces, NotesOperands};
ghost use Rattle.dwz_def_output.specs.Refusals.{all_of_unit, operands_of_attr};
ghost use Rattle.dwz_graph.specs.Named.{value_refs};
ghost use Rattle.dwz_graph.specs.Resolved.{stored};
ghost use Rattle.dwz_move.specs.Bound;
ghost use Rattle.dwz_move.specs.Values;
ghost use Rattle.dwz_def_encoding.specs.Meant.{led_to};
ghost use Rattle.dwz_def_encoding.specs.Writing.{base_place};

use crate::over::note;
use dwz_codes::{Class, class_of};
use dwz_expr::{Operand, read_into};
use dwz_forms::Raw;
use dwz_model::{Base, DEBUG_INFO, NoMemory, Pair, ReadErr, at_or};
use std::alloc::AllocError;

#[inline(always)]
fn bytes_of<'a>(raw: &Raw<'a>) -> &'a [u8]
    ensures { result.now ≡ Meanings.bytes_of (raw_view raw.now) }
{
    match raw {
        Raw::Bytes(bytes) => bytes,
        Raw::Number(_) => &[],
    }
}

#[inline(always)]
fn is_entry(class: Class) -> bool
    ensures { result ≡ Values.is_entry class }
{
    match class {
        Class::UnitEntry => true,
        Class::InfoEntry => true,
        Class::CommonEntry => true,
        _ => false,
    }
}

#[inline(always)]
fn is_expression(class: Class) -> bool
    ensures { result ≡ Bound.is_expression class }
{
    match class {
        Class::Expression => true,
        _ => false,
    }
}

// Reads an expression that was read before, and ends at that place: its operands that name entries take the place of what stands in
// the row.
fn read_operands(raw: &Raw, end: u64, operands: &mut Vec<Operand>) -> Result<(), NoMemory>
    ensures { (s : MeaningContext ℕ) (e : Expression) → let bytes = Meanings.bytes_of (raw_view raw.now) in
        expr_at (expr_context s 1) (record { at = end - length bytes; rest = bytes }) ≡ Ok e
        → IfOk result (λ u. operands.new.items ≡ e.operands) }
{
    let bytes = bytes_of(raw);
    let at = end.saturating_sub(bytes.len() as u64);
    operands.clear();
    match read_into(operands, bytes, at, DEBUG_INFO) {
        Ok(_) => Ok(()),
        Err(ReadErr::NoMemory) => Err(AllocError),
        Err(ReadErr::Refused(_)) => Ok(()),
    }
}

// The number that leads to a place, in a unit that begins at another.
#[inline(always)]
fn number_of(base: Base, place: u64, unit: u64) -> u64
    ensures { result ≡ place - base_place unit base }
{
    match base {
        Base::Unit => place.saturating_sub(unit),
        Base::Info => place,
    }
}

/// What stands behind the first so many.
#[inline(always)]
pub(crate) fn behind(targets: &[u64], count: usize) -> &[u64]
    ensures { result.now ≡ drop count targets.now }
{
    match targets.get(count..) {
        Some(rest) => rest,
        None => &[],
    }
}

// The first place, with those of operands of an expression in a unit that begins there after. The places after of what they name stand
// first among the targets.
fn noted_all(first: Option<u64>, operands: &[Operand], targets: &[u64], unit: u64) -> Option<u64>
    ensures { (after : ℕ → ℕ) (at : ℕ) (more : List ℕ) → unit ≡ after at → targets.now ≡ map (λ o. after (led_to at o)) operands.now ++ more
        → result ≡ first_of_two first (first_over (number_by after) (all_of_unit at operands.now)) }
{
    let mut so_far = first;
    for (k, operand) in operands.iter().enumerate() {
        let number = number_of(operand.base, at_or(targets, k, 0), unit);
        so_far = note(so_far, operand.at, operand.uleb, operand.width, number);
    }
    so_far
}

/// Notes the operands of a value, if it is an expression. Answers the targets that are left, those of what stands behind it.
#[inline(always)]
pub(crate) fn note_value<'a>(
    first: &mut Option<u64>,
    targets: &'a [u64],
    unit: u64,
    end: u64,
    pair: &Pair,
    raw: &Raw,
    operands: &mut Vec<Operand>,
) -> Result<&'a [u64], NoMemory>
    ensures { (s : MeaningContext ℕ) (at : ℕ) (v : Value ℕ) (after : ℕ → ℕ) (more : List ℕ) → let a = stored at end pair.now raw.now in
        KeepsPlaces s → meaning s a ≡ Ok v → unit ≡ after s.unit → targets.now ≡ map after (value_refs v) ++ more
        → IfOk result (λ left. NotesOperands after s.unit (operands_of_attr s a) first.old first.new more left.now) }
{
    let class = class_of(pair.form);
    if is_entry(class) {
        return Ok(behind(targets, 1));
    }
    if !is_expression(class) {
        return Ok(targets);
    }
    read_operands(raw, end, operands)?;
    *first = noted_all(*first, operands, targets, unit);
    Ok(behind(targets, operands.len()))
}
