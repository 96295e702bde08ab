//! Location lists (DWARF 5, 2.6.2): the expressions in them.

ghost use Rattle.std.specs.Prelude.{◌≡◌, ℕ, ◌++◌, ◌<◌, List, Ok, OnOk, IfOk, length, map};
ghost use Rattle.std.specs.List.{flat_map};
ghost use Rattle.dwz_label_entries.specs.Plain.{TellsPlain};
ghost use Rattle.dwz_def_reading.specs.Entries.{RawAttr};
ghost use Rattle.dwz_label.specs.Labels.{parts_label, plain_label};
ghost use Rattle.dwz_lists.specs.Gathering.{in_lists};
ghost use Rattle.dwz_def_reading.specs.Documents.{Loc, Value};
ghost use Rattle.dwz_def_reading.specs.Exprs.{parts_of};
ghost use Rattle.dwz_def_reading.specs.LocLists.{LocList, list_at};
ghost use Rattle.dwz_def_reading.specs.Meanings.{MeaningContext, loclists_base};
ghost use Rattle.dwz_def_reading.specs.Meant.{list_from, list_meaning};
ghost use Rattle.dwz_def_reading.specs.Meanings;
ghost use Rattle.dwz_def_reading.specs.Sequences.{read_from};

use crate::expressions::put_parts;
use crate::named::Named;
use dwz_expr::{Operand, Ops};
use dwz_graph::slot;
use dwz_label::put_list;
use dwz_lists::{walk, walk_into};
use dwz_model::{NoMemory, ReadErr};
use std::alloc::{AllocError, Global};

// Appends the parts of expressions.
fn put_exprs(out: &mut Vec<u8>, exprs: &[Ops<'_>]) -> Result<(), NoMemory>
    ensures { OnOk result (out.new.items ≡ out.old.items ++ flat_map parts_label (map parts_of exprs.now)) }
{
    for expr in exprs {
        put_parts(out, expr.bytes(), expr.at(), expr.operands())?;
    }
    Ok(())
}

// Appends that a value is the list at a place, which was read before.
fn put_read(alloc: Global, out: &mut Vec<u8>, lists: &[u8], place: u64) -> Result<(), NoMemory>
    requires { place < length lists.now }
    ensures { (l : LocList) → read_from (list_at in_lists) lists.now place ≡ Ok l
        → OnOk result (out.new.items ≡ out.old.items ++ plain_label (Loc (map parts_of l.exprs))) }
{
    match walk(alloc, lists, place) {
        Err(ReadErr::NoMemory) => Err(AllocError),
        Err(ReadErr::Refused(_)) => Ok(()),
        Ok(list) => {
            put_list(out, list.exprs().len() as u128)?;
            put_exprs(out, list.exprs())?;
            Ok(())
        }
    }
}

/// Appends that a value is the location list at a place of `.debug_loclists`; and keeps the operands of its expressions.
pub(crate) fn put_list_at(
    alloc: Global,
    out: &mut Vec<u8>,
    lists: &[u8],
    place: u128,
    operands: &mut Vec<Operand>,
) -> Result<Named, NoMemory>
    ensures { (s : MeaningContext ℕ) (a : RawAttr) (v : Value ℕ) → s.around.sources.lists ≡ lists.now → list_meaning s a place ≡ Ok v
        → IfOk result (λ named. TellsPlain s v operands.new.items out.old.items out.new.items named) }
{
    operands.clear();
    if place >= lists.len() as u128 {
        return Ok(Named::Kept);
    }
    match walk_into(operands, lists, place as u64) {
        Err(ReadErr::NoMemory) => Err(AllocError),
        Err(ReadErr::Refused(_fault)) => Ok(Named::Kept),
        Ok(_end) => {
            put_read(alloc, out, lists, place as u64)?;
            Ok(Named::Kept)
        }
    }
}

/// The same of the list whose offset from a base stands in a slot behind the base (DWARF 5, 7.29).
pub(crate) fn put_list_by_slot(
    alloc: Global,
    out: &mut Vec<u8>,
    lists: &[u8],
    base: Option<u32>,
    index: u128,
    operands: &mut Vec<Operand>,
) -> Result<Named, NoMemory>
    ensures { (s : MeaningContext ℕ) (a : RawAttr) (v : Value ℕ) → s.around.sources.lists ≡ lists.now → base ≡ loclists_base s
        → index ≡ Meanings.offset_of a → list_from s a base ≡ Ok v
        → IfOk result (λ named. TellsPlain s v operands.new.items out.old.items out.new.items named) }
{
    let Some(base) = base else {
        return Ok(Named::Kept);
    };
    let Some(offset) = slot(lists, base as u128, index) else {
        return Ok(Named::Kept);
    };
    put_list_at(alloc, out, lists, base as u128 + offset as u128, operands)
}
