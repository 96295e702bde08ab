//! Location lists that share bytes with operands of others.

ghost use Rattle.std.specs.Prelude.{◌≡◌, ℕ, ◌+◌, ◌≤◌, List, [], length, IfOk, IfErr};
ghost use Rattle.std.specs.List.Sorted.{IsPermutation};
ghost use Rattle.dwz_def_reading.specs.Faults.{Fails};
ghost use Rattle.dwz_def_reading.specs.Lists.{In};
ghost use Rattle.dwz_def_reading.specs.Rows.{has};
ghost use Rattle.dwz_def_reading.specs.Shared.{NamedList, none_shared, same_base, shared_list};
ghost use Rattle.dwz_model.specs.declared.fault.ReadErr.TheVariants.{Refused};
ghost use Rattle.dwz_graph_resolve.specs.Apart.{AreWide, Behind, FindsApart, FindsForeign, HasClash, IsLesser, Rise, Rows, Tested};
ghost use Rattle.dwz_graph_resolve.specs.Apart.{places_of_rows};
ghost use Rattle.dwz_graph_resolve.specs.Apart.{repeats_last, same_operand};
ghost use Rattle.dwz_graph_resolve.specs.ListRows.{AreDistinct, AreUnshared, AreWithin, IsWithin, Shows, own_rows, row_test, slot_test, tests_of};
ghost use Rattle.dwz_graph_resolve.specs.declared.lists.ListRow.{ListRow as KeptList};
ghost use Rattle.dwz_graph_resolve.specs.declared.operands.ListOperand.{ListOperand as Row};
ghost use Rattle.dwz_def_reading.specs.Units.{RawUnit};

use crate::lists::{ListRow, Lists};
use crate::operands::ListOperand;
use dwz_model::{Base, DEBUG_LOCLISTS, Fault, ReadErr, Reason};
use std::alloc::{AllocError, Global};

fn shared_at(at: u32) -> ReadErr
    ensures { result ≡ Refused (shared_list at) }
{
    ReadErr::Refused(Fault {
        section: DEBUG_LOCLISTS,
        at: at as u64,
        reason: Reason::SharedList,
    })
}

#[inline(always)]
fn is_same_base(a: Base, b: Base) -> bool
    ensures { result ≡ same_base a b }
{
    match a {
        Base::Unit => match b {
            Base::Unit => true,
            Base::Info => false,
        },
        Base::Info => match b {
            Base::Unit => false,
            Base::Info => true,
        },
    }
}

// Whether two operands are of one place, width, spelling and base, and of one unit.
#[inline(always)]
fn is_same(a: &ListOperand, b: &ListOperand) -> bool
    ensures { result ≡ same_operand a.now b.now }
{
    a.unit == b.unit
        && a.at == b.at
        && a.width == b.width
        && a.uleb == b.uleb
        && is_same_base(a.base, b.base)
}

// Whether an operand is the same as the last one, if there is one.
#[inline(always)]
fn repeats(last: &Option<ListOperand>, operand: &ListOperand) -> bool
    ensures { result ≡ repeats_last last.now operand.now }
{
    match last {
        None => false,
        Some(before) => is_same(before, operand),
    }
}

// Keeps operands, which come in order of place, each once, up to the first that shares a byte with one before it. Answers its place.
fn apart(sorted: &[ListOperand], kept: &mut Vec<ListOperand>) -> Result<Option<u32>, AllocError>
    ensures { kept.old.items ≡ [] → Rise sorted.now → AreWide sorted.now → IfOk result (FindsApart sorted.now kept.new.items) }
{
    let mut last: Option<ListOperand> = None;
    let mut end: u64 = 0;
    for operand in sorted {
        if repeats(&last, operand) {
            continue;
        }
        if (operand.at as u64) < end {
            return Ok(Some(operand.at));
        }
        kept.push(*operand)?;
        last = Some(*operand);
        end = operand.at as u64 + operand.width as u64;
    }
    Ok(None)
}

// How many of the rows end at a place or before it.
fn behind(kept: &[ListOperand], place: u64) -> usize
    ensures within { result ≤ length kept.now }
    ensures behind { (top : ℕ) → Rows 0 kept.now top → Behind kept.now place result }
{
    let mut low = 0;
    let mut high = kept.len();
    while low < high {
        let middle = low + (high - low) / 2;
        let row = &kept[middle];
        if row.at as u64 + row.width as u64 <= place {
            low = middle + 1;
        } else {
            high = middle;
        }
    }
    low
}

// Whether an operand begins at a place, of operands in order of place.
fn owns(own: &[ListOperand], place: u32) -> bool
    ensures { (top : ℕ) → Rows 0 own.now top → result ≡ has place (places_of_rows own.now) }
{
    let mut low = 0;
    let mut high = own.len();
    while low < high {
        let middle = low + (high - low) / 2;
        let at = own[middle].at;
        if at == place {
            return true;
        }
        if at < place {
            low = middle + 1;
        } else {
            high = middle;
        }
    }
    false
}

// The place of the first of the rows that has a byte from one place to before another, and isn't one of these operands.
fn foreign(kept: &[ListOperand], from: u64, end: u64, own: &[ListOperand]) -> Option<u32>
    ensures { (top high : ℕ) → Rows 0 kept.now top → Rows 0 own.now high
        → FindsForeign kept.now (record { from = from; end = end; own = own.now }) result }
{
    let first = behind(kept, from);
    let mut k = first;
    while k < kept.len() {
        let row = &kept[k];
        if row.at as u64 >= end {
            return None;
        }
        if !owns(own, row.at) {
            return Some(row.at);
        }
        k += 1;
    }
    None
}

#[inline(always)]
fn least(a: Option<u32>, b: Option<u32>) -> Option<u32>
    ensures { IsLesser a b result }
{
    match a {
        None => b,
        Some(first) => match b {
            None => a,
            Some(second) => Some(first.min(second)),
        },
    }
}

// The place of the first of the rows that has a byte of a list, and isn't one of its own.
fn foreign_to_list(kept: &[ListOperand], operands: &[ListOperand], list: &ListRow) -> Option<u32>
    requires { IsWithin operands.now list.now }
    ensures { (top high : ℕ) → Rows 0 kept.now top → Rows 0 (own_rows operands.now list.now) high
        → FindsForeign kept.now (row_test operands.now list.now) result }
{
    let own = &operands[list.first..list.last];
    foreign(kept, list.from, list.end, own)
}

// The place of the first of the rows that has a byte of a slot.
fn foreign_to_slot(kept: &[ListOperand], slot: u32) -> Option<u32>
    ensures { (top : ℕ) → Rows 0 kept.now top → FindsForeign kept.now (slot_test slot) result }
{
    foreign(kept, slot as u64, slot as u64 + 4, &[])
}

// The least place at which an operand shares a byte, where that of those that clash is known.
fn first_shared(kept: &[ListOperand], lists: &Lists, clash: Option<u32>) -> Option<u32>
    requires { AreWithin lists.now }
    ensures { (xs : List Row) (top : ℕ) → Rows 0 kept.now top
        → ((w : KeptList) → In w lists.now.rows.items → Rows (w.from + 1) (own_rows lists.now.operands.items w) w.end) → HasClash xs clash
        → Tested xs kept.now clash (tests_of lists.now) result }
{
    let mut place = clash;
    for row in &lists.rows {
        place = least(place, foreign_to_list(kept, &lists.operands, row));
    }
    for slot in &lists.slots {
        place = least(place, foreign_to_slot(kept, *slot));
    }
    place
}

// The operands in order of place.
fn in_order(alloc: Global, operands: &[ListOperand]) -> Result<Vec<ListOperand>, AllocError>
    ensures moved { IfOk result (λ sorted. IsPermutation operands.now sorted.items) }
    ensures rise { IfOk result (λ sorted. Rise sorted.items) }
{
    let mut sorted = Vec::from_slice(alloc, operands)?;
    sorted.sort_unstable_by_key(|operand| operand.at);
    Ok(sorted)
}

/// The operands of location lists in order of place, each once. Refused at the first that shares a byte with another, with a list
/// whose own it isn't, or with a slot.
pub(crate) fn unshared_operands(alloc: Global, lists: &Lists) -> Result<Vec<ListOperand>, ReadErr>
    requires { AreWithin lists.now }
    ensures ok { (raw : List RawUnit) (file : ℕ) (named : List NamedList) → Shows raw file named lists.now → AreDistinct raw
        → IfOk result (λ rows. AreUnshared raw file named rows.items) }
    ensures err { (raw : List RawUnit) (file : ℕ) (named : List NamedList) → Shows raw file named lists.now → AreDistinct raw
        → IfErr result (λ e. Fails e (none_shared named)) }
{
    let sorted = in_order(alloc, &lists.operands)?;
    let mut kept = Vec::new(alloc);
    let clash = apart(&sorted, &mut kept)?;
    match first_shared(&kept, lists, clash) {
        None => Ok(kept),
        Some(at) => Err(shared_at(at)),
    }
}
