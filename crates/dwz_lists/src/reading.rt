//! Location lists that are read.

ghost use Rattle.std.specs.Prelude.{◌≡◌, ◌<◌, ◌≤◌, length};
ghost use Rattle.dwz_def_reading.specs.Faults.{Answers};
ghost use Rattle.dwz_def_reading.specs.LocLists.{list_at};
ghost use Rattle.dwz_def_reading.specs.Sequences.{read_from};
ghost use Rattle.dwz_expr.specs.Gathering.{Grows, added};
ghost use Rattle.dwz_lists.specs.Entries.{ReadsEntry};
ghost use Rattle.dwz_lists.specs.FirstFault.{WalksInto};
ghost use Rattle.dwz_lists.specs.Gathering.{Adds, IsShort, content_of, exprs_with, in_lists};

use crate::fields::{Content, bad_at, byte, front};
use crate::pair::pair_at;
use dwz_bytes::Cursor;
use dwz_codes::DW_LLE_END_OF_LIST;
use dwz_expr::{Operand, Ops, read_into};
use dwz_model::{DEBUG_LOCLISTS, ReadErr};
use std::alloc::Global;
use std::marker::Model;

/// A location list that was read: its expressions, in order, and where it ends. Clauses see a `LocList`.
#[derive(Drop)]
pub struct LocationList<'a> {
    exprs: Vec<Ops<'a>>,
    end: u64,
}

impl<'a> Model for LocationList<'a> {
    ghost use Rattle.dwz_def_reading.specs.LocLists.{LocList};

    ghost Value = { LocList };

    ghost view = { λ l. record { exprs = l.exprs.items; end = l.end } };
}

impl<'a> LocationList<'a> {
    /// The expressions, in the order of the entries.
    pub fn exprs(&self) -> &[Ops<'a>]
        ensures { result.now ≡ self.now.exprs }
    {
        &self.exprs
    }

    /// The place behind the list.
    pub fn end(&self) -> u64
        ensures { result ≡ self.now.end }
    {
        self.end
    }
}

// Reads the expression that is there, and appends it.
fn push_expr<'a>(
    alloc: Global,
    content: Option<Content<'a>>,
    exprs: &mut Vec<Ops<'a>>,
) -> Result<(), ReadErr>
    requires { IsShort (content_of content) }
    ensures { Answers (λ _. exprs.new.items) result (exprs_with in_lists exprs.old.items (content_of content.entry)) }
{
    match content {
        None => Ok(()),
        Some(content) => {
            exprs.push(Ops::read(alloc, content.bytes, content.at, DEBUG_LOCLISTS)?)?;
            Ok(())
        }
    }
}

// Reads the expression that is there, and appends its operands.
fn push_operands(content: Option<Content>, operands: &mut Vec<Operand>) -> Result<(), ReadErr>
    requires { IsShort (content_of content) }
    ensures adds { Adds (content_of content.entry) (added operands.old.items operands.new.items) result }
    ensures grows { Grows operands.old.items operands.new.items }
{
    match content {
        None => Ok(()),
        Some(content) => {
            read_into(operands, content.bytes, content.at, DEBUG_LOCLISTS)?;
            Ok(())
        }
    }
}

/// Reads the location list at a place of `.debug_loclists`, in bytes from the section's first. Refused exactly at the first
/// entry that isn't read: as `BadList` at its kind, where that isn't in the table or what stands behind it isn't whole or too
/// wide; and with the fault of an expression at that fault's own place.
pub fn walk<'a>(alloc: Global, section: &'a [u8], at: u64) -> Result<LocationList<'a>, ReadErr>
    requires { at < length section.now }
    ensures { Answers (λ l. l) result (read_from (list_at in_lists) section.now at) }
{
    let mut cursor = Cursor::new(section, at as usize);
    let mut exprs = Vec::new(alloc);
    loop {
        let place = cursor.at() as u64;
        let kind = byte(&mut cursor, bad_at(place))?;
        if kind == DW_LLE_END_OF_LIST {
            let end = cursor.at() as u64;
            return Ok(LocationList { exprs, end });
        }
        let content = front(kind, place, &mut cursor)?;
        push_expr(alloc, content, &mut exprs)?;
    }
}

// The same as `entry_into`, whichever entry it is.
#[inline(always)]
fn other_into(operands: &mut Vec<Operand>, section: &[u8], at: u64) -> Result<Option<u64>, ReadErr>
    requires { at ≤ length section.now }
    ensures found { ReadsEntry section.now at (added operands.old.items operands.new.items) result }
    ensures grows { Grows operands.old.items operands.new.items }
{
    let mut cursor = Cursor::new(section, at as usize);
    let kind = byte(&mut cursor, bad_at(at))?;
    if kind == DW_LLE_END_OF_LIST {
        return Ok(None);
    }
    let content = front(kind, at, &mut cursor)?;
    push_operands(content, operands)?;
    Ok(Some(cursor.at() as u64))
}

/// Reads the entry of a location list that begins at a place of `.debug_loclists`, appends the operands of its expression that name
/// entries, and answers the place behind it; or nothing, where the list ends there. Refused as `walk` is. Then the operands before the
/// fault are appended, which are those that are looked up before.
///
/// The list at a place is the entry there, and the list behind that entry.
#[inline(always)]
pub fn entry_into(
    operands: &mut Vec<Operand>,
    section: &[u8],
    at: u64,
) -> Result<Option<u64>, ReadErr>
    requires { at ≤ length section.now }
    ensures found { ReadsEntry section.now at (added operands.old.items operands.new.items) result }
    ensures grows { Grows operands.old.items operands.new.items }
{
    if let Some(span) = pair_at(section, at as usize) {
        let bytes = &section[span.from..span.end];
        read_into(operands, bytes, span.from as u64, DEBUG_LOCLISTS)?;
        return Ok(Some(span.end as u64));
    }
    other_into(operands, section, at)
}

/// Reads the location list at a place of `.debug_loclists`, entry by entry, appends the operands of its expressions that name
/// entries, and answers the place behind the list.
///
/// Where it is refused, the operands before the fault are appended, which are those that are looked up before: so the first of
/// those that names no entry is the first fault, and where each does it is the one that is answered.
pub fn walk_into(operands: &mut Vec<Operand>, section: &[u8], at: u64) -> Result<u64, ReadErr>
    requires { at < length section.now }
    ensures found { WalksInto section.now at (added operands.old.items operands.new.items) result }
    ensures grows { Grows operands.old.items operands.new.items }
{
    let mut place = at;
    loop {
        match entry_into(operands, section, place)? {
            Some(next) => place = next,
            None => return Ok(place + 1),
        }
    }
}
