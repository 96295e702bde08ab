//! The bytes of units.

ghost use Rattle.std.specs.Prelude.{◌≡◌, ◌++◌, IfOk, OnOk, replicate};
ghost use Rattle.dwz_layout.specs.Attributes.{call_of, calls_of, here_view};
ghost use Rattle.dwz_layout.specs.Entries.{entries_of};
ghost use Rattle.dwz_encode.specs.Pages.{entries_page, entry_page, header_page, sort_page, type_byte, unit_page, units_page};
ghost use Rattle.dwz_encode.specs.Views.{numbers_view};

use crate::numbers::{Numbers, put_four};
use crate::values::put_values;
use dwz_bytes::{put_fixed, put_uleb};
use dwz_codes::{DW_UT_COMPILE, DW_UT_PARTIAL, DW_UT_TYPE};
use dwz_def_reading::Operand;
use dwz_layout::{
    Entry, EntryTable, FileLayout, OutUnit, Sort, Spots, UnitItems, Walk, WritingContext, behind,
    here_of,
};
use dwz_model::{NoMemory, at_or};
use std::alloc::Global;

// The byte for the type of a unit.
fn type_of(sort: Sort) -> u8
    ensures { result ≡ type_byte sort }
{
    match sort {
        Sort::Compile(_) => DW_UT_COMPILE,
        Sort::OfType { .. } => DW_UT_TYPE,
        Sort::Partial(_) => DW_UT_PARTIAL,
    }
}

// Appends what a type unit has in its header besides.
fn put_sort(out: &mut Vec<u8>, sort: Sort, numbers: Numbers) -> Result<(), NoMemory>
    ensures { OnOk result (out.new.items ≡ out.old.items ++ sort_page (numbers_view numbers.entry) sort) }
{
    if let Sort::OfType {
        signature,
        main,
        ..
    } = sort
    {
        put_fixed(out, 8, signature)?;
        put_four(
            out,
            at_or(numbers.places, main as usize, 0).saturating_sub(numbers.unit),
        )?;
    }
    Ok(())
}

// Appends the header of a unit.
fn put_header(
    out: &mut Vec<u8>,
    sort: Sort,
    unit: &OutUnit,
    numbers: Numbers,
) -> Result<(), NoMemory>
    ensures { OnOk result (out.new.items ≡ out.old.items ++ header_page (numbers_view numbers.entry) sort unit.now) }
{
    put_four(out, unit.end.saturating_sub(unit.at).saturating_sub(4))?;
    out.extend_from_slice(&[5, 0, type_of(sort), 8])?;
    put_four(out, unit.abbrev)?;
    put_sort(out, sort, numbers)
}

// Appends the ends of so many lists.
#[inline(always)]
fn put_ends(out: &mut Vec<u8>, count: u64) -> Result<(), NoMemory>
    ensures { OnOk result (out.new.items ≡ out.old.items ++ replicate count 0) }
{
    for _ in 0..count {
        out.push(0)?;
    }
    Ok(())
}

// Appends an entry under its code, and the ends behind it.
#[inline(always)]
fn put_entry(
    out: &mut Vec<u8>,
    room: &mut Vec<Operand>,
    known: &EntryTable,
    here: WritingContext,
    numbers: Numbers,
    entry: &Entry,
    code: u32,
) -> Result<(), NoMemory>
    ensures { OnOk result (out.new.items ≡ out.old.items
        ++ entry_page code (call_of known.now (here_view here) (numbers_view numbers.entry) entry.now)) }
{
    put_uleb(out, code as u64)?;
    put_values(out, room, known, here, numbers, entry.origin)?;
    put_ends(out, entry.ends)
}

// Appends entries, each under its code.
fn put_entries(
    out: &mut Vec<u8>,
    room: &mut Vec<Operand>,
    known: &EntryTable,
    here: WritingContext,
    numbers: Numbers,
    walk: &mut Walk,
    codes: &[u32],
) -> Result<(), NoMemory>
    ensures { OnOk result (out.new.items ≡ out.old.items
        ++ entries_page codes.now (calls_of known.now (here_view here) (numbers_view numbers.entry) (entries_of walk.old))) }
{
    for code in codes {
        let Some(entry) = walk.next() else {
            return Ok(());
        };
        put_entry(out, room, known, here, numbers, &entry, *code)?;
    }
    Ok(())
}

/// Appends the bytes of the unit with a number. They depend on no other unit, once all is laid.
pub fn put_unit(
    out: &mut Vec<u8>,
    room: &mut Vec<Operand>,
    known: &EntryTable,
    spots: &Spots,
    here: u32,
    unit: &UnitItems,
    laid: &OutUnit,
) -> Result<(), NoMemory>
    ensures { OnOk result (out.new.items ≡ out.old.items ++ unit_page known.now spots.now.places.items spots.now.roots.items here unit.now
        laid.now) }
{
    let numbers = Numbers {
        places: spots.places.as_slice(),
        roots: spots.roots.as_slice(),
        unit: laid.at,
    };
    put_header(out, unit.sort, laid, numbers)?;
    let mut walk = Walk::new(known, unit);
    put_entries(
        out,
        room,
        known,
        here_of(known, here, unit.sort),
        numbers,
        &mut walk,
        laid.codes.as_slice(),
    )
}

/// `.debug_info` of a file, the first unit of which has that number.
pub fn info_of(
    alloc: Global,
    known: &EntryTable,
    spots: &Spots,
    first: u32,
    units: &[UnitItems],
    laid: &FileLayout,
) -> Result<Vec<u8>, NoMemory>
    ensures { IfOk result (λ info. info.items ≡ units_page known.now spots.now.places.items spots.now.roots.items first units.now
        laid.now.units.items) }
{
    let mut info = Vec::with_capacity(alloc, laid.end as usize)?;
    let mut room = Vec::new(alloc);
    let mut here = first;
    for i in 0..units.len().min(laid.units.len()) {
        put_unit(
            &mut info,
            &mut room,
            known,
            spots,
            here,
            &units[i],
            &laid.units[i],
        )?;
        here = behind(here, 1)?;
    }
    Ok(info)
}
