//! Which spaces operands name that are ULEB128 numbers.
//!
//! The walk that marks named tops marks them, each space in place of a top of its number. It is a second walk over the values, where a file
//! has a space at all.

ghost use Rattle.std.specs.Prelude.{◌≡◌, ℕ, ◌+◌, ◌<◌, ◌++◌, ◌^◌, None, Ok, List, false, length, map, replicate, true, IfOk, OnOk};
ghost use Rattle.std.specs.List.{list_any};
ghost use Rattle.dwz_graph.specs.Across.{IsFileAmong, file_units, name_at};
ghost use Rattle.dwz_def_tops.specs.Alike.{any_attr};
ghost use Rattle.dwz_def_tops.specs.Spots.{EntryName, same_spot, units_of};
ghost use Rattle.dwz_graph.specs.Files.{docs_of};
ghost use Rattle.dwz_def_reading.specs.Documents.{DwUnit, unit_map};
ghost use Rattle.dwz_def_reading.specs.Meanings.{Around};
ghost use Rattle.dwz_def_reading.specs.Meant.{units_meaning};
ghost use Rattle.dwz_def_images.specs.Plan.{pinned_in};
ghost use Rattle.dwz_layout_order.specs.Lists.{all_spaces};
ghost use Rattle.dwz_move.specs.Known.{KnowsRefs, in_unit};
ghost use Rattle.dwz_move.specs.Marked.{Marks, MarksIf, expression_pins};
ghost use Rattle.dwz_unit.specs.Rows.{units_of as raw_units};
ghost use Rattle.dwz_layout_input.specs.Pinned.{ArePinned};
ghost use Rattle.dwz_layout_input.specs.Places;
ghost use Rattle.dwz_layout_input.specs.Places.{AreNone, AreSpaceNumbers, NamesApart, list_spaces, spot_at};

use dwz_expr::Operand;
use dwz_graph::{File, Graph, Index, ListOperand, SpaceEntry};
use dwz_model::NoMemory;
use dwz_move::{Named, mark, mark_unit};
use dwz_unit::Units;
use std::alloc::Global;

// No numbers, for so many entries.
fn no_numbers(alloc: Global, count: u32) -> Result<Vec<Option<u32>>, NoMemory>
    ensures { IfOk result (λ numbers. numbers.items ≡ replicate count None) }
{
    let mut numbers = Vec::with_capacity(alloc, count as usize)?;
    for _ in 0..count {
        numbers.push(None)?;
    }
    Ok(numbers)
}

// Sets the number of each entry that is a space. The first space has the number `first`.
fn set_numbers(numbers: &mut Vec<Option<u32>>, first: u32, spaces: &[SpaceEntry])
    requires { first + length spaces.now < 2 ^ 32 }
    ensures len { length numbers.new.items ≡ length numbers.old.items }
    ensures each { AreNone numbers.old.items → AreSpaceNumbers first spaces.now numbers.new.items }
{
    for (k, space) in spaces.iter().enumerate() {
        if (space.entry as usize) < numbers.len() {
            numbers[space.entry as usize] = Some(first + k as u32);
        }
    }
}

// For each entry of a file the number of the space that it is, where it is one.
fn space_numbers(alloc: Global, index: &Index) -> Result<Vec<Option<u32>>, NoMemory>
    requires few { length index.now.steps < 2 ^ 32 }
    requires room { index.now.starts.space + length index.now.spaces < 2 ^ 32 }
    ensures len { IfOk result (λ numbers. length numbers.items ≡ length index.now.steps) }
    ensures each { IfOk result (λ numbers. AreSpaceNumbers index.now.starts.space index.now.spaces numbers.items) }
{
    let mut numbers = no_numbers(alloc, index.len())?;
    set_numbers(&mut numbers, index.starts().space, index.spaces());
    Ok(numbers)
}

// The number of the space that an entry is, where it is one.
#[inline(always)]
fn number_at(numbers: &[Option<u32>], entry: u32) -> Option<u32>
    ensures { result ≡ Places.number_at numbers.now entry }
{
    match numbers.get(entry as usize) {
        Some(number) => *number,
        None => None,
    }
}

// For each reference of a file, by the number of the entry that it names, the number of the space that this is.
fn spaces_of(
    alloc: Global,
    numbers: &[Option<u32>],
    refs: &[u32],
) -> Result<Vec<Option<u32>>, NoMemory>
    ensures { IfOk result (λ into. into.items ≡ map (Places.number_at numbers.now) refs.now) }
{
    let mut into = Vec::with_capacity(alloc, refs.len())?;
    for entry in refs {
        into.push(number_at(numbers, *entry))?;
    }
    Ok(into)
}

// Marks what operands of expressions of all units of a file name that are ULEB128 numbers. For each reference is given the number that
// stands for it, and for each entry where its references begin.
fn pin_units(
    units: &Units,
    into: &[Option<u32>],
    starts: &[u32],
    named: &mut Named,
    operands: &mut Vec<Operand>,
) -> Result<(), NoMemory>
    ensures { (around : Around ℕ) (refs : List ℕ) (name : ℕ → EntryName) (said : List (DwUnit ℕ))
        → KnowsRefs around (raw_units units.now) name refs starts.now into.now → units_meaning around (raw_units units.now) ≡ Ok said
        → OnOk result (MarksIf (λ t. list_any (in_unit (any_attr (expression_pins t))) (map (unit_map name) said) ≡ true)
        named.old.by_uleb.items named.new.by_uleb.items) }
{
    for n in 0..units.len() {
        mark_unit(units, into, starts, n, named, operands)?;
    }
    Ok(())
}

// Marks the spaces that operands of location lists name that are ULEB128 numbers.
fn pin_lists(numbers: &[Option<u32>], rows: &[ListOperand], flags: &mut Vec<bool>)
    ensures { Marks (list_spaces numbers.now rows.now) flags.old.items flags.new.items }
{
    for row in rows {
        mark(flags, row.uleb, number_at(numbers, row.entry));
    }
}

// Marks the spaces that operands of a file name that are ULEB128 numbers, in expressions and in location lists.
fn pin_file(
    alloc: Global,
    file: &File,
    index: &Index,
    named: &mut Named,
    operands: &mut Vec<Operand>,
) -> Result<(), NoMemory>
    requires few { length index.now.steps < 2 ^ 32 }
    requires room { index.now.starts.space + length index.now.spaces < 2 ^ 32 }
    ensures { (contents : List (List ℕ)) (k : ℕ) (bytes : List ℕ) (spots : List EntryName) (is : IsFileAmong contents k bytes file.now
        index.now)
        → NamesApart spots index.now (raw_units file.now.units) (name_at index.now.starts is.kept.read.doc)
        → length named.old.by_uleb.items ≡ length spots
        → OnOk result (MarksIf (λ t. list_any (pinned_in (same_spot (spot_at spots t))) (file_units index.now.starts k is.kept.read.doc)
        ≡ true) named.old.by_uleb.items named.new.by_uleb.items) }
{
    let resolved = &file.resolved;
    let numbers = space_numbers(alloc, index)?;
    let into = spaces_of(alloc, numbers.as_slice(), resolved.refs.as_slice())?;
    pin_units(
        &file.units,
        into.as_slice(),
        resolved.starts.as_slice(),
        named,
        operands,
    )?;
    pin_lists(
        numbers.as_slice(),
        resolved.operands.as_slice(),
        &mut named.by_uleb,
    );
    Ok(())
}

// Appends so many flags that aren't set.
fn put_unset(flags: &mut Vec<bool>, count: usize) -> Result<(), NoMemory>
    ensures { OnOk result (flags.new.items ≡ flags.old.items ++ replicate count false) }
{
    for _ in 0..count {
        flags.push(false)?;
    }
    Ok(())
}

// A flag for each space of all files, which isn't set.
fn unset_flags(alloc: Global, indexes: &[Index]) -> Result<Vec<bool>, NoMemory>
    ensures { IfOk result (λ flags. flags.items ≡ replicate (length (all_spaces indexes.now)) false) }
{
    let mut flags = Vec::new(alloc);
    for index in indexes {
        put_unset(&mut flags, index.spaces().len())?;
    }
    Ok(flags)
}

/// For each space of all files, by its number, whether an operand of an expression or of a location list names it that is a ULEB128
/// number. A pass over the values of all entries, beside that for tops, where there are spaces.
pub fn pinned_spaces(alloc: Global, graph: &Graph) -> Result<Vec<bool>, NoMemory>
    ensures { IfOk result (λ flags. ArePinned (units_of (docs_of graph.now.given)) flags.items) }
{
    let indexes = graph.indexes();
    let flags = unset_flags(alloc, indexes)?;
    if flags.is_empty() {
        return Ok(flags);
    }
    let mut named = Named {
        by_any: Vec::new(alloc),
        by_uleb: flags,
    };
    let mut operands = Vec::new(alloc);
    for (number, file) in graph.files().iter().enumerate() {
        pin_file(alloc, file, &indexes[number], &mut named, &mut operands)?;
    }
    let Named {
        by_any: _,
        by_uleb: pinned,
    } = named;
    Ok(pinned)
}
