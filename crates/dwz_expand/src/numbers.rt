//! The new numbers of the operands of a file's location lists.

ghost use Rattle.std.specs.Prelude.{◌≡◌, ◌++◌, ◌∷◌, ◌<◌, [], ℕ, IfOk, List, OnOk, Some, length, map, slice_get};
ghost use Rattle.dwz_def_expand.specs.OneFile.{OneFile};
ghost use Rattle.dwz_expand_sources.specs.Rows.{AreCopies};
ghost use Rattle.dwz_expand_layout.specs.Laid.{layout_view};
ghost use Rattle.dwz_model.specs.Lists.{In};
ghost use Rattle.dwz_expand.specs.Walked.{HasLists, told_by, told_of};
ghost use Rattle.dwz_expand_passes.specs.Noted.{plan_sources};
ghost use Rattle.dwz_expand_passes.specs.Passes.{IsReady, entry_many};
ghost use Rattle.dwz_expand_sections.specs.ListLaws.{AreListed};
ghost use Rattle.dwz_expand_sections.specs.NumberLaws.{GivesNumbers};
ghost use Rattle.dwz_expand_sources.specs.Numbers.{root_numbers};
ghost use Rattle.dwz_expand_sources.specs.declared.sources.NewUnit.{NewUnit};
ghost use Rattle.dwz_expand.specs.Units.{CanBeCopied};
ghost use Rattle.dwz_expand_passes.specs.Files.{common_count};
ghost use Rattle.dwz_expand_sources.specs.Walk.{sources_of};

use crate::entry::{AtUnit, put_values};
use crate::rows::row_numbers;
use dwz_def_reading::Operand;
use dwz_expand_layout::NewLayout;
use dwz_expand_passes::{NewFile, SourceFile};
use dwz_expand_sources::{Copies, CopyNumbers, SourceWalk};
use dwz_graph::ListOperand;
use dwz_model::NoMemory;

/// A new unit, by its number.
#[derive(Clone, Copy)]
pub(crate) struct InUnit<'x, 's, 'a> {
    pub(crate) file: &'x NewFile<'s, 'a>,
    pub(crate) layout: &'x NewLayout,
    pub(crate) copies: &'x Copies,
    pub(crate) unit: usize,
}

// Adds the operands of the lists that the values of a source name. Those of the common file name none.
fn put_source(
    x: &InUnit,
    i: u32,
    told: &mut Vec<Operand>,
    read: &mut Vec<Operand>,
) -> Result<(), NoMemory>
    requires ready { IsReady x.now.file.now }
    requires many { length x.now.copies.now.first ≡ entry_many x.now.file.now }
    requires copies { (roots : List ℕ) × AreCopies x.now.file.now.sources.now roots x.now.copies.now }
    requires at { x.now.copies.now.unit ≡ x.now.unit }
    requires unit { x.now.unit < length x.now.file.now.sources.now.units }
    ensures { (f : OneFile) → HasLists f x.now.file.now (layout_view x.now.layout.now)
        → In (x.now.unit, i) (plan_sources x.now.file.now.sources.now.ranges 0 x.now.file.now.sources.now.units)
        → OnOk result (told.new.items ≡ told.old.items ++ told_by f x.now.file.now (x.now.unit, i)) }
{
    let file = x.file;
    let units = file.own.units;
    if i >= units.entries() {
        return Ok(());
    }
    let heres = file.own.heres;
    let at = AtUnit {
        file,
        layout: x.layout,
        copies: x.copies,
        unit: x.unit,
        here: &heres[units.entry(i).unit as usize],
    };
    put_values(&at, i, told, read)
}

// Those of all sources of the unit.
fn put_sources(x: &InUnit, told: &mut Vec<Operand>, read: &mut Vec<Operand>) -> Result<(), NoMemory>
    requires ready { IsReady x.now.file.now }
    requires many { length x.now.copies.now.first ≡ entry_many x.now.file.now }
    requires copies { (roots : List ℕ) × AreCopies x.now.file.now.sources.now roots x.now.copies.now }
    requires at { x.now.copies.now.unit ≡ x.now.unit }
    requires unit { x.now.unit < length x.now.file.now.sources.now.units }
    ensures { (f : OneFile) → HasLists f x.now.file.now (layout_view x.now.layout.now)
        → (new : NewUnit) → slice_get x.now.file.now.sources.now.units x.now.unit ≡ Some new
        → OnOk result (told.new.items ≡ told.old.items ++ told_of f x.now.file.now (map (λ i. (x.now.unit, i)) (sources_of x.now.file.now.sources.now.ranges new))) }
{
    let file = x.file;
    let mut walk = SourceWalk::new(file.sources, x.unit);
    while let Some(i) = walk.next() {
        put_source(x, i, told, read)?;
    }
    Ok(())
}

// Those of all new units.
fn told_lists(
    file: &NewFile,
    layout: &NewLayout,
    numbers: &CopyNumbers,
    copies: &mut Copies,
) -> Result<Vec<Operand>, NoMemory>
    requires ready { IsReady file.now }
    requires many { length copies.old.first ≡ entry_many file.now }
    requires copies { AreCopies file.now.sources.now numbers.now.roots copies.old }
    ensures { (f : OneFile) → HasLists f file.now (layout_view layout.now)
        → IfOk result (λ told. told.items ≡ told_of f file.now (plan_sources file.now.sources.now.ranges 0 file.now.sources.now.units)) }
{
    let mut told = Vec::new(file.alloc);
    let mut read = Vec::new(file.alloc);
    for n in 0..file.sources.units().len() {
        copies.enter(file.sources, numbers, n);
        let x = InUnit {
            file,
            layout,
            copies,
            unit: n,
        };
        put_sources(&x, &mut told, &mut read)?;
    }
    Ok(told)
}

// How many entries the common file has.
fn common_entries(common: &Option<SourceFile>) -> usize
    ensures { result ≡ common_count common.now }
{
    match common {
        Some(common) => common.units.entries() as usize,
        None => 0,
    }
}

// The copies of all entries; no unit is at hand.
fn copies_of(file: &NewFile, numbers: &CopyNumbers) -> Result<Copies, NoMemory>
    requires ready { IsReady file.now }
    requires numbers { numbers.now.roots ≡ root_numbers file.now.sources.now.ranges 0 file.now.sources.now.units }
    ensures copies { IfOk result (λ c. AreCopies file.now.sources.now numbers.now.roots c) }
    ensures many { IfOk result (λ c. length c.first ≡ entry_many file.now) }
{
    let entries = file.own.units.entries() as usize + common_entries(&file.common);
    Copies::of(file.alloc, file.sources, numbers, entries)
}

/// The new numbers of the operands of the file's location lists, which are given each once and in order of place. None is for an operand
/// whose list no value of the new file names.
pub(crate) fn list_numbers(
    file: &NewFile,
    operands: &[ListOperand],
    layout: &NewLayout,
) -> Result<Vec<Option<u64>>, NoMemory>
    requires ready { IsReady file.now }
    ensures many { IfOk result (λ numbers. length numbers.items ≡ length operands.now) }
    ensures gives { (f : OneFile) → HasLists f file.now (layout_view layout.now) → CanBeCopied f → AreListed f operands.now
        → IfOk result (λ numbers. GivesNumbers f operands.now numbers.items) }
{
    let numbers = CopyNumbers::of(file.alloc, file.sources)?;
    let mut copies = copies_of(file, &numbers)?;
    let told = told_lists(file, layout, &numbers, &mut copies)?;
    row_numbers(file.alloc, operands, told.as_slice())
}
