//! The partial units that units import.

ghost use Rattle.std.specs.Prelude.{◌≡◌, ℕ, ◌+◌, ◌≤◌, ◌^◌, IfOk, length};
ghost use Rattle.std.specs.Option.{option_map};
ghost use Rattle.dwz_def_cross.specs.Tops.{WithCommon};
ghost use Rattle.dwz_def_reading.specs.Units.{entries_in};
ghost use Rattle.dwz_imports.specs.Imports.{AreImportLists, importing_flags};
ghost use Rattle.dwz_imports.specs.Said.{SaysBeside, raw_beside};
ghost use Rattle.dwz_unit.specs.Rows.{units_of};

use crate::collecting::{Collected, collect};
use crate::once::each_once;
use dwz_graph::File;
use dwz_groups::{Groups, group};
use dwz_model::{DwzList, Flags, NoMemory};
use dwz_unit::Units;
use std::alloc::Global;

/// Which partial units the units of a file import (DWARF 5, 3.2.5).
#[derive(Drop)]
pub struct Imports {
    /// Of each unit of the file the numbers of the partial units that children of its root import, in order of the imports, each once.
    /// Those
    /// of the common file have the numbers behind those of the file's own units.
    pub units: Groups,
    /// Of each entry of the file, by its number, whether it imports a partial unit.
    pub importing: Flags,
}

// The units of the common file, if there is one.
fn units_beside<'f, 'a>(common: Option<&'f File<'a>>) -> Option<&'f Units<'a>>
    ensures { option_map (λ u. u.now) result ≡ option_map (λ f. f.now.units) common.entry }
{
    match common {
        None => None,
        Some(file) => Some(&file.units),
    }
}

// How many units there are in all.
fn unit_count(own: &Units, common: Option<&Units>) -> usize
    ensures { result ≡ length (units_of own.now) + length (raw_beside (option_map (λ u. u.now) common.entry)) }
{
    match common {
        None => own.len() as usize,
        Some(common) => own.len() as usize + common.len() as usize,
    }
}

/// Which partial units each unit of a file imports, and which entries import one, in one pass over its entries. The common file is that
/// beside which it was read, if there is one.
pub fn imports_of(alloc: Global, file: &File, common: Option<&File>) -> Result<Imports, NoMemory>
    requires own { entries_in (units_of file.now.units) ≤ 2 ^ 28 }
    requires common { entries_in (raw_beside (option_map (λ f. f.now.units) common)) ≤ 2 ^ 28 }
    ensures units { (w : WithCommon ℕ) → SaysBeside (units_of file.now.units) (raw_beside (option_map (λ f. f.now.units) common.entry)) w
        → IfOk result (λ x. AreImportLists w x.units) }
    ensures importing { (w : WithCommon ℕ) → SaysBeside (units_of file.now.units) (raw_beside (option_map
        (λ f. f.now.units) common.entry)) w
        → IfOk result (λ x. x.importing ≡ importing_flags w) }
{
    let own = &file.units;
    let common = units_beside(common);
    // Places are below 2^32.
    let _info = own.info();
    let found = collect(alloc, own, common)?;
    let all = group(alloc, own.len() as usize, &found.edges)?;
    let units = each_once(alloc, &all, unit_count(own, common))?;
    let Collected {
        importing,
        edges: _,
    } = found;
    Ok(Imports {
        units,
        importing: DwzList::new(importing),
    })
}
