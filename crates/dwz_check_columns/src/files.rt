//! All of one file behind what is known of others.

ghost use Rattle.std.specs.Prelude.{ℕ, ◌+◌, ◌<◌, ◌≤◌, ◌^◌, List, [], OnOk};
ghost use Rattle.std.specs.Option.{option_map};
ghost use Rattle.dwz_check_columns.specs.Files.{IsCommonSide, IsFileSide, IsSomeCommon, IsSomeFile, PutsNodes, PutsUnits};
ghost use Rattle.dwz_check_sides.specs.Names.{AreApart};
ghost use Rattle.dwz_def_reading.specs.Documents.{DwUnit};
ghost use Rattle.dwz_def_reading.specs.Units.{entries_in};
ghost use Rattle.dwz_imports.specs.Said.{raw_beside};

use crate::nodes::NodeDraft;
use crate::units::UnitDraft;
use dwz_check_index::CrossIndex;
use dwz_check_sides::Side;
use dwz_graph::File;
use dwz_imports::imports_of;
use dwz_model::NoMemory;
use std::alloc::Global;

/// The numbers with which a file begins among all: of its first unit and of its first root, and that of the first common unit.
#[derive(Clone, Copy)]
pub(crate) struct FirstNumbers {
    pub(crate) unit: u32,
    pub(crate) lone: u32,
    pub(crate) common: u32,
}

/// Adds the nodes and units of a file.
pub(crate) fn put_file<'f>(
    alloc: Global,
    side: &Side<'f, '_>,
    first: FirstNumbers,
    nodes: &mut NodeDraft<'f>,
    units: &mut UnitDraft,
) -> Result<(), NoMemory>
    requires said { IsSomeFile side.now }
    requires some { 0 < nodes.old.next }
    requires next { nodes.old.next ≤ 2 ^ 30 }
    requires unit { first.unit ≤ 2 ^ 30 }
    requires lone { first.lone ≤ 2 ^ 30 }
    requires common { first.common ≤ 2 ^ 30 }
    ensures apart { AreApart nodes.old.lists nodes.old.next → OnOk result (AreApart nodes.new.lists nodes.new.next) }
    ensures next { OnOk result ((nodes.old.next ≤ nodes.new.next) × (nodes.new.next ≤ nodes.old.next + 2 ^ 28)) }
    ensures nodes { (said common : List (DwUnit ℕ)) (top : ℕ) → IsFileSide side.now said common top
        → OnOk result (PutsNodes said common nodes.old nodes.new) }
    ensures units { (said common : List (DwUnit ℕ)) (top : ℕ) → IsFileSide side.now said common top
        → OnOk result (PutsUnits said common top first.unit first.lone first.common units.old units.new) }
{
    let imports = imports_of(alloc, side.file, side.common)?;
    nodes.put_nodes(alloc, side, imports.importing.as_slice())?;
    units.put_all(
        alloc,
        side,
        &imports.units,
        first.unit,
        first.lone,
        first.common,
    )?;
    Ok(())
}

/// Adds the nodes and units of the common file, if there is one. None of its entries is a root or a space with a number.
pub(crate) fn put_common<'f>(
    alloc: Global,
    common: Option<&'f File<'_>>,
    index: Option<&'f CrossIndex>,
    first: FirstNumbers,
    nodes: &mut NodeDraft<'f>,
    units: &mut UnitDraft,
) -> Result<(), NoMemory>
    requires said { IsSomeCommon (option_map (λ f. f.now) common) (option_map (λ x. x.now) index) }
    requires few { entries_in (raw_beside (option_map (λ f. f.now.units) common)) ≤ 2 ^ 28 }
    requires some { 0 < nodes.old.next }
    requires next { nodes.old.next ≤ 2 ^ 30 }
    requires unit { first.unit ≤ 2 ^ 30 }
    requires lone { first.lone ≤ 2 ^ 30 }
    requires common { first.common ≤ 2 ^ 30 }
    ensures apart { AreApart nodes.old.lists nodes.old.next → OnOk result (AreApart nodes.new.lists nodes.new.next) }
    ensures next { OnOk result (nodes.new.next ≤ nodes.old.next + 2 ^ 28) }
    ensures nodes { (said : List (DwUnit ℕ)) (top : ℕ)
        → IsCommonSide (option_map (λ f. f.now) common.entry) (option_map (λ x. x.now) index.entry) said top
        → OnOk result (PutsNodes said [] nodes.old nodes.new) }
    ensures units { (said : List (DwUnit ℕ)) (top : ℕ)
        → IsCommonSide (option_map (λ f. f.now) common.entry) (option_map (λ x. x.now) index.entry) said top
        → OnOk result (PutsUnits said [] top first.unit first.lone first.common units.old units.new) }
{
    match common {
        None => Ok(()),
        Some(file) => match index {
            None => Ok(()),
            Some(index) => {
                let side = Side {
                    file,
                    common: None,
                    index,
                };
                put_file(alloc, &side, first, nodes, units)
            }
        },
    }
}
