//! The columns of two files and of their common one.

ghost use Rattle.std.specs.Prelude.{◌≡◌, ℕ, ◌<◌, ◌≤◌, ◌^◌, ◌++◌, All, List, IfOk, OnOk, false, length, replicate};
ghost use Rattle.std.specs.Option.{option_map};
ghost use Rattle.dwz_check_columns.specs.Files.{PutsThree};
ghost use Rattle.dwz_check_columns.specs.Shows.{ShowRows, TwoSay, TwoSaySome, beside};
ghost use Rattle.dwz_check_sides.specs.Names.{AreApart};
ghost use Rattle.dwz_def_check.specs.CrossNames.{CrossName};
ghost use Rattle.dwz_def_reading.specs.Documents.{DwUnit};
ghost use Rattle.dwz_def_reading.specs.Units.{entries_in};
ghost use Rattle.dwz_groups.specs.Groups.{grouped};
ghost use Rattle.dwz_imports.specs.Said.{raw_beside};
ghost use Rattle.dwz_unit.specs.Rows.{units_of};

use crate::files::{FirstNumbers, put_common, put_file};
use crate::nodes::NodeDraft;
use crate::units::UnitDraft;
use dwz_check_index::CrossIndexes;
use dwz_check_rows::Columns;
use dwz_check_sides::Side;
use dwz_graph::File;
use dwz_groups::group;
use dwz_model::{DwzList, NoMemory};
use std::alloc::Global;

// Adds the numbers of roots and spaces behind those of tops; none of these is a top that imports nothing.
fn put_lone(lone: &[u32], names: &mut Vec<u32>, plain: &mut Vec<bool>) -> Result<(), NoMemory>
    ensures names { OnOk result (names.new.items ≡ names.old.items ++ lone.now) }
    ensures plain { OnOk result (plain.new.items ≡ plain.old.items ++ replicate (length lone.now) false) }
{
    for number in lone {
        names.push(*number)?;
        plain.push(false)?;
    }
    Ok(())
}

// The columns, where the files have so many units.
fn finish(
    alloc: Global,
    nodes: NodeDraft,
    units: UnitDraft,
    old: usize,
    new: usize,
) -> Result<Columns, NoMemory>
    requires paths { All (λ p. p.key < length units.units.items) units.paths.items }
    requires imports { All (λ p. p.key < length units.units.items) units.imports.items }
    ensures names { IfOk result (λ x. x.names ≡ nodes.entry.tops.items ++ nodes.entry.lone.items) }
    ensures plain { IfOk result (λ x. x.plain ≡ nodes.entry.plain.items ++ replicate (length nodes.entry.lone.items) false) }
    ensures units { IfOk result (λ x. x.units ≡ units.units.items) }
    ensures old { IfOk result (λ x. x.old ≡ old) }
    ensures new { IfOk result (λ x. x.new ≡ new) }
    ensures paths { IfOk result (λ x. x.paths ≡ grouped (length units.units.items) units.paths.items) }
    ensures imports { IfOk result (λ x. x.imports ≡ grouped (length units.units.items) units.imports.items) }
{
    let NodeDraft {
        lists: _,
        next: _,
        tops: mut names,
        mut plain,
        lone,
    } = nodes;
    let UnitDraft {
        units,
        paths,
        imports,
    } = units;
    put_lone(lone.as_slice(), &mut names, &mut plain)?;
    let paths = group(alloc, units.len(), &paths)?;
    let imports = group(alloc, units.len(), &imports)?;
    Ok(Columns {
        names: DwzList::new(names),
        plain: DwzList::new(plain),
        units: DwzList::new(units),
        old,
        new,
        paths,
        imports,
    })
}

// What is known of all nodes and units.
#[derive(Drop)]
struct Draft<'f> {
    nodes: NodeDraft<'f>,
    units: UnitDraft,
}

// What is known of the nodes and units of two files, and of their common one, if there is one.
fn draft_of<'f>(
    alloc: Global,
    old: &'f File<'_>,
    new: &'f File<'_>,
    common: Option<&'f File<'_>>,
    indexes: &'f CrossIndexes,
) -> Result<Draft<'f>, NoMemory>
    requires old { entries_in (units_of old.now.units) ≤ 2 ^ 28 }
    requires new { entries_in (units_of new.now.units) ≤ 2 ^ 28 }
    requires common { entries_in (raw_beside (option_map (λ f. f.now.units) common)) ≤ 2 ^ 28 }
    requires said { TwoSaySome old.now new.now (option_map (λ f. f.now) common) indexes.now }
    ensures apart { IfOk result (λ x. AreApart x.nodes.lists x.nodes.next) }
    ensures few { IfOk result (λ x. x.nodes.next ≤ 2 ^ 32) }
    ensures three { (a b c : List (DwUnit ℕ)) → TwoSay old.now new.now (option_map (λ f. f.now) common.entry) indexes.now a b c
        → IfOk result (λ x. PutsThree a b c x.nodes x.units) }
{
    let mut nodes = NodeDraft::new(alloc);
    let mut units = UnitDraft::new(alloc);
    let behind = old.units.len() + new.units.len();
    let before = FirstNumbers {
        unit: 0,
        lone: indexes.old_lone,
        common: behind,
    };
    let after = FirstNumbers {
        unit: old.units.len(),
        lone: indexes.new_lone,
        common: behind,
    };
    let shared = FirstNumbers {
        unit: behind,
        lone: 0,
        common: behind,
    };
    let first = Side {
        file: old,
        common,
        index: &indexes.old,
    };
    let second = Side {
        file: new,
        common,
        index: &indexes.new,
    };
    let index = indexes.common.as_ref();
    put_file(alloc, &first, before, &mut nodes, &mut units)?;
    put_file(alloc, &second, after, &mut nodes, &mut units)?;
    put_common(alloc, common, index, shared, &mut nodes, &mut units)?;
    Ok(Draft { nodes, units })
}

/// The columns of which the rows of two files are made, and those of their common file, if there is one. The indexes are those of these
/// files.
pub fn columns_of(
    alloc: Global,
    old: &File,
    new: &File,
    common: Option<&File>,
    indexes: &CrossIndexes,
) -> Result<Columns, NoMemory>
    requires old { entries_in (units_of old.now.units) ≤ 2 ^ 28 }
    requires new { entries_in (units_of new.now.units) ≤ 2 ^ 28 }
    requires common { entries_in (raw_beside (option_map (λ f. f.now.units) common)) ≤ 2 ^ 28 }
    requires said { TwoSaySome old.now new.now (option_map (λ f. f.now) common) indexes.now }
    ensures { (a b c : List (DwUnit ℕ)) (name other : ℕ → CrossName) → TwoSay old.now new.now (option_map
        (λ f. f.now) common.entry) indexes.now a b c
        → IfOk result (ShowRows (beside a c) (beside b c) name other) }
{
    // Places are below 2^32.
    let _old_info = old.units.info();
    let _new_info = new.units.info();
    let Draft { nodes, units } = draft_of(alloc, old, new, common, indexes)?;
    let old_count = old.units.len() as usize;
    let new_count = new.units.len() as usize;
    let columns = finish(alloc, nodes, units, old_count, new_count)?;
    Ok(columns)
}
