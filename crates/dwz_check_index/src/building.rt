//! How an index is built: one pass over the entries of a file.
//!
//! No text is looked up: whether an entry is a space is told by the form of its name, since the file was read before. Tops are numbered as
//! they come, with the room for their numbers asked for as a condition, so nothing is searched.

ghost use Rattle.std.specs.Prelude.{◌≡◌, ◌+◌, ◌<◌, ◌^◌, Some, slice_get, OnOk};
ghost use Rattle.dwz_def_reading.specs.Entries.{RawEntry};
ghost use Rattle.dwz_def_reading.specs.Trees.{Forest};
ghost use Rattle.dwz_def_reading.specs.Units.{RawUnit, entries_in};
ghost use Rattle.dwz_graph.specs.Building.{HasList, IsList};
ghost use Rattle.dwz_graph.specs.Spaces.{stored_space};
ghost use Rattle.dwz_check_index.specs.Building.{HasRoom, IsFew, whole_after, with_list, with_lone, with_outer, with_root, with_start};
ghost use Rattle.dwz_check_index.specs.Building.{with_steps, with_top, with_unit, with_units};
ghost use Rattle.dwz_unit.specs.Rows.{shown_units, units_of};

use crate::index::{CrossIndex, Stands, Step, TopEntry, UnitStart};
use dwz_codes::{DW_UT_COMPILE, DW_UT_PARTIAL};
use dwz_graph::is_space;
use dwz_model::NoMemory;
use dwz_unit::{RawUnit as RawUnitOfCode, Units};

// Appends the ways up from the entries of a list below `up`, in a top.
fn put_below(
    units: &Units,
    stands: Stands,
    up: u32,
    first: u32,
    end: u32,
    steps: &mut Vec<Step>,
) -> Result<(), NoMemory>
    requires { HasList (units_of units.now) first end }
    ensures { (list : Forest RawEntry) → IsList (units_of units.now) first end list
        → OnOk result (steps.new.items ≡ with_steps stands up 0 first list steps.old.items) }
{
    let mut entry = first;
    let mut index = 0;
    while entry < end {
        let next = units.entry(entry).end;
        steps.push(Step { up, index, stands })?;
        put_below(units, stands, entry, entry + 1, next, steps)?;
        entry = next;
        index += 1;
    }
    Ok(())
}

// The number behind that of a unit of some kind, where only units that aren't partial are counted.
fn next_whole(kind: u8, whole: u32) -> u32
    requires { whole + 1 < 2 ^ 32 }
    ensures { result ≡ whole_after kind whole }
{
    if kind == DW_UT_PARTIAL {
        whole
    } else {
        whole + 1
    }
}

impl CrossIndex {
    // Adds a top with the entries below it. It has that number among the entries, and `end` is the number behind its last one.
    fn put_top(
        &mut self,
        units: &Units,
        unit: u32,
        outer: u32,
        entry: u32,
        end: u32,
    ) -> Result<(), NoMemory>
        requires rows { HasList (units_of units.now) (entry + 1) end }
        requires room { HasRoom self.old.starts (entries_in (units_of units.now)) }
        requires few { IsFew self.old entry }
        requires there { entry < entries_in (units_of units.now) }
        ensures { (children : Forest RawEntry) → IsList (units_of units.now) (entry + 1) end children
            → OnOk result (self.new ≡ with_top unit outer entry children self.old) }
    {
        let stands = Stands::InTop(self.starts.top + self.tops.len() as u32);
        self.tops.push(TopEntry { entry, unit, outer })?;
        self.steps.push(Step {
            up: entry,
            index: 0,
            stands,
        })?;
        put_below(units, stands, entry, entry + 1, end, &mut self.steps)?;
        Ok(())
    }

    // Adds the root of a compile unit, or a space of it, to those that have numbers of their own.
    fn put_lone(&mut self, stands: Stands, entry: u32) -> Result<(), NoMemory>
        ensures { OnOk result (self.new ≡ with_lone stands entry self.old) }
    {
        match stands {
            Stands::UnitRoot(_) => self.lone.push(entry)?,
            Stands::UnitSpace(_) => self.lone.push(entry)?,
            _ => {}
        }
        Ok(())
    }

    // Adds a root or a space.
    fn put_outer(&mut self, stands: Stands, up: u32, index: u32, entry: u32) -> Result<(), NoMemory>
        ensures { OnOk result (self.new ≡ with_outer stands up index entry self.old) }
    {
        self.put_lone(stands, entry)?;
        self.steps.push(Step { up, index, stands })?;
        Ok(())
    }

    // Adds the entries of a list below the root of a compile or partial unit, or below a space of it: tops, and spaces with what is in
    // them. `stands` says what a space of the unit is.
    fn put_list(
        &mut self,
        units: &Units,
        unit: u32,
        stands: Stands,
        up: u32,
        first: u32,
        end: u32,
    ) -> Result<(), NoMemory>
        requires rows { HasList (units_of units.now) first end }
        requires room { HasRoom self.old.starts (entries_in (units_of units.now)) }
        requires few { IsFew self.old first }
        ensures { (list : Forest RawEntry) → IsList (units_of units.now) first end list
            → OnOk result (self.new ≡ with_list stored_space unit stands up 0 first list self.old) }
    {
        let mut entry = first;
        let mut index = 0;
        while entry < end {
            let next = units.entry(entry).end;
            if is_space(units, entry) {
                self.put_outer(stands, up, index, entry)?;
                self.put_list(units, unit, stands, entry, entry + 1, next)?;
            } else {
                self.put_top(units, unit, up, entry, next)?;
            }
            entry = next;
            index += 1;
        }
        Ok(())
    }

    // Adds the root of a compile or partial unit, and the entries below it.
    fn put_root(
        &mut self,
        units: &Units,
        unit: u32,
        root: Stands,
        space: Stands,
        first: u32,
        end: u32,
    ) -> Result<(), NoMemory>
        requires rows { HasList (units_of units.now) (first + 1) end }
        requires room { HasRoom self.old.starts (entries_in (units_of units.now)) }
        requires few { IsFew self.old first }
        requires there { first < entries_in (units_of units.now) }
        ensures { (list : Forest RawEntry) → IsList (units_of units.now) (first + 1) end list
            → OnOk result (self.new ≡ with_root unit root space first list self.old) }
    {
        self.put_outer(root, first, 0, first)?;
        self.put_list(units, unit, space, first, first + 1, end)?;
        Ok(())
    }

    // Adds where the tops of the next unit begin, and its root and spaces.
    fn put_start(&mut self, units: &Units, first: u32) -> Result<(), NoMemory>
        requires room { HasRoom self.old.starts (entries_in (units_of units.now)) }
        requires few { IsFew self.old first }
        requires there { first < entries_in (units_of units.now) }
        ensures { OnOk result (self.new ≡ with_start self.old) }
    {
        let _units = units;
        let top = self.starts.top + self.tops.len() as u32;
        let lone = self.starts.lone + self.lone.len() as u32;
        self.units.push(UnitStart { top, lone })?;
        Ok(())
    }

    // Adds the entries of the unit with a number, which is the one with the number `whole` among those that aren't partial, if it is none.
    fn put_unit(
        &mut self,
        units: &Units,
        number: u32,
        whole: u32,
        unit: &RawUnitOfCode,
    ) -> Result<(), NoMemory>
        requires shown { slice_get (shown_units (units_of units.now)) number ≡ Some unit.now }
        requires room { HasRoom self.old.starts (entries_in (units_of units.now)) }
        requires few { IsFew self.old unit.now.first }
        ensures { (u : RawUnit) → slice_get (units_of units.now) number ≡ Some u
            → OnOk result (self.new ≡ with_unit number whole unit.now.first u self.old) }
    {
        let first = unit.first;
        let end = units.entry(first).end;
        self.put_start(units, first)?;
        if unit.kind == DW_UT_COMPILE {
            let root = Stands::UnitRoot(whole);
            return self.put_root(units, number, root, Stands::UnitSpace(whole), first, end);
        }
        if unit.kind == DW_UT_PARTIAL {
            let root = Stands::PartialRoot;
            return self.put_root(units, number, root, Stands::PartialSpace, first, end);
        }
        self.put_top(units, number, first, first, end)
    }

    /// Adds the entries of all units.
    pub(crate) fn put_units(&mut self, units: &Units) -> Result<(), NoMemory>
        requires room { HasRoom self.old.starts (entries_in (units_of units.now)) }
        requires few { IsFew self.old 0 }
        ensures { OnOk result (self.new ≡ with_units 0 0 0 (units_of units.now) self.old) }
    {
        let mut whole = 0;
        for n in 0..units.len() {
            let unit = units.unit(n);
            self.put_unit(units, n, whole, &unit)?;
            whole = next_whole(unit.kind, whole);
        }
        Ok(())
    }
}
