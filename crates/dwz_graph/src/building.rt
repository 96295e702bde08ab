//! How an index is built: one pass over the entries of a file.
//!
//! No text is looked up: whether an entry is a space is told by the form of its name, since the file was read before. Tops and spaces are
//! numbered as they come, with the room for their numbers asked for as a condition, so nothing is searched.

ghost use Rattle.std.specs.Prelude.{◌≡◌, ◌+◌, ◌<◌, ◌++◌, Some, slice_get, IfOk, OnOk};
ghost use Rattle.dwz_def_reading.specs.Entries.{RawEntry};
ghost use Rattle.dwz_def_reading.specs.Trees.{Forest};
ghost use Rattle.dwz_def_reading.specs.Units.{RawUnit, entries_in};
ghost use Rattle.dwz_graph.specs.Building.{HasList, HasRoom, IsFew, IsList, space_behind, with_list, with_space, with_top, with_unit};
ghost use Rattle.dwz_graph.specs.Building.{with_units};
ghost use Rattle.dwz_graph.specs.Steps.{steps_below};
ghost use Rattle.dwz_unit.specs.Rows.{shown_units, units_of};

use crate::index::{Index, SpaceEntry, Step, TopEntry};
use crate::spaces::is_space;
use dwz_codes::DW_UT_COMPILE;
use dwz_model::NoMemory;
use dwz_unit::{RawUnit as RawUnitOfCode, Units};

// Appends the ways up from the entries of a list below `up`, in the top before the number `top`, or in none where that is 0.
pub(crate) fn put_below(
    units: &Units,
    first: u32,
    end: u32,
    up: u32,
    top: u32,
    steps: &mut Vec<Step>,
) -> Result<(), NoMemory>
    requires { HasList (units_of units.now) first end }
    ensures { (list : Forest RawEntry) → IsList (units_of units.now) first end list
        → OnOk result (steps.new.items ≡ steps.old.items ++ steps_below top up 0 first list) }
{
    let mut entry = first;
    let mut index = 0;
    while entry < end {
        let next = units.entry(entry).end;
        steps.push(Step { up, index, top })?;
        put_below(units, entry + 1, next, entry, top, steps)?;
        entry = next;
        index += 1;
    }
    Ok(())
}

impl Index {
    // Adds a top with the entries below it. It has that number among the entries, and `end` is the number behind its last one.
    fn put_top(
        &mut self,
        units: &Units,
        unit: u32,
        inner: u32,
        entry: u32,
        end: u32,
    ) -> Result<(), NoMemory>
        requires rows { HasList (units_of units.now) (entry + 1) end }
        requires room { HasRoom self.old.starts (entries_in (units_of units.now)) }
        requires few { IsFew self.old entry }
        requires there { entry < entries_in (units_of units.now) }
        ensures { (children : Forest RawEntry) → IsList (units_of units.now) (entry + 1) end children
            → OnOk result (self.new ≡ with_top unit inner entry children self.old) }
    {
        let top = self.starts.top + self.tops.len() as u32 + 1;
        self.tops.push(TopEntry { entry, unit, inner })?;
        self.steps.push(Step {
            up: entry,
            index: 0,
            top,
        })?;
        put_below(units, entry + 1, end, entry, top, &mut self.steps)?;
        Ok(())
    }

    // Adds a space that has that number among the entries of the file, of which there are so many. The answer is one more than its
    // number among spaces.
    fn put_space(
        &mut self,
        units: &Units,
        up: u32,
        index: u32,
        outer: u32,
        entry: u32,
    ) -> Result<u32, NoMemory>
        requires room { HasRoom self.old.starts (entries_in (units_of units.now)) }
        requires few { IsFew self.old entry }
        requires there { entry < entries_in (units_of units.now) }
        ensures space { OnOk result (self.new ≡ with_space up index outer entry self.old) }
        ensures number { IfOk result (λ n. n ≡ space_behind self.old) }
    {
        let _units = units;
        let number = self.starts.space + self.spaces.len() as u32 + 1;
        self.spaces.push(SpaceEntry { entry, outer })?;
        self.steps.push(Step { up, index, top: 0 })?;
        Ok(number)
    }

    // Adds the entries of a list below the root of a compile unit, or below a space of it: tops, and spaces with what is in them.
    pub(crate) fn put_list(
        &mut self,
        units: &Units,
        unit: u32,
        inner: u32,
        up: u32,
        first: u32,
        end: u32,
    ) -> Result<(), NoMemory>
        requires rows { HasList (units_of units.now) first end }
        requires room { HasRoom self.old.starts (entries_in (units_of units.now)) }
        requires few { IsFew self.old first }
        ensures { (list : Forest RawEntry) → IsList (units_of units.now) first end list
            → OnOk result (self.new ≡ with_list unit inner up 0 first list self.old) }
    {
        let mut entry = first;
        let mut index = 0;
        while entry < end {
            let next = units.entry(entry).end;
            if is_space(units, entry) {
                let space = self.put_space(units, up, index, inner, entry)?;
                self.put_list(units, unit, space, entry, entry + 1, next)?;
            } else {
                self.put_top(units, unit, inner, entry, next)?;
            }
            entry = next;
            index += 1;
        }
        Ok(())
    }

    // Adds the entries of the unit with a number.
    fn put_unit(&mut self, units: &Units, number: u32, unit: &RawUnitOfCode) -> Result<(), NoMemory>
        requires shown { slice_get (shown_units (units_of units.now)) number ≡ Some unit.now }
        requires room { HasRoom self.old.starts (entries_in (units_of units.now)) }
        requires few { IsFew self.old unit.now.first }
        ensures { (u : RawUnit) → slice_get (units_of units.now) number ≡ Some u
            → OnOk result (self.new ≡ with_unit (self.old.starts.unit + number) unit.now.first u self.old) }
    {
        let root = unit.first;
        let end = units.entry(root).end;
        let counted = self.starts.unit + number;
        self.steps.push(Step {
            up: root,
            index: 0,
            top: 0,
        })?;
        if unit.kind != DW_UT_COMPILE {
            put_below(units, root + 1, end, root, 0, &mut self.steps)?;
            return Ok(());
        }
        self.put_list(units, counted, 0, root, root + 1, end)?;
        Ok(())
    }

    /// Adds the entries of all units.
    pub(crate) fn put_units(&mut self, units: &Units) -> Result<(), NoMemory>
        requires room { HasRoom self.old.starts (entries_in (units_of units.now)) }
        requires few { IsFew self.old 0 }
        ensures { OnOk result (self.new ≡ with_units self.old.starts.unit 0 (units_of units.now) self.old) }
    {
        for n in 0..units.len() {
            let unit = units.unit(n);
            self.put_unit(units, n, &unit)?;
        }
        Ok(())
    }
}
