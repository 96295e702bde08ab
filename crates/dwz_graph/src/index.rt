//! What is kept of the entries of a file.

ghost use Rattle.std.specs.Prelude.{◌≡◌, ℕ, ◌<◌, ◌^◌, ◌++◌, ◌↔◌, List, [], Some, Ok, length, slice_get, IfOk, IsTrue, OnOk};
ghost use Rattle.dwz_def_reading.specs.Units.{entries_in};
ghost use Rattle.dwz_def_reading.specs.Documents.{DwUnit};
ghost use Rattle.dwz_def_reading.specs.Meanings.{Around};
ghost use Rattle.dwz_def_reading.specs.Meant.{units_meaning};
ghost use Rattle.dwz_def_tops.specs.Spots.{EntryName};
ghost use Rattle.dwz_graph.specs.Building.{HasRoom, IsFew};
ghost use Rattle.dwz_graph_resolve.specs.Given.{AreGiven};
ghost use Rattle.dwz_graph.specs.Index.{HasTops, IsIndex, next_starts};
ghost use Rattle.dwz_graph.specs.Names.{names_from, path_in, top_in};
ghost use Rattle.dwz_unit.specs.Rows.{units_of};

use dwz_model::NoMemory;
use dwz_unit::Units;
use std::alloc::Global;
use std::marker::Model;

/// The numbers that the first unit, the first top and the first space of a file have, where those of all files are counted.
#[derive(Clone, Copy, Debug, PartialEq, Eq)]
pub struct Starts {
    pub unit: u32,
    pub top: u32,
    pub space: u32,
}

/// The way up from an entry.
#[derive(Clone, Copy)]
pub(crate) struct Step {
    /// The number of its parent; its own, where it is a top or a root.
    pub up: u32,
    /// Its index among the parent's children; 0, where it is a top or a root.
    pub index: u32,
    /// One more than the number of the top that it is in, or 0 where it is in none.
    pub top: u32,
}

/// A top: a child of the root of a compile unit, or of a space of it, that is no space (DWARF 5, 3.2.2).
#[derive(Clone, Copy, Debug, PartialEq, Eq)]
pub struct TopEntry {
    /// The number of its entry in the file.
    pub entry: u32,
    /// The number of its unit, counted over all files.
    pub unit: u32,
    /// One more than the number of the innermost space that it stands in, or 0 where it stands in a root.
    pub inner: u32,
}

/// A space: a named namespace in the root of a compile unit, or in another space of it.
#[derive(Clone, Copy, Debug, PartialEq, Eq)]
pub struct SpaceEntry {
    /// The number of its entry in the file.
    pub entry: u32,
    /// One more than the number of the space that it stands in, or 0 where it stands in a root.
    pub outer: u32,
}

/// What the entries of a file are: for each by its number the way up to its top or to the root of its unit, and the tops and spaces
/// in order. Clauses see these lists; `IsIndex` says which names they show.
#[derive(Drop)]
pub struct Index {
    pub(crate) steps: Vec<Step>,
    pub(crate) tops: Vec<TopEntry>,
    pub(crate) spaces: Vec<SpaceEntry>,
    pub(crate) starts: Starts,
}

impl Model for Index {
    ghost use Rattle.dwz_graph.specs.Index.{Index};

    ghost Value = { Index };

    ghost view = { λ x. record { steps = x.steps.items; tops = x.tops.items; spaces = x.spaces.items; starts = x.starts } };
}

impl Index {
    /// What the entries of a file are, in one pass over them. `starts` has the numbers of its first unit, top and space.
    pub fn read(alloc: Global, units: &Units, starts: &Starts) -> Result<Index, NoMemory>
        requires room { HasRoom starts.now (entries_in (units_of units.now)) }
        ensures len { IfOk result (λ x. length x.steps ≡ entries_in (units_of units.now)) }
        ensures few { IfOk result (λ x. IsFew x (entries_in (units_of units.now))) }
        ensures names { AreGiven units.now → (around : Around ℕ) (said : List (DwUnit ℕ))
            → units_meaning around (units_of units.now) ≡ Ok said → IfOk result (λ x. IsIndex (names_from starts.now.unit starts.now.top said) x) }
        ensures tops { (around : Around ℕ) (said : List (DwUnit ℕ)) → units_meaning around (units_of units.now) ≡ Ok said
            → IfOk result (λ x. HasTops starts.now said x) }
    {
        let steps = Vec::with_capacity(alloc, units.entries() as usize)?;
        let mut index = Index {
            steps,
            tops: Vec::new(alloc),
            spaces: Vec::new(alloc),
            starts: *starts,
        };
        index.put_units(units)?;
        Ok(index)
    }

    /// How many entries the file has.
    pub fn len(&self) -> u32
        requires { length self.now.steps < 2 ^ 32 }
        ensures { result ≡ length self.now.steps }
    {
        self.steps.len() as u32
    }

    /// The number of the top that an entry is in, counted over all files; None where it is in none.
    #[inline(always)]
    pub fn top_of(&self, entry: u32) -> Option<u32>
        requires { entry < length self.now.steps }
        ensures { (names : List EntryName) (s : EntryName) → IsIndex names self.now → slice_get names entry ≡ Some s → result ≡ top_in s }
    {
        let step = self.steps[entry as usize];
        if step.top == 0 {
            None
        } else {
            Some(step.top - 1)
        }
    }

    /// Whether an entry has no child indexes up to its top, or to the root of its unit: it is a top or a root.
    #[inline(always)]
    pub fn is_outermost(&self, entry: u32) -> bool
        requires { entry < length self.now.steps }
        ensures { (names : List EntryName) (s : EntryName) → IsIndex names self.now → slice_get names entry ≡ Some s
            → IsTrue result ↔ (path_in s ≡ []) }
    {
        let step = self.steps[entry as usize];
        step.up >= entry
    }

    /// Appends the child indexes from an entry up to its top, or to the root of its unit: first its own among its siblings. A top
    /// and a root have none.
    pub fn put_path(&self, entry: u32, path: &mut Vec<u32>) -> Result<(), NoMemory>
        requires { entry < length self.now.steps }
        ensures { (names : List EntryName) (s : EntryName) → IsIndex names self.now → slice_get names entry ≡ Some s
            → OnOk result (path.new.items ≡ path.old.items ++ path_in s) }
    {
        let mut at = entry;
        loop {
            let step = self.steps[at as usize];
            if step.up >= at {
                return Ok(());
            }
            path.push(step.index)?;
            at = step.up;
        }
    }

    /// The tops of the file in order: the first has the number that the file's tops begin with.
    pub fn tops(&self) -> &[TopEntry]
        ensures { result.now ≡ self.now.tops }
    {
        self.tops.as_slice()
    }

    /// The spaces of the file in order: the first has the number that the file's spaces begin with.
    pub fn spaces(&self) -> &[SpaceEntry]
        ensures { result.now ≡ self.now.spaces }
    {
        self.spaces.as_slice()
    }

    /// The numbers that the next file begins with, behind this one, which has these units.
    pub fn behind(&self, units: &Units) -> Starts
        requires room { HasRoom self.now.starts (entries_in (units_of units.now)) }
        requires few { IsFew self.now (entries_in (units_of units.now)) }
        ensures { result ≡ next_starts self.now (length (units_of units.now)) }
    {
        Starts {
            unit: self.starts.unit + units.len(),
            top: self.starts.top + self.tops.len() as u32,
            space: self.starts.space + self.spaces.len() as u32,
        }
    }

    /// The numbers that the file begins with.
    pub fn starts(&self) -> Starts
        ensures { result ≡ self.now.starts }
    {
        self.starts
    }
}
