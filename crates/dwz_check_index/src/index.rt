//! What is kept of the entries of a file.

ghost use Rattle.std.specs.Prelude.{◌≡◌, ℕ, ◌<◌, ◌^◌, ◌++◌, List, Some, Ok, length, slice_get, IfOk, OnOk};
ghost use Rattle.dwz_def_reading.specs.Documents.{DwUnit};
ghost use Rattle.dwz_def_reading.specs.Meanings.{Around};
ghost use Rattle.dwz_def_reading.specs.Meant.{units_meaning};
ghost use Rattle.dwz_def_reading.specs.Units.{entries_in};
ghost use Rattle.dwz_check_index.specs.Building.{HasRoom, IsFew};
ghost use Rattle.dwz_check_index.specs.Index.{AddsSpaces, Called, IsCrossIndex, ListedEntry, ShowNames, is_below_top, is_in_space, names_in};
ghost use Rattle.dwz_check_index.specs.Index.{path_in, stands_of};
ghost use Rattle.dwz_unit.specs.Rows.{units_of};

use dwz_model::NoMemory;
use dwz_unit::Units;
use std::alloc::Global;
use std::marker::Model;

/// The numbers that the first top has, and the first root of a compile unit.
#[derive(Clone, Copy, Debug, PartialEq, Eq)]
pub struct CrossStarts {
    pub top: u32,
    pub lone: u32,
}

/// What an entry stands in, or what it is.
#[derive(Clone, Copy, Debug, PartialEq, Eq)]
pub enum Stands {
    /// In the top with that number.
    InTop(u32),
    /// It is the root of a compile unit, which is the n-th unit of its file that isn't partial.
    UnitRoot(u32),
    /// It is a space of that unit.
    UnitSpace(u32),
    /// It is the root of a partial unit.
    PartialRoot,
    /// It is a space of a partial unit.
    PartialSpace,
}

/// The way up from an entry.
#[derive(Clone, Copy, Debug, PartialEq, Eq)]
pub struct Step {
    /// The number of its parent; its own, where it is a top or a root.
    pub up: u32,
    /// Its index among the parent's children; 0, where it is a top or a root.
    pub index: u32,
    pub stands: Stands,
}

impl Step {
    // Whether the way from the entry with that number goes on below a top.
    fn is_below_top(&self, at: u32) -> bool
        ensures { result ≡ is_below_top self.now at }
    {
        match self.stands {
            Stands::InTop(_) => self.up < at,
            _ => false,
        }
    }

    // Whether it goes on from a space.
    fn is_space(&self, at: u32) -> bool
        ensures { result ≡ is_in_space self.now at }
    {
        match self.stands {
            Stands::UnitSpace(_) => self.up < at,
            Stands::PartialSpace => self.up < at,
            _ => false,
        }
    }
}

/// A top: a child of the root of a compile or partial unit, or of a space of one, that is no space; or the root of a type unit.
#[derive(Clone, Copy, Debug, PartialEq, Eq)]
pub struct TopEntry {
    /// The number of its entry in the file.
    pub entry: u32,
    /// The number of its unit in the file.
    pub unit: u32,
    /// The number of the root or the space that it stands in; its own, where it is a root.
    pub outer: u32,
}

/// Where the tops of a unit begin, and its root and spaces, if it is a compile unit.
#[derive(Clone, Copy, Debug, PartialEq, Eq)]
pub struct UnitStart {
    pub top: u32,
    pub lone: u32,
}

/// What the entries of a file are called: for each by its number the way up and what it stands in; the tops in order; the roots of compile
/// units and their spaces in order; and where those of each unit begin. Clauses see these lists; `IsCrossIndex` says which names they show.
#[derive(Drop)]
pub struct CrossIndex {
    pub steps: Vec<Step>,
    pub(crate) tops: Vec<TopEntry>,
    pub(crate) lone: Vec<u32>,
    pub(crate) units: Vec<UnitStart>,
    pub(crate) starts: CrossStarts,
}

impl Model for CrossIndex {
    ghost use Rattle.dwz_check_index.specs.Index.{CrossIndex};

    ghost Value = { CrossIndex };

    ghost view = { λ x. record { steps = x.steps.items; tops = x.tops.items; lone = x.lone.items; units = x.units.items; starts = x.starts } };
}

impl CrossIndex {
    /// What the entries of a file are called, in one pass over them. `starts` has the numbers that its first top and its first root have.
    pub fn read(alloc: Global, units: &Units, starts: &CrossStarts) -> Result<CrossIndex, NoMemory>
        requires room { HasRoom starts.now (entries_in (units_of units.now)) }
        ensures len { IfOk result (λ x. length x.steps ≡ entries_in (units_of units.now)) }
        ensures few { IfOk result (λ x. IsFew x (entries_in (units_of units.now))) }
        ensures names { (around : Around ℕ) (said : List (DwUnit ℕ)) → units_meaning around (units_of units.now) ≡ Ok said
            → IfOk result (λ x. IsCrossIndex starts.now said x) }
    {
        let steps = Vec::with_capacity(alloc, units.entries() as usize)?;
        let mut index = CrossIndex {
            steps,
            tops: Vec::new(alloc),
            lone: Vec::new(alloc),
            units: Vec::new(alloc),
            starts: *starts,
        };
        index.put_units(units)?;
        Ok(index)
    }

    /// How many entries the file has.
    pub fn len(&self) -> u32
        requires { length self.now.steps < 2 ^ 32 }
        ensures { result ≡ length self.now.steps }
    {
        self.steps.len() as u32
    }

    /// What an entry stands in, or what it is.
    #[inline(always)]
    pub fn stands(&self, entry: u32) -> Stands
        requires { entry < length self.now.steps }
        ensures { (names : List Called) (entries : List (ListedEntry ℕ)) (name : Called) → ShowNames names entries self.now.steps
            → slice_get names entry ≡ Some name → result ≡ stands_of name.1 }
    {
        self.steps[entry as usize].stands
    }

    /// Appends the child indexes from an entry up to its top: first its own among its siblings. A top has none, nor has an entry in none.
    pub fn put_path(&self, entry: u32, path: &mut Vec<u32>) -> Result<(), NoMemory>
        requires { entry < length self.now.steps }
        ensures { (names : List Called) (entries : List (ListedEntry ℕ)) (name : Called) → ShowNames names entries self.now.steps
            → slice_get names entry ≡ Some name → OnOk result (path.new.items ≡ path.old.items ++ path_in name.1) }
    {
        let mut at = entry;
        loop {
            let step = self.steps[at as usize];
            if !step.is_below_top(at) {
                return Ok(());
            }
            path.push(step.index)?;
            at = step.up;
        }
    }

    /// Appends the numbers of the spaces from a space outward: first its own. Other entries have none.
    pub fn put_spaces(&self, entry: u32, spaces: &mut Vec<u32>) -> Result<(), NoMemory>
        requires { entry < length self.now.steps }
        ensures { (names : List Called) (entries : List (ListedEntry ℕ)) (name : Called) → ShowNames names entries self.now.steps
            → slice_get names entry ≡ Some name → OnOk result (AddsSpaces entries spaces.old.items spaces.new.items (names_in name.1)) }
    {
        let mut at = entry;
        loop {
            let step = self.steps[at as usize];
            if !step.is_space(at) {
                return Ok(());
            }
            spaces.push(at)?;
            at = step.up;
        }
    }

    /// How many tops it has.
    pub fn top_count(&self) -> u32
        requires { length self.now.tops < 2 ^ 32 }
        ensures { result ≡ length self.now.tops }
    {
        self.tops.len() as u32
    }

    /// How many roots of compile units and spaces of these it has.
    pub fn lone_count(&self) -> u32
        requires { length self.now.lone < 2 ^ 32 }
        ensures { result ≡ length self.now.lone }
    {
        self.lone.len() as u32
    }

    /// The tops of the file in order: the first has the number that the file's tops begin with.
    pub fn tops(&self) -> &[TopEntry]
        ensures { result.now ≡ self.now.tops }
    {
        self.tops.as_slice()
    }

    /// The roots of compile units and their spaces, by the numbers of their entries, in order.
    pub fn lone(&self) -> &[u32]
        ensures { result.now ≡ self.now.lone }
    {
        self.lone.as_slice()
    }

    /// Where the tops of each unit begin, and its root and spaces.
    pub fn units(&self) -> &[UnitStart]
        ensures { result.now ≡ self.now.units }
    {
        self.units.as_slice()
    }

    /// The numbers that the file begins with.
    pub fn starts(&self) -> CrossStarts
        ensures { result ≡ self.now.starts }
    {
        self.starts
    }
}
