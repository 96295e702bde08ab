//! Where all units and entries stand.

ghost use Rattle.std.specs.Prelude.{◌≡◌, ◌==◌, ◌+◌, ◌<◌, IfOk, OnOk, Some, length, slice_get};
ghost use Rattle.dwz_layout.specs.Laid.{file_view, made, made_from, made_of, no_file, no_unit, over_of, standing_view, with_unit, with_units};

use crate::Tables;
use crate::known::EntryTable;
use crate::laying::{Laying, header_size, lay};
use crate::order::{FileItems, UnitItems};
use crate::shapes::Shapes;
use crate::sizes::{Scratch, more};
use crate::standing::{standing_places, standing_roots};
use dwz_model::{DwzList, NoMemory};
use dwz_unit::Units;
use std::alloc::{AllocError, Global};
use std::marker::Model;

/// A unit that is written: where it begins and ends, the offset of its abbreviation table, and the codes of its entries.
#[derive(Drop)]
pub struct OutUnit {
    pub at: u64,
    pub end: u64,
    pub abbrev: u64,
    pub codes: DwzList<u32>,
}

/// The units of a file: where they stand, their tables, and how many bytes they have.
#[derive(Drop)]
pub struct FileLayout {
    pub units: Vec<OutUnit>,
    pub tables: Tables,
    pub end: u64,
}

/// Where entries stand, by their numbers among all files, and the roots of units, each in its own file.
#[derive(Drop)]
pub struct Spots {
    pub places: Vec<u64>,
    pub roots: Vec<u64>,
}

/// Where all units and entries stand.
#[derive(Drop)]
pub struct Layout {
    files: Vec<FileLayout>,
    spots: Spots,
}

impl Model for Layout {
    ghost use Rattle.std.specs.Prelude.{map};
    ghost use Rattle.dwz_layout.specs.Laid.{AllMade, file_view};

    ghost Value = { AllMade };

    ghost view = { λ l. record { files = map file_view l.files.items; places = l.spots.places.items; roots = l.spots.roots.items } };
}

/// The number behind so many units. Numbers that have no 32 bits count as memory that there is not.
#[inline(always)]
pub fn behind(here: u32, count: usize) -> Result<u32, NoMemory>
    ensures { IfOk result (λ next. next ≡ here + count) }
{
    let next = here as u64 + count.min(u32::MAX as usize + 1) as u64;
    if next > u32::MAX as u64 {
        return Err(AllocError);
    }
    Ok(next as u32)
}

impl FileLayout {
    // No units.
    fn new(alloc: Global) -> FileLayout
        ensures { (s : Spots) → made result s ≡ no_unit s.places.items s.roots.items }
    {
        FileLayout {
            units: Vec::new(alloc),
            tables: Tables::new(alloc),
            end: 0,
        }
    }

    // Lays the unit with that number.
    fn unit(
        &mut self,
        alloc: Global,
        room: &mut Scratch,
        known: &EntryTable,
        here: u32,
        unit: &UnitItems,
        spots: &mut Spots,
    ) -> Result<(), NoMemory>
        ensures { OnOk result (made self.new spots.new ≡ with_unit known.now here unit.now (made self.old spots.old)) }
    {
        let at = self.end;
        let Laying {
            shapes,
            at: end,
            codes,
        } = lay(
            alloc,
            room,
            known,
            here,
            unit,
            at,
            spots.places.as_mut_slice(),
        )?;
        let table = shapes.table(alloc)?;
        let abbrev = self.tables.keep(table)?;
        self.units.push(OutUnit {
            at,
            end,
            abbrev,
            codes: DwzList::new(Vec::from_slice(alloc, codes.as_slice())?),
        })?;
        room.codes = codes;
        room.shapes = shapes;
        spots.roots.push(more(at, header_size(unit.sort))?)?;
        self.end = end;
        Ok(())
    }
}

// Lays the units of a file, the first of which has that number.
fn lay_file(
    alloc: Global,
    room: &mut Scratch,
    known: &EntryTable,
    first: u32,
    units: &[UnitItems],
    spots: &mut Spots,
) -> Result<FileLayout, NoMemory>
    ensures { IfOk result (λ file. made file spots.new ≡ with_units known.now first units.now
        (no_unit spots.old.places.items spots.old.roots.items)) }
{
    let mut file = FileLayout::new(alloc);
    let mut here = first;
    for unit in units {
        file.unit(alloc, room, known, here, unit, spots)?;
        here = behind(here, 1)?;
    }
    Ok(file)
}

// Lays the units of files one behind the other, in each file from 0, where entries and roots that stand already have places.
fn lay_files(
    alloc: Global,
    known: &EntryTable,
    files: &[FileItems],
    start: Spots,
) -> Result<Layout, NoMemory>
    ensures { IfOk result (λ layout. layout ≡ made_from known.now files.now (no_file start.places.items start.roots.items)) }
{
    let mut spots = start;
    let mut room = Scratch {
        pairs: Vec::new(alloc),
        operands: Vec::new(alloc),
        codes: Vec::new(alloc),
        shapes: Shapes::with_slots(alloc)?,
    };
    let mut laid = Vec::new(alloc);
    let mut first = behind(0, spots.roots.len())?;
    for units in files {
        laid.push(lay_file(alloc, &mut room, known, first, units.as_slice(), &mut spots)?)?;
        first = behind(first, units.len())?;
    }
    Ok(Layout { files: laid, spots })
}

impl Layout {
    /// Lays the units of files one behind the other, in each file from 0. A file's units come in order, and files are counted with the
    /// common one first. It fails only for want of memory; more bytes or units than 64 or 32 bits can count are such a want.
    pub fn make(alloc: Global, known: &EntryTable, files: &[FileItems]) -> Result<Layout, NoMemory>
        ensures { IfOk result (λ layout. layout ≡ made_of known.now files.now) }
    {
        let mut places = Vec::new(alloc);
        places.resize(known.owners.len(), 0)?;
        let roots = Vec::new(alloc);
        lay_files(alloc, known, files, Spots { places, roots })
    }

    /// As `make`, but over a common file with these units that stands already and isn't among the files: its entries, which are the last of
    /// all by number, and the roots of its units, which are the first, keep their places.
    pub fn over(
        alloc: Global,
        known: &EntryTable,
        common: &Units,
        files: &[FileItems],
    ) -> Result<Layout, NoMemory>
        ensures { IfOk result (λ layout. layout ≡ over_of known.now (standing_view common.now) files.now) }
    {
        let places = standing_places(alloc, known.owners.len(), common)?;
        let roots = standing_roots(alloc, common)?;
        lay_files(alloc, known, files, Spots { places, roots })
    }

    /// How many files there are.
    pub fn len(&self) -> usize
        ensures { result ≡ length self.now.files }
    {
        self.files.len()
    }

    /// Whether there is no file.
    pub fn is_empty(&self) -> bool
        ensures { result ≡ (length self.now.files == 0) }
    {
        self.files.is_empty()
    }

    /// The units of a file.
    pub fn file(&self, file: usize) -> &FileLayout
        requires { file < length self.now.files }
        ensures { slice_get self.now.files file ≡ Some (file_view result.now) }
    {
        &self.files[file]
    }

    /// Where entries and the roots of units stand.
    pub fn spots(&self) -> &Spots
        ensures places { result.now.places.items ≡ self.now.places }
        ensures roots { result.now.roots.items ≡ self.now.roots }
    {
        &self.spots
    }
}
