//! Names and forms of the declarations of a section, in one row.
//!
//! A declaration may begin inside the names and forms of another. Where its own begin at the place of one of the other's, they are the end of
//! those, and it has that part of the row: they are read once.

ghost use Rattle.std.specs.Prelude.{◌≡◌, ◌≤◌, List, [], ℕ, IfOk, IfSome, drop, length, slice_range, take};
ghost use Rattle.dwz_def_reading.specs.Abbrevs.{pairs_at};
ghost use Rattle.dwz_def_reading.specs.Faults.{AnswersAt};
ghost use Rattle.dwz_abbrev.specs.ReadParts.{ArePlaced, IsIn, IsPartAt};
ghost use Rattle.dwz_abbrev.specs.Written.{Begins};

use crate::read_pair::read_pair;
use dwz_bytes::Cursor;
use dwz_model::{NoMemory, Pair, ReadErr};
use std::alloc::Global;
use std::marker::Model;

/// A part of a row of names and forms, up to the end of them.
#[derive(Clone, Copy)]
pub(crate) struct PairPart {
    /// How many stand before it in the row.
    pub first: usize,
    /// How many stand before what is behind it.
    pub end: usize,
    /// The place in the section behind the end of these names and forms.
    pub behind: usize,
}

/// Names and forms of declarations of a section, in one row. Clauses see the section and the row.
#[derive(Drop)]
pub struct PairRow<'a> {
    section: &'a [u8],
    row: Vec<Pair>,
    // Where in the section each of them begins.
    places: Vec<usize>,
    // The parts that were read.
    parts: Vec<PairPart>,
    // No part ends behind that place.
    furthest: usize,
    // For each place of the section the number of a part that has a pair which begins there, or one that is too great. Made where pairs
    // first begin before the furthest place, and empty till then. No clause rests on it.
    hints: Vec<u32>,
}

impl<'a> Model for PairRow<'a> {
    ghost use Rattle.dwz_abbrev.specs.ReadParts.{SectionRow};

    ghost Value = { SectionRow };

    ghost use Rattle.dwz_abbrev.specs.ReadParts.{AreParts};

    ghost view = { λ p. record { section = p.section.now; row = p.row.items } };

    ghost invariant = { λ p. AreParts p.section.now p.row.items p.places.items p.parts.items };
}

// Appends the pairs up to their end, of the declaration at `start`, to a row, and where each begins to another.
fn read_pairs(
    start: usize,
    cursor: &mut Cursor,
    row: &mut Vec<Pair>,
    places: &mut Vec<usize>,
) -> Result<(), ReadErr>
    requires { length places.old.items ≡ length row.old.items }
    ensures pairs { AnswersAt (λ _. drop (length row.old.items) row.new.items) cursor.new result (pairs_at start [] cursor.old) }
    ensures begins { Begins row.old.items row.new.items }
    ensures before { Begins places.old.items places.new.items }
    ensures placed { (section : List ℕ) → IsIn section cursor.old
        → IfOk result (λ _. ArePlaced section (drop (length row.old.items) row.new.items) (drop (length row.old.items) places.new.items) cursor.new.at) }
{
    let mut at = cursor.at();
    while let Some(pair) = read_pair(start, cursor)? {
        places.push(at)?;
        row.push(pair)?;
        at = cursor.at();
    }
    Ok(())
}

// Notes that pairs of the part with a number begin at these places, if hints are made.
fn put_hints(places: &[usize], number: usize, hints: &mut Vec<u32>) {
    if hints.is_empty() || number >= u32::MAX as usize {
        return;
    }
    for place in places {
        if let Some(hint) = hints.get_mut(*place) {
            *hint = number as u32;
        }
    }
}

impl<'a> PairRow<'a> {
    /// No names and forms yet, of a section.
    pub fn new(alloc: Global, section: &'a [u8]) -> PairRow<'a>
        ensures { result ≡ record { section = section.now; row = [] } }
    {
        PairRow {
            section,
            row: Vec::new(alloc),
            places: Vec::new(alloc),
            parts: Vec::new(alloc),
            furthest: 0,
            hints: Vec::new(alloc),
        }
    }

    // The section.
    pub(crate) fn section(&self) -> &'a [u8]
        ensures { result.now ≡ self.now.section }
    {
        self.section
    }

    /// The names and forms.
    #[inline(always)]
    pub fn as_slice(&self) -> &[Pair]
        ensures { result.now ≡ self.now.row }
    {
        self.row.as_slice()
    }

    /// The names and forms alone.
    pub fn into_row(self) -> Vec<Pair>
        ensures { result.items ≡ self.entry.row }
    {
        let PairRow { row, .. } = self;
        row
    }

    // Makes hints of the parts, if there are none yet.
    fn put_all_hints(&mut self, alloc: Global) -> Result<(), NoMemory>
        ensures { self.new ≡ self.old }
    {
        if !self.hints.is_empty() {
            return Ok(());
        }
        let mut hints = vec![in alloc; u32::MAX; self.section.len()]?;
        for number in 0..self.parts.len() {
            let part = self.parts[number];
            put_hints(&self.places[part.first..part.end], number, &mut hints);
        }
        self.hints = hints;
        Ok(())
    }

    // The part of the row that begins with a pair at a place of the section, if hints tell.
    fn noted(&self, place: usize) -> Option<PairPart>
        ensures { IfSome result (IsPartAt self.now.section self.now.row place) }
    {
        let number = *self.hints.get(place)? as usize;
        let part = *self.parts.get(number)?;
        let places = &self.places[part.first..part.end];
        match places.binary_search(&place) {
            Ok(skip) => Some(PairPart {
                first: part.first + skip,
                end: part.end,
                behind: part.behind,
            }),
            Err(_) => None,
        }
    }

    // The same, if it was read.
    #[inline(always)]
    fn known(&mut self, alloc: Global, place: usize) -> Result<Option<PairPart>, NoMemory>
        ensures part { IfOk result (λ o. IfSome o (IsPartAt self.new.section self.new.row place)) }
        ensures same { self.new ≡ self.old }
    {
        if place >= self.furthest {
            return Ok(None);
        }
        self.put_all_hints(alloc)?;
        Ok(self.noted(place))
    }

    // Reads the pairs up to their end, of the declaration at `start`, and appends them.
    fn append(&mut self, start: usize, cursor: &mut Cursor) -> Result<PairPart, ReadErr>
        requires { IsIn self.old.section cursor.old }
        ensures pairs { AnswersAt (λ p. slice_range self.new.row p.first p.end) cursor.new result (pairs_at start [] cursor.old) }
        ensures within { IfOk result (λ p. (p.first ≤ p.end) × (p.end ≤ length self.new.row)) }
        ensures begins { Begins self.old.row self.new.row }
        ensures section { self.new.section ≡ self.old.section }
    {
        let first = self.row.len();
        if let Err(error) = read_pairs(start, cursor, &mut self.row, &mut self.places) {
            self.row.truncate(first);
            self.places.truncate(first);
            return Err(error);
        }
        let part = PairPart {
            first,
            end: self.row.len(),
            behind: cursor.at(),
        };
        self.furthest = self.furthest.max(part.behind);
        put_hints(&self.places[first..], self.parts.len(), &mut self.hints);
        self.parts.push(part)?;
        Ok(part)
    }

    // The pairs up to their end, of the declaration at `start`. They are read if they aren't known.
    pub(crate) fn part_at(
        &mut self,
        alloc: Global,
        start: usize,
        cursor: &mut Cursor<'a>,
    ) -> Result<PairPart, ReadErr>
        requires { IsIn self.old.section cursor.old }
        ensures pairs { AnswersAt (λ p. slice_range self.new.row p.first p.end) cursor.new result (pairs_at start [] cursor.old) }
        ensures within { IfOk result (λ p. (p.first ≤ p.end) × (p.end ≤ length self.new.row)) }
        ensures begins { Begins self.old.row self.new.row }
        ensures section { self.new.section ≡ self.old.section }
    {
        if let Some(part) = self.known(alloc, cursor.at())? {
            *cursor = Cursor::new(self.section, part.behind);
            return Ok(part);
        }
        self.append(start, cursor)
    }

    // The first so many of them. Where the others begin is forgotten.
    pub(crate) fn truncate(&mut self, len: usize)
        ensures row { self.new.row ≡ take len self.old.row }
        ensures section { self.new.section ≡ self.old.section }
    {
        self.row.truncate(len);
        self.places.truncate(len);
        self.parts.clear();
    }
}
