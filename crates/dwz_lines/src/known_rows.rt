//! Rows that are known.
//!
//! Line tables may begin inside one another, so that many of them have the same rows. A row that is read by the same formats is read the
//! same whichever table it is in, so it is kept where each ends that was read, by the place where it begins. A table whose rows are known
//! isn't read again.
//!
//! From each place there are two steps, to the next row and over many rows, so that it takes few steps to go over all of them.

ghost use Rattle.std.specs.Prelude.{◌≡◌, ◌+◌, ◌-◌, ◌<◌, ◌≤◌, ℕ, List, Option, IfOk, IfSome};
ghost use Rattle.dwz_bytes.specs.Input.{Input};
ghost use Rattle.dwz_def_reading.specs.LineTables.{PathRow};
ghost use Rattle.dwz_lines.specs.Known.{Spans};
ghost use Rattle.dwz_lines.specs.KnownViews.{AreSteps, IsSound, IsStep};
ghost use Rattle.dwz_lines.specs.RowViews.{item_of};

use crate::marked_rows::RowReader;
use dwz_bytes::Cursor;
use dwz_model::NoMemory;
use std::alloc::Global;

/// So many rows behind a place, and how many bytes they have.
#[derive(Clone, Copy)]
pub(crate) struct Step {
    pub(crate) rows: u32,
    pub(crate) bytes: u32,
}

/// The steps from a place: to the next row, and over many.
#[derive(Clone, Copy)]
pub(crate) struct Steps {
    pub(crate) next: Step,
    pub(crate) jump: Step,
}

/// The rows of a section that a reader read: by each place the steps from there.
#[derive(Drop)]
pub(crate) struct KnownRows<'a> {
    pub(crate) line: &'a [u8],
    pub(crate) reader: RowReader<'a>,
    pub(crate) steps: Vec<Steps>,
}

/// How many bytes rows have, and how many rows are left behind them.
#[derive(Clone, Copy)]
pub(crate) struct Walked {
    pub(crate) bytes: usize,
    pub(crate) left: u64,
}

// A row that was read: its place, where it ends, and how many are left behind it.
#[derive(Clone, Copy)]
struct Learnt {
    place: u32,
    end: usize,
    left: u64,
}

// No row.
fn no_step() -> Step
    ensures { (item : Input → Option (PathRow × Input)) (line : List ℕ) (place : ℕ) → IsStep item line place result }
{
    Step { rows: 0, bytes: 0 }
}

// The same from a place.
fn no_steps() -> Steps
    ensures { (item : Input → Option (PathRow × Input)) (line : List ℕ) (place : ℕ) → AreSteps item line place result }
{
    Steps {
        next: no_step(),
        jump: no_step(),
    }
}

// The step that goes furthest, and no further than so many rows.
fn longest(steps: Steps, left: u64) -> Option<Step>
    ensures some { IfSome result (λ s. 0 < s.rows) }
    ensures within { IfSome result (λ s. s.rows ≤ left) }
    ensures step { (item : Input → Option (PathRow × Input)) (line : List ℕ) (place : ℕ) → AreSteps item line place steps
        → IfSome result (IsStep item line place) }
{
    if steps.jump.rows > 0 && steps.jump.rows as u64 <= left {
        return Some(steps.jump);
    }
    if steps.next.rows > 0 && steps.next.rows as u64 <= left {
        return Some(steps.next);
    }
    None
}

// One step, and another behind it.
fn both(one: Step, other: Step) -> Option<Step>
    ensures { (item : Input → Option (PathRow × Input)) (line : List ℕ) (place : ℕ) → IsStep item line place one
        → IsStep item line (place + one.bytes) other → IfSome result (IsStep item line place) }
{
    let rows = one.rows.checked_add(other.rows)?;
    let bytes = one.bytes.checked_add(other.bytes)?;
    Some(Step { rows, bytes })
}

// A number that isn't too long.
fn short(number: usize) -> Option<u32>
    ensures { IfSome result (λ n. n ≡ number) }
{
    if number > u32::MAX as usize {
        return None;
    }
    Some(number as u32)
}

impl<'a> KnownRows<'a> {
    // The steps from a place.
    fn steps_from(&self, place: usize) -> Steps
        requires sound { IsSound self.now }
        ensures { AreSteps (item_of self.now.reader) self.now.line.now place result }
    {
        match self.steps.get(place) {
            Some(steps) => *steps,
            None => no_steps(),
        }
    }

    // One step further, and no further than to the last of the rows that are left.
    fn once_more(&self, place: usize, walked: Walked) -> Option<Walked>
        requires sound { IsSound self.now }
        ensures less { IfSome result (λ w. w.left < walked.left) }
        ensures walked { (rows : ℕ) → walked.left ≤ rows
            → Spans (item_of self.now.reader) self.now.line.now place (rows - walked.left) walked.bytes
            → IfSome result (λ w. Spans (item_of self.now.reader) self.now.line.now place (rows - w.left) w.bytes) }
    {
        let here = place.checked_add(walked.bytes)?;
        let step = longest(self.steps_from(here), walked.left)?;
        let bytes = walked.bytes.checked_add(step.bytes as usize)?;
        let left = walked.left - step.rows as u64;
        Some(Walked { bytes, left })
    }

    /// How far so many rows from a place on are known.
    pub(crate) fn walk(&self, place: usize, rows: u64) -> Walked
        requires sound { IsSound self.now }
        ensures within { result.left ≤ rows }
        ensures walked { Spans (item_of self.now.reader) self.now.line.now place (rows - result.left) result.bytes }
    {
        let mut walked = Walked {
            bytes: 0,
            left: rows,
        };
        while walked.left > 0 {
            match self.once_more(place, walked) {
                Some(more) => walked = more,
                None => return walked,
            }
        }
        walked
    }

    // The row at a place.
    fn read_step(&self, place: usize) -> Option<Step>
        ensures { IfSome result (IsStep (item_of self.now.reader) self.now.line.now place) }
    {
        if place > self.line.len() {
            return None;
        }
        let mut cursor = Cursor::new(self.line, place);
        let _row = self.reader.next(&mut cursor)?;
        let bytes = short(cursor.at().checked_sub(place)?)?;
        Some(Step { rows: 1, bytes })
    }

    // Keeps the steps from a place.
    fn set(&mut self, place: usize, steps: Steps)
        requires sound { IsSound self.old }
        requires steps { AreSteps (item_of self.old.reader) self.old.line.now place steps }
        ensures sound { IsSound self.new }
        ensures line { self.new.line ≡ self.old.line }
        ensures reader { self.new.reader ≡ self.old.reader }
    {
        if place < self.steps.len() {
            self.steps[place] = steps;
        }
    }

    // Reads the first of so many rows from a place on that isn't known. None where all are, or where it isn't read.
    fn learn_row(&mut self, place: usize, rows: u64) -> Option<Learnt>
        requires sound { IsSound self.old }
        ensures sound { IsSound self.new }
        ensures line { self.new.line ≡ self.old.line }
        ensures reader { self.new.reader ≡ self.old.reader }
        ensures less { IfSome result (λ l. l.left < rows) }
    {
        let walked = self.walk(place, rows);
        if walked.left == 0 {
            return None;
        }
        let here = place.checked_add(walked.bytes)?;
        let step = self.read_step(here)?;
        let end = here.checked_add(step.bytes as usize)?;
        let place = short(here)?;
        let steps = Steps {
            next: step,
            jump: no_step(),
        };
        self.set(here, steps);
        Some(Learnt {
            place,
            end,
            left: walked.left - 1,
        })
    }

    // The step behind which two steps over as many rows follow, with these.
    fn longer(&self, place: usize, next: Step) -> Option<Step>
        requires sound { IsSound self.now }
        requires next { IsStep (item_of self.now.reader) self.now.line.now place next }
        ensures { IfSome result (IsStep (item_of self.now.reader) self.now.line.now place) }
    {
        let over = place.checked_add(next.bytes as usize)?;
        let first = self.steps_from(over).jump;
        let behind = over.checked_add(first.bytes as usize)?;
        let second = self.steps_from(behind).jump;
        if first.rows == 0 || first.rows != second.rows {
            return None;
        }
        let more = both(first, second)?;
        both(next, more)
    }

    // Keeps a step over many rows from a place, where those behind it have theirs.
    fn link(&mut self, place: usize)
        requires sound { IsSound self.old }
        ensures sound { IsSound self.new }
        ensures line { self.new.line ≡ self.old.line }
        ensures reader { self.new.reader ≡ self.old.reader }
    {
        let next = self.steps_from(place).next;
        let jump = match self.longer(place, next) {
            Some(jump) => jump,
            None => next,
        };
        self.set(place, Steps { next, jump });
    }

    // Links places from the last on.
    fn link_all(&mut self, places: &[u32])
        requires sound { IsSound self.old }
        ensures sound { IsSound self.new }
        ensures line { self.new.line ≡ self.old.line }
        ensures reader { self.new.reader ≡ self.old.reader }
    {
        let mut number = places.len();
        while number > 0 {
            number -= 1;
            self.link(places[number] as usize);
        }
    }

    /// Reads rows from a place on, until so many are known, or one isn't read.
    pub(crate) fn learn(&mut self, alloc: Global, place: usize, rows: u64) -> Result<(), NoMemory>
        requires sound { IsSound self.old }
        ensures sound { IsSound self.new }
        ensures line { self.new.line ≡ self.old.line }
        ensures reader { self.new.reader ≡ self.old.reader }
    {
        let mut places = Vec::new(alloc);
        let mut place = place;
        let mut left = rows;
        while left > 0 {
            match self.learn_row(place, left) {
                Some(row) => {
                    places.push(row.place)?;
                    place = row.end;
                    left = row.left;
                }
                None => left = 0,
            }
        }
        self.link_all(&places);
        Ok(())
    }

    /// No row is known yet.
    pub(crate) fn new(
        alloc: Global,
        line: &'a [u8],
        reader: RowReader<'a>,
    ) -> Result<KnownRows<'a>, NoMemory>
        ensures sound { IfOk result IsSound }
        ensures line { IfOk result (λ k. k.line ≡ line.entry) }
        ensures reader { IfOk result (λ k. k.reader ≡ reader.entry) }
    {
        let steps = vec![in alloc; no_steps(); line.len()]?;
        Ok(KnownRows {
            line,
            reader,
            steps,
        })
    }
}
