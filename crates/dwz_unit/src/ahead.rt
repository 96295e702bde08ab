//! The tables that units further on name.
//!
//! They are read in ascending order of offset, so that the ends of one table are all found in it. Which tables units name is taken from
//! their headers before any unit is read, as a hint: no clause rests on it, and a fault is told where its unit is read.

ghost use Rattle.std.specs.Prelude.{◌≤◌, ◌+◌, IfOk, length};
ghost use Rattle.dwz_unit.specs.Tables.{Grows};
ghost use Rattle.dwz_unit.specs.Tails.{FindsTail};

use crate::header::u32_at;
use crate::joined_tables::JoinedTables;
use crate::tail::Tail;
use dwz_model::{NoMemory, ReadErr};
use std::alloc::{AllocError, Global};

// The header of a compile unit has so many bytes (DWARF 5, 7.5.1.1), and no other has fewer.
const HEADER: usize = 12;

/// The offsets of the tables that units name, in the order of the units. From the first whose table isn't known a stretch of them
/// is read in ascending order. Where one of these isn't a table, stretches are half as long from then on, since its fault is told
/// only where its unit is read. The file ends with that unit at the latest, so at most three stretches of each length are read.
#[derive(Drop)]
pub(crate) struct Ahead {
    offsets: Vec<u32>,
    // How many of them are done with.
    done: usize,
    // How many are read at once, at most.
    most: usize,
    ghost within: { done ≤ length offsets.items },
}

/// The offsets that the headers of units name, up to the first that isn't whole. They tell only what is read early.
pub(crate) fn offsets_in(alloc: Global, info: &[u8]) -> Result<Vec<u32>, NoMemory> {
    let mut offsets = Vec::new(alloc);
    let mut rest = info;
    while rest.len() >= HEADER {
        let size = u32_at(rest, 0) as usize + 4;
        if size < HEADER || size > rest.len() {
            break;
        }
        offsets.push(u32_at(rest, 8))?;
        rest = &rest[size..];
    }
    Ok(offsets)
}

// Reads the tables at these offsets, up to the first that isn't one, and tells whether all are tables.
#[tactic(auto, using(crate::proofs::TailLemmas::grows_none))]
fn read_all(alloc: Global, offsets: &[u32], joined: &mut JoinedTables) -> Result<bool, NoMemory>
    ensures { Grows joined.old joined.new }
{
    for offset in offsets {
        match joined.tail_at(alloc, *offset) {
            Ok(_) => {}
            Err(ReadErr::NoMemory) => return Err(AllocError),
            Err(ReadErr::Refused(_)) => return Ok(false),
        }
    }
    Ok(true)
}

impl Ahead {
    /// The offsets that the units of `.debug_info` name.
    pub(crate) fn new(alloc: Global, info: &[u8]) -> Result<Ahead, NoMemory> {
        let offsets = offsets_in(alloc, info)?;
        let most = offsets.len();
        Ok(Ahead {
            offsets,
            done: 0,
            most,
        })
    }

    // Passes over those whose tables are known.
    fn pass_known(&mut self, joined: &JoinedTables) {
        while let Some(offset) = self.offsets.get(self.done) {
            if joined.known_tail(*offset).is_none() {
                return;
            }
            self.done += 1;
        }
    }

    // Those that are read next, in ascending order.
    fn ascending(&self, alloc: Global) -> Result<Vec<u32>, NoMemory>
        ensures { IfOk result (λ next. self.now.done + length next.items ≤ length self.now.offsets.items) }
    {
        let rest = &self.offsets[self.done..];
        let mut next = rest[..rest.len().min(self.most)].to_vec(alloc)?;
        next.sort_unstable();
        Ok(next)
    }

    // Reads tables ahead, from the first that isn't known on.
    #[tactic(auto, using(crate::proofs::TailLemmas::grows_none))]
    fn read_ahead(&mut self, alloc: Global, joined: &mut JoinedTables) -> Result<(), NoMemory>
        ensures { Grows joined.old joined.new }
    {
        self.pass_known(joined);
        let next = self.ascending(alloc)?;
        if read_all(alloc, next.as_slice(), joined)? {
            self.done += next.len();
        } else {
            self.most = (self.most / 2).max(1);
        }
        Ok(())
    }

    /// The table at an offset of the section, as the end of one of these. Where it isn't known, others are read with it.
    pub fn tail_at(
        &mut self,
        alloc: Global,
        joined: &mut JoinedTables,
        offset: u32,
    ) -> Result<Tail, ReadErr>
        ensures { FindsTail joined.old joined.new offset result }
    {
        if let Some(tail) = joined.known_tail(offset) {
            return Ok(tail);
        }
        self.read_ahead(alloc, joined)?;
        joined.tail_at(alloc, offset)
    }
}
