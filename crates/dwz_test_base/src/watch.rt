//! A gate that watches workers.

ghost use Rattle.std.specs.Prelude.{◌<◌};

use dwz_gate::{Gate, MeetGate};
use dwz_table::Pass;
use std::alloc::Global;
use std::process::Abort;
use std::sync::atomic::{AtomicU64, Ordering};

/// Turns from this one on are counted nowhere.
pub(crate) const TURNS: u32 = 40;

/// It counts what three workers do in each turn. From one turn on, workers 0 and 1 meet: each is held once, until the other one comes.
#[derive(Drop)]
pub(crate) struct Watch {
    meet_from: u32,
    straight: MeetGate,
    // With the two workers exchanged.
    crossed: MeetGate,
    // For each turn the nodes that were proposed, and above them in four bits each how often each worker came, and how often each went.
    turns: Vec<AtomicU64>,
}

/// Nothing is counted yet. No thread has to be fast for a hold to end: its limit is not reached within the time that a test has.
pub(crate) fn new_watch(rt: &impl Abort, alloc: Global, meet_from: u32) -> Watch {
    let mut turns = Vec::new(alloc);
    for _ in 0..TURNS {
        turns.push(AtomicU64::new(0)).expect(rt, "memory");
    }
    Watch {
        meet_from,
        straight: MeetGate::new(u32::MAX),
        crossed: MeetGate::new(u32::MAX),
        turns,
    }
}

// Where a worker's calls are counted. One that isn't one of three counts as if it had proposed too many nodes.
fn bit_of(worker: u32, first: u32) -> u64
    requires { first < 50 }
{
    if worker < 3 {
        1 << (first + 4 * worker)
    } else {
        1 << 31
    }
}

impl Watch {
    fn add(&self, turn: u32, more: u64) {
        if let Some(count) = self.turns.get(turn as usize) {
            count.fetch_add(more, Ordering::SeqCst);
        }
    }

    /// Whether both were held until the other came, and no longer.
    pub(crate) fn met(&self) -> bool {
        let limit = u64::from(u32::MAX);
        self.straight.met()
            && self.crossed.met()
            && self.straight.turns() < limit
            && self.crossed.turns() < limit
    }

    /// Whether each of three workers came and went once in each of these turns, and in no other, and so many nodes were proposed in each.
    pub(crate) fn has_turns(&self, proposals: &[u64]) -> bool {
        for turn in 0..TURNS as usize {
            let expected = match proposals.get(turn) {
                Some(count) => count.wrapping_add(0x111_111 << 32),
                None => 0,
            };
            let found = match self.turns.get(turn) {
                Some(count) => count.load(Ordering::SeqCst),
                None => 0,
            };
            if found != expected {
                return false;
            }
        }
        true
    }
}

impl Gate for Watch {
    fn enter(&self, worker: u32, turn: u32) {
        self.add(turn, bit_of(worker, 32));
        if turn >= self.meet_from {
            self.straight.enter(worker, turn);
            self.crossed
                .enter(if worker < 2 { 1 - worker } else { worker }, turn);
        }
    }

    fn leave(&self, worker: u32, turn: u32, pass: &Pass) {
        self.add(turn, bit_of(worker, 44));
        self.add(turn, pass.proposals());
        self.straight.leave(worker, turn, pass);
    }
}
