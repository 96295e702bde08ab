//! A gate that holds worker 0: alone, and after worker 1. That it holds until worker 1 comes, in a thread of its own, is seen by `Watch`.

use crate::expect::holds;
use dwz_gate::{Gate, MeetGate};

// Whether a gate was met once a worker has entered it in this turn, and how many turns of its loop it has waited by then.
fn entered(gate: &MeetGate, worker: u32, turn: u32) -> (bool, u64) {
    gate.enter(worker, turn);
    (gate.met(), gate.turns())
}

// A gate that never holds waits no turn, and one that holds for a hundred times its limit waits a hundred times as many.
#[test]
fn meets_who_entered_before_or_waits_its_limit_once(rt: HostRuntime) {
    for limit in [0, 1, 7, 1000, 100_000] {
        let gate = MeetGate::new(limit);
        holds(&rt, "worker 1", entered(&gate, 1, 0) == (false, 0));
        holds(&rt, "worker 0", entered(&gate, 0, 0) == (true, 0));
        let gate = MeetGate::new(limit);
        let spent = (false, u64::from(limit));
        holds(&rt, "worker 2", entered(&gate, 2, 0) == (false, 0));
        holds(&rt, "the hold", entered(&gate, 0, 0) == spent);
        // It came after the hold, and there is no other.
        holds(&rt, "too late", entered(&gate, 1, 0) == spent);
        holds(&rt, "no more", entered(&gate, 0, 1) == spent);
    }
}
