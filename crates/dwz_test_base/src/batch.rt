//! Many jobs at once: their outcomes come in order, for several numbers of jobs and workers, and two workers are at work at once. What
//! comes of a job is its number, in one byte. And what is said of each kind of outcome, as the texts of the program are documented.

ghost use Rattle.std.specs.Prelude.{◌≡◌, ◌≤◌, ⊤, ℕ, [], ◌∷◌};
ghost use Rattle.dwz_batch.specs.declared.job.Outcome.{Outcome as Came};
ghost use Rattle.dwz_batch.specs.declared.job.Outcome.TheVariants.{Bytes as BytesOf};

use crate::expect::holds;
use crate::watch::new_watch;
use dwz_batch::{Job, Outcome, batch, outcome_text};
use dwz_model::{Blob, DEBUG_INFO, NoMemory, Reason, Refusal};
use std::alloc::Global;
use std::process::Abort;

// So many jobs, each of which gives its number in one byte.
#[derive(Drop)]
struct Numbered {
    count: u32,
}

impl Job for Numbered {
    ghost many = { λ job. job.count };

    ghost ready = { λ job. ⊤ };

    ghost gives = { λ job i outcome. (b : ℕ) × (outcome ≡ BytesOf (b ∷ [])) };

    fn count(&self) -> u32 {
        self.count
    }

    fn work(&self, alloc: Global, i: u32) -> Result<Outcome, NoMemory> {
        let mut bytes = Vec::new(alloc);
        bytes.push((i % 256) as u8)?;
        Ok(Outcome::Bytes(Blob::new(bytes)))
    }
}

// Whether these are the outcomes of so many jobs, in order.
fn are_numbered(outcomes: &[Outcome], count: u32) -> bool {
    if outcomes.len() != count as usize {
        return false;
    }
    for i in 0..outcomes.len() {
        match &outcomes[i] {
            Outcome::Bytes(bytes) => {
                if bytes.as_slice() != [(i % 256) as u8].as_slice() {
                    return false;
                }
            }
            _ => return false,
        }
    }
    true
}

// Numbers of jobs and of workers, and the job from which two of them meet.
const ROWS: [(u32, u32, u32); 6] = [
    (0, 2, u32::MAX),
    (1, 64, u32::MAX),
    (2, 2, 0),
    (3, 7, u32::MAX),
    (70, 1, u32::MAX),
    (1000, 64, u32::MAX),
];

#[test]
fn gives_all_in_order_and_two_meet(rt: HostRuntime) {
    for (count, workers, meet_from) in ROWS {
        let are_few = 0 < workers && workers <= 64;
        assert!(rt; are_few);
        let watch = new_watch(&rt, rt.alloc(), meet_from);
        let found = batch(&rt, rt.alloc(), &Numbered { count }, workers, &watch);
        let found = found.expect(&rt, "memory");
        holds(&rt, "in order", are_numbered(found.as_slice(), count));
        holds(&rt, "two meet", watch.met() == (meet_from == 0));
    }
}

// Of this outcome of the file `lib/a.so` of 4096 bytes this is said, and, where it is to be quiet, that.
fn says(rt: &impl Abort, alloc: Global, outcome: &Outcome, told: &[u8], quiet: &[u8])
    requires { (refusal : _) → outcome.now ≡ Outcome.Refused refusal → refusal.section ≤ 9 }
{
    let text = outcome_text(alloc, b"lib/a.so", 4096, outcome, false).expect(rt, "memory");
    holds(rt, "told", text.as_slice() == told);
    let text = outcome_text(alloc, b"lib/a.so", 4096, outcome, true).expect(rt, "memory");
    holds(rt, "quiet", text.as_slice() == quiet);
}

const DANGLING: Refusal = Refusal {
    file: 3,
    section: DEBUG_INFO,
    at: 0x1f0,
    reason: Reason::BadReference,
};

#[test]
fn says_what_came_of_a_file(rt: HostRuntime) {
    let alloc = rt.alloc();
    says(
        &rt,
        alloc,
        &Outcome::Nothing,
        b"lib/a.so: nothing moves\n",
        b"",
    );
    let bytes = [0; 1000].to_vec(alloc).expect(&rt, "memory");
    let written = Outcome::Bytes(Blob::new(bytes));
    says(&rt, alloc, &written, b"lib/a.so: 4096 -> 1000 bytes\n", b"");
    let told = b"dwz: lib/a.so: .debug_info+0x1f0: bad reference\n";
    says(&rt, alloc, &Outcome::Refused(DANGLING), told, told);
}
