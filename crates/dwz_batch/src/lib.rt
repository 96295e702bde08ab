//! Jobs by number, done by workers: what comes of each, in order.
//!
//! A `Job` says how many there are, and does one by its number; what comes of it (`Outcome`: nothing, bytes, or a refusal) is the same
//! whoever does it, and when. `batch` does all: each worker draws numbers from one shared table (`dwz_table`) until no job has the number, so
//! each job is done once. Its clause speaks of the outcomes alone, so they are the same for every number of workers and every gate.
//!
//! In: a job, a number of workers, a gate that is told of each job. Out: `Outcomes`, in the order of the numbers; or want of memory, where one
//! job wanted it. Jobs may themselves use threads: what that asks of types is said by `ready` of the trait.
//!
//! `outcome_text` is what is said of one file, by its outcome: a line in the words of `dwz_report`. Where it is to be quiet, it is the line
//! of a refusal, and else no byte.
//!
//! Read first: `AreOutcomes` (`specs/Jobs.antt`), and `outcome_text` (`specs/Texts.antt`).
#![tactic(auto)]

mod gathering;
mod job;
mod texts;
mod turns;
mod workers;

pub use job::{Job, Outcome, Outcomes};
pub use texts::outcome_text;
pub use workers::batch;
