//! A run of the tool, from the words of the command line to the files that are put and the text that is said, and what follows of how it
//! ends.
//!
//! `run` takes words, files, a console and a gate, and answers a `Status`. It is `run_course` with the work of `written_files`, which is:
//!
//! - for files that are slimmed `Graph::read_by`, and then `prunable_files`, `make_files` and `outcome`, or `explain_places` for two entries
//!   that are explained;
//! - for two files that are compared `Graph::read_back` and `check`;
//! - for one that is written without its partial units `Graph::read_back`, `expand` and `expanded_file`;
//! - for files over a finished common one `Graph::read_sup_by`, `match_common`, `make_over` and `outcome_over`;
//! - for many of those, each as if it were alone with it, `batch` (`dwz_batch`) of jobs that do so.
//!
//! Its clauses: `ends` (each status with its cause), `complete` and `refuses` (what comes where nothing outside fails), `demo`, `reads`.
//!
//! The laws say what follows: `done_laws` (what is put reads back as what was read), `cause_laws`, `answer_laws`, `stop_laws`,
//! `demo_laws`, and `second_call_laws` of two calls: that `--check` says of what a first one made that it means the same.
//!
//! Read first: `specs/Laws.antt`, `specs/Expanding.antt`, `specs/Reusing.antt` and `specs/Batched.antt`; then `Ends` (`Ends.antt` of
//! `dwz_run_course`), `Out`, `TellsWhy`, `Compares` and `Expands` (`Out.antt`, `Tells.antt`, `Compares.antt` and `Expands.antt` of
//! `dwz_def_run`), `Comes` (`dwz_def_run`) and `Yields` (`dwz_def_run`).
#![tactic(auto)]

mod batched;
mod compared;
mod contents;
mod expanded;
mod jobs;
mod laws;
mod names;
mod reused;
mod running;
mod work;
mod written;

pub use dwz_run_course::Status;
pub use laws::{answer_laws, cause_laws, demo_laws, done_laws, second_call_laws, stop_laws};
pub use running::run;
