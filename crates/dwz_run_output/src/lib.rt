//! The last step of a run: from new sections to what is put, or to the first refusal of it.
//!
//! `outcome` takes options, contents, graph, for each file a `NewFile` or none, and the sections of the common file; it answers an
//! `Output`: puts, the common file first, and the summary that is said of them; or the first operand that is too narrow, section that is
//! too large, or file that can't be laid out. A file's bytes are made once and moved into its put. `NewFile` is filled by `dwz_run_files`.
//! `outcome_over` does so where the common file stands already: that is never put, and has no fault.
//!
//! Read first: `specs/NewFiles.antt` and `OutFault` of `dwz_def_output`; `Slims` (`Out.antt` of `dwz_def_run`), and `ReusesOf` (`Reuses.antt` of `dwz_def_run`).
#![tactic(auto)]

mod after;
mod common;
mod faults;
mod making;
mod over;
mod puts;
mod rows;
mod summary;

pub use after::outcome;
pub use over::outcome_over;
