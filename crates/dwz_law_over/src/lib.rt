//! That a file and what is written of it over a finished common file mean the same, imports expanded (DWARF 5, 3.2.5 and 7.3.6).
//!
//! What stands after of a file means what the file meant, at whatever places (`pair_over_laws`): what it imports from the common file may be
//! any of several copies there, which count as one. So the old file and the file after mean the same where both are read back, beside the
//! common file and each with a number of its own (`check_over_laws`). What is written is read by the rule of files that may have been
//! written: its entries may stand as they do (`stand_over_laws`), and nothing is wrong with its `.debug_sup`, which just those files have
//! that import from the common file (`sup_over_laws`). So both are read one behind the other, and mean the same (`finished_over_laws`).
//!
//! No code is here. Read first: `CrossSame` of `dwz_def_cross`, `Copies` of `dwz_def_taken`, then `specs/CheckOverLaws.antt`,
//! `specs/StandOverLaws.antt`, `specs/SupOverLaws.antt`, `specs/FinishedOverLaws.antt`.
#![tactic(auto)]

mod check;
mod finished;
mod pairs;
mod stand;
mod sup;

pub use check::check_over_laws;
pub use finished::finished_over_laws;
pub use pairs::pair_over_laws;
pub use stand::stand_over_laws;
pub use sup::sup_over_laws;
