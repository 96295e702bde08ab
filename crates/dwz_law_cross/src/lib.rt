//! That a file and what a run made of it mean the same, imports expanded (DWARF 5, 3.2.5 and 7.3.6).
//!
//! What stands after of a file means what the file meant: images pair the two, at whatever places (`pair_laws`), and so at those where
//! things are written (`beside_laws`). So the old file and the file after mean the same where both are read back, beside the common file
//! and each with a number of its own (`check_laws`). Files that were given, and files that were written, are read by the rule of files that
//! may have been written (`read_laws`), since the entries of the latter may stand as they do (`stand_laws`) and nothing is wrong with their
//! `.debug_sup` (`sup_laws`); so both are read one behind the other, and mean the same (`finished_laws`), where limits leave room for the
//! units that they store, of which there is one list (`stored_laws`).
//!
//! No code is here. Read first: `CrossSame` of `dwz_def_cross`, then `specs/CheckLaws.antt`, `specs/ReadLaws.antt`,
//! `specs/FinishedLaws.antt`.
#![tactic(auto)]

mod beside;
mod check;
mod finished;
mod pairs;
mod read;
mod stand;
mod stored;
mod sup;

pub use beside::beside_laws;
pub use check::check_laws;
pub use finished::finished_laws;
pub use pairs::pair_laws;
pub use read::read_laws;
pub use stand::stand_laws;
pub use stored::stored_laws;
pub use sup::sup_laws;
