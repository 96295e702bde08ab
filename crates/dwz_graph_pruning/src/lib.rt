//! Which files are prunable: those of whose texts nothing speaks but their units and their slots (DWARF 5, 6.2.4, 6.3 and 7.26).
//!
//! `prunable_files` answers a flag for each file of a run, from the contents and the graph; `is_prunable` asks it of one file. Names and
//! forms of an entry come first: values are read only where one is a text by a slot, or numbers a file of a table with texts in
//! `.debug_str`. The flags go into `make_files` of `dwz_run_files`.
//!
//! Read first: `IsPrunable` (`Prunable.antt` of `dwz_def_readback`), `ArePrunable` (`Out.antt` of `dwz_def_output`).
#![tactic(auto)]

mod asked;
mod files;
mod units;
mod values;

pub use files::{is_prunable, prunable_files};
