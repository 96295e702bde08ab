//! One file that was read back, beside its common file or without one, written without its partial units (DWARF 5, 3.2.5): from its graph
//! to its new sections.
//!
//! `expand` is all of it, in the order in which a file is refused: its values are looked at, its new units are laid, the operands whose
//! new numbers are too large are found, and what is left is written.
//!
//! What is known: `SourceFiles` is what is kept of the file and of its common one, whose entries are copied. `known_laws` says that a
//! graph of one file is the file that the definition speaks of, with places: there numbers stand for these. `Plan` has the sources of the
//! new units and their copies, and `first_refusal` answers the first value that can't be copied, as the definition has it: code goes over
//! numbers that stand for places of the file and of its common one, what is promised speaks of places, and the first is the same
//! (`fault_laws`).
//!
//! The new units: `new_file` shows what is kept, with the plan, to the passes; `laid` and `units_written` take these: where the new units
//! stand, and their bytes. Once they are laid, `first_narrow_copied` takes all of them once more, as they are written, and finds the first
//! operands by place, in the file and in its common one, whose new numbers need more bytes than they have (2.5 and 7.7.1).
//!
//! The lists: `list_numbers` takes the operands of the file's location lists (2.6.2 and 7.7.3), each once and in order of place, and
//! answers for each its new number, or that it has none: no value of the new file names its list. It tells the operands of the lists that
//! the values of the sources name, one after the other, in any order, and hands them to `row_numbers`. `listed_laws` says that what a
//! graph has kept of its lists is of the file that the definition speaks of.
//!
//! Read first: `specs/Expanded.antt`, and `Output.antt` of `dwz_def_expand`; then `specs/OneKnown.antt`, `specs/Refused.antt`,
//! `specs/Plans.antt` and `specs/Units.antt`. Of operands `AreFirstOf` (`specs/Told.antt`), of lists `specs/Listed.antt` and
//! `specs/Kept.antt`, then `specs/Gathered.antt` and `specs/Walked.antt`.
#![tactic(auto)]

mod entry;
mod files;
mod graph;
mod laws;
mod narrow;
mod new_file;
mod numbers;
mod plan;
mod ranges;
mod refusal;
mod rows;
mod sections;
mod sizes;
mod told;
mod units;

pub use graph::expand;
