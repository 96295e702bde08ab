//! What each attribute of a copied entry stores in a file that is written without its partial units (DWARF 5, 3.2.5), or the first value
//! of it that can't be copied; and the passes over the new units: `lay` measures them, and `write` writes them.
//!
//! `put_attrs` answers what the attributes of one entry store in the new unit at hand; `first_fault` goes over the entries of all new
//! units.
//!
//! `lay` and `write` take the same way, over all new units and the entries of each, which are the copies of the sources in a plan, and
//! hand each entry to a `Pass`. So they refuse alike: at the first value that can't be copied. What is laid and what is written is one row
//! of new units, the only one that has the copies of the plan's sources. Another `Pass` may take the same way by `pass_units`: it is told
//! the operands of the expressions of each copied entry, in order.
//!
//! Laws from sources to the new file: each entry of a new unit stands as deep as its source did in its own unit, so the numbers of sources
//! and the depths that were read tell where lists of children end (`depth_laws`). The number that is counted of a copy is its index among
//! all copies, and new units that have the copies of these sources show the units of the new file (`copy_laws`), which is what the layout
//! asks for (`layout_laws` of `dwz_expand_layout`); so what is laid and written of them are its new sections (`file_laws`). Code goes over
//! numbers that stand for places, and what is promised speaks of places: along a function that takes no two together all this is the same
//! (`place_laws`).
//!
//! Read first: `specs/Known.antt`, `specs/Paths.antt`, `Knows` and `AnswersEntry` (`specs/Files.antt`), and `specs/Faults.antt`; then
//! `specs/Passes.antt`, `specs/Noted.antt`. Of the laws `specs/Lined.antt`, `specs/Numbered.antt`, `specs/CopiesOf.antt`,
//! `specs/OfFile.antt`, `specs/Renamed.antt`; and `specs/Sources.antt` of `dwz_expand_sources`, `specs/Written.antt` of `dwz_def_expand`.
#![tactic(auto)]

mod attributes;
mod contents;
mod copied;
mod entries;
mod faults;
mod files;
mod heads;
mod kinds;
mod laws;
mod lists;
mod named;
mod new_file;
mod numbers;
mod pass;
mod passes;
mod paths;
mod tables;
mod units;
mod values;

pub use faults::first_fault;
pub use files::{Known, SourceFile};
pub use laws::{copy_laws, depth_laws, file_laws, place_laws};
pub use new_file::NewFile;
pub use pass::Pass;
pub use passes::{lay, write};
pub use paths::TablePaths;
pub use units::pass_units;
