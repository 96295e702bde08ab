//! The plan of the files of a run, and what is settled of them before they are laid, with the lists that a layout looks into.
//!
//! `plan_files` goes from the graph to `PlannedFiles`: the tops of all files and their plan, the same for every number of workers and every
//! gate. `plan_over` does so over a finished common file that was read beside them (DWARF 5, 7.3.6): what is taken of it stands there, and of
//! what is left tops move in each file by itself; the tops of the common file come behind those of the files. `spaces_of_files` gives
//! `Spaces`: which space stands in which, in which each top stands, and a number for each name list; `pinned_spaces` which spaces a ULEB128
//! operand names; `part_lines` the line table that the root of each partial unit names (3.1.1).
//!
//! `settle_files` takes graph and plan and answers `SettledFiles`: marks of tops, spaces, pinned spaces, line tables of partial units,
//! which files are written and which import. `known_of` makes `EntryTable` (`dwz_layout`): of each entry where it is written and what
//! its references, texts and numbers of files are after. `with_texts` gives the same lists other places of texts. `settle_files_over`,
//! `known_over` and `tops_over` do so over a common file that stands, whose tops and entries are counted behind those of the files. They
//! are called by `dwz_run_files`.
//!
//! Laws: the rule of a plan is one that the definitions allow, in both scopes, and what is known of tops and spaces follows (`outline_laws`,
//! `rule_laws`, `apart_laws`, `mark_laws`, `space_mark_laws`); what is settled gives facts (`facts_laws`) and lists (`listed_laws`).
//!
//! Read first: `specs/Rules.antt`, `specs/Fits.antt`, `specs/Known.antt`, and `specs/PlannedOver.antt` for files over a common file; then
//! `specs/Settled.antt`, `specs/Needs.antt`, `specs/Over.antt`, and `Listed.antt` of `dwz_law_layout`.
#![tactic(auto)]

mod behind;
mod facts;
mod laws;
mod lines;
mod listing;
mod names;
mod outline;
mod over;
mod owned;
mod paths;
mod pinned;
mod places;
mod planned;
mod rows;
mod settled;
mod space_laws;
mod spaces;
mod standing;
mod texts;
mod tops;
mod tops_beside;

pub use facts::facts_laws;
pub use laws::listed_laws;
pub use lines::part_lines;
pub use listing::{FileTexts, known_of, known_over};
pub use names::space_texts;
pub use outline::{apart_laws, mark_laws, outline_laws, rule_laws};
pub use over::plan_over;
pub use pinned::pinned_spaces;
pub use planned::{PlannedFiles, plan_files};
pub use settled::{SettledFiles, settle_files, settle_files_over};
pub use space_laws::space_mark_laws;
pub use spaces::{Spaces, spaces_of_files};
pub use standing::tops_over;
pub use texts::with_texts;
