//! How files are spelled, what reading them gives, what they say, and their first fault: definitions, and the laws between them.
//!
//! There is no running code here but records that definitions speak of. Of each part of a file (texts, values, abbreviations, entries,
//! units, expressions, location lists, address ranges, line tables, ELF headers, `.debug_sup`) a relation says how it is spelled, a
//! function reads it or answers its first fault, and laws tie the two: what is read is spelled, what is spelled is read, whatever follows,
//! and the fault is answered exactly where its reason holds. Above them stands what values, units and files mean: their documents.
//!
//! Laws are functions without a body, one for a notion: `value_laws`, `table_laws`, `tree_laws`, `unit_laws`, `expr_laws`, `list_laws`,
//! `line_laws`, `elf_fault_laws`, `meaning_laws`, `file_laws` and so on. Who lists this crate finds what is said of bytes and codes here
//! too: `specs/Lib.antt` hands it on.
//!
//! Read first: `Doc` (`specs/Documents.antt`), `SpellsUnit` (`specs/Units.antt`), then `Reads` and `First` (`specs/Files.antt`): what
//! reading files answers, in the order of all faults.
#![tactic(auto)]

mod abbrevs;
mod elf;
mod elf_faults;
mod entries;
mod exprs;
mod files;
mod finished;
mod line_tables;
mod loc_lists;
mod meanings;
mod patched_lists;
mod patching;
mod places;
mod plain_file;
mod pruning;
mod ranges;
mod shared;
mod supplementary;
mod text_rows;
mod texts;
mod trees;
mod units;
mod values;

pub use abbrevs::{order_laws, table_laws};
pub use elf::{FileHeader, Header, Moved, Name, NewContent, Section};
pub use elf_faults::elf_fault_laws;
pub use entries::{attrs_laws, entry_laws};
pub use exprs::{Operand, expr_laws};
pub use files::file_laws;
pub use finished::{beside_laws, finished_laws};
pub use line_tables::{line_laws, written_line_laws};
pub use loc_lists::list_laws;
pub use meanings::meaning_laws;
pub use patched_lists::patched_list_laws;
pub use patching::{patch_laws, patched_range_laws};
pub use places::{bound_laws, place_laws};
pub use plain_file::plain_file_laws;
pub use pruning::prune_laws;
pub use ranges::range_laws;
pub use shared::shared_laws;
pub use supplementary::{Sup, sup_laws};
pub use text_rows::text_row_laws;
pub use texts::{offset_table_laws, slot_laws, text_laws};
pub use trees::tree_laws;
pub use units::unit_laws;
pub use values::value_laws;
