//! The sections beside the units of a file that is written without its partial units, and what refuses it by size.
//!
//! `ranges_after` gives `.debug_aranges` with the offsets that units have after, and `lists_after` gives `.debug_loclists` with the new
//! numbers of operands. Where a number needs more bytes than its operand has, the file is refused for the first such operand:
//! `note_operand` and `first_narrow` find its place among operands that have their new numbers, in whichever order they come,
//! `first_listed` among those of the location lists; `narrow_fault` is the fault. `first_large` tells from the lengths of the units and of
//! their tables, before any byte is written, whether a section is too large. `size_refusal` is the first of all these.
//!
//! Laws: `start_laws`, `list_laws`, `number_laws`.
//!
//! Read first: `specs/Narrow.antt`, `specs/Lists.antt`, `specs/Ranges.antt`, `specs/Large.antt`; and `Output.antt` of `dwz_def_expand`.
#![tactic(auto)]

mod large;
mod laws;
mod listed;
mod lists;
mod narrow;
mod ranges;
mod refusals;

pub use large::first_large;
pub use laws::{list_laws, number_laws, start_laws};
pub use listed::first_listed;
pub use lists::lists_after;
pub use narrow::{first_narrow, narrow_fault, note_operand};
pub use ranges::ranges_after;
pub use refusals::{NarrowPlaces, size_refusal};
