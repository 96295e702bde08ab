//! `.debug_loclists` and `.debug_aranges` of a file of which something moves: numbers that change in place.
//!
//! `lists` writes a number into each operand, in its old width and spelling; `ranges` the new offset of a unit into each set. All other
//! bytes are as they were, and each section is copied once. The numbers come from `dwz_encode_operands`. The law is `section_laws`.
//!
//! Read first: `specs/Numbers.antt`, `specs/Slots.antt`, `specs/Ranges.antt`.
#![tactic(auto)]

mod laws;
mod location_lists;
mod numbers;
mod range_sets;

pub use laws::section_laws;
pub use location_lists::lists;
pub use range_sets::ranges;
