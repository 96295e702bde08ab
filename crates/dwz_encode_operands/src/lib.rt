//! New numbers of operands of expressions and of location lists, and the first that is too narrow for its own (DWARF 5, 2.5 and 7.7.1).
//!
//! `operand_numbers` gives the new number of each operand of a file's location lists, `lists_section` the section with them;
//! `entry_places` where what each reference names stands after. `first_spoken` and `first_listed` answer the place of the first operand, of
//! expressions and of lists, whose number needs more bytes than it has: that refuses the run. Places of entries and units come from the
//! layout.
//!
//! Laws: `first_laws`, `number_laws`.
//!
//! Read first: `specs/Operands.antt`, `specs/Narrow.antt`; and `Refusals.antt` of `dwz_def_output`.
#![tactic(auto)]

mod laws;
mod listed;
mod lists;
mod operands;
mod over;
mod renumbering;
mod spoken;
mod targets;
mod values;

pub use laws::first_laws;
pub use listed::first_listed;
pub use lists::lists_section;
pub use operands::operand_numbers;
pub use renumbering::number_laws;
pub use spoken::first_spoken;
pub use targets::entry_places;
