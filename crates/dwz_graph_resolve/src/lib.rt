//! What the values of a file name, or the first fault of these.
//!
//! `resolve` takes the units of a file and what surrounds them (`Surroundings`: its sections, and the common file beside which it is read,
//! if there is one), and answers `Resolved`: a number for each reference and each operand of an expression, which is that of the entry that it
//! names; the line tables whose files are numbered; and the operands of location lists. `resolve_by` does so by several workers, with
//! the same answer for any number of them.
//!
//! `first_attr` is the first value of a name, and `here_of` what a unit's root says of the values of its entries. `text_in`, `slot` and
//! `offset_of` look into the sections that values speak of (`InputSections`).
//!
//! Read first: `specs/Resolved.antt`, `specs/Surroundings.antt`, `specs/Named.antt`, `specs/Parts.antt`.
#![tactic(auto)]

mod expressions;
mod files;
mod find;
mod first;
mod here;
mod hints;
mod joining;
mod kinds;
mod list_parts;
mod lists;
mod named;
mod operands;
mod parts;
mod places;
mod quick;
mod ranges;
mod references;
mod resolving;
mod sections;
mod shared;
mod state;
mod stretches;
mod strings;
mod surroundings;

pub use expressions::entry_of;
pub use first::first_attr;
pub use here::{Here, here_of};
pub use operands::ListOperand;
pub use resolving::{Resolved, resolve, resolve_by};
pub use sections::{InputSections, TextSection, offset_of, slot, text_in};
pub use surroundings::{CommonPart, Surroundings};
