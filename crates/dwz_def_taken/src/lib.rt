//! What units take from a common file that is finished (DWARF 5, 7.3.6), which tops are left to be shared, and that files say the same over it.
//!
//! Files are seen with the common file beside them (`Beside`). A unit takes a partial unit of it if it has all that this holds, and can take
//! what this refers to; what is free after that is shared in each file by itself (`Takes`). By that tops move (`Over`), and what stands after
//! is the same along images, where entries that the common file has more than once count as one place (`Laws`).
//!
//! No code is here: the record in which what is taken is said (`Fixed`), definitions, and laws (`taken_laws`, `over_laws`, `move_laws`). Read
//! first: `specs/Beside.antt`, `specs/Takes.antt`.
#![tactic(auto)]

mod fixed;
mod taken;

pub use fixed::{Choices, Fixed, NumberLists};
pub use taken::{move_laws, over_laws, taken_laws};
