//! Expressions: their operators one by one, and the operands that name entries (DWARF 5, 2.5 and 7.7.1).
//!
//! `read_into` reads the bytes of an expression and appends its operands to a row; `Ops::read` does so with a row of its own. An expression
//! is read, or refused with the first fault of its layout; whether the operands name entries is asked by whoever knows these (`dwz_graph`),
//! and the law `first_fault_laws` says what the expression is then. `Ops` tells also whether there is an address or the index of one.
//!
//! Most expressions have plain operators alone, without an operand that names an entry: those at the front are skipped one by one,
//! and only the others are read by a cursor. `is_plain` tells whether there are no others.
//!
//! Read first: `Exprs.antt` of `dwz_def_reading`, then `specs/FirstFault.antt`.
#![tactic(auto)]

mod few;
mod fields;
mod laws;
mod ops;
mod plain;
mod reading;

pub use dwz_def_reading::Operand;
pub use few::few_end;
pub use laws::first_fault_laws;
pub use plain::is_plain;
pub use reading::{Ops, read_into};
