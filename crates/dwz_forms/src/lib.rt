//! Values of attributes by their form: what is stored, how long it is, and the bytes that are written (DWARF 5, 7.5.5 and 7.5.6).
//!
//! `read_value` reads the value of a form at a cursor: a number, or a slice of the input (`Raw`); or it answers the fault, and the cursor
//! stands where it was. `read_value_sup` reads also what leads to a supplementary file, and `read_value_among` the forms of a `FormSet`;
//! all are that one call. `size_of_value` and `write_value` say how long the bytes of a value are, and append them; what is read can be
//! written again. `fixed_size` and `size_among` tell forms whose values all have as many bytes, and `is_binding` those whose values mean something else at
//! another place.
//!
//! Read first: `specs/RawValues.antt`, and `Values.antt` of `dwz_def_reading`.
#![tactic(auto)]

mod fixed;
mod form_set;
mod numbers;
mod raw;
mod reading;
mod writing;

pub use fixed::{fixed_size, size_among};
pub use form_set::{FormSet, is_binding};
pub use raw::Raw;
pub use reading::{read_value, read_value_among, read_value_sup};
pub use writing::{size_of_value, write_value};
