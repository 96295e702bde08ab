//! What is known of one of two files that are compared, for columns: numbers of name lists, and the nodes of units.
//!
//! `space_lists` numbers the name lists of a file's entries. `NameLists` keeps the numbers, so that equal lists of several files have one
//! number: a list is found by two looks, of its last name, and of this name's number with that of the list outside. So n entries take
//! n log n comparisons of names, and no name is copied.
//!
//! `put_units` has of each unit what it is, the numbers of its root and spaces, and those of its tops.
//!
//! `list_number_laws` say that equal lists alone have equal numbers, and that lists keep theirs.
//!
//! Read first: `specs/Says.antt`, `specs/Names.antt`, `specs/Units.antt`.
#![tactic(auto)]

mod laws;
mod lists;
mod names;
mod side;
mod texts;
mod units;

pub use laws::list_number_laws;
pub use lists::NameLists;
pub use names::space_lists;
pub use side::Side;
pub use units::put_units;
