//! Marks of tops: what is told of a top to see whether another one is the same, with names in place of all that may be long.
//!
//! A mark is a number, or bytes that have a name. `Names` gives bytes a number, equal ones the same; `put_plainly` and `put_named` append a
//! mark to bytes, which then tell the marks of a top. No text, no path and no list stands there whole, however often it is named. `Found`
//! keeps numbers that were found before, so that a name is made once and not at each value that means it.
//!
//! Laws: `word_laws`, that two tops are told alike exactly if language, name list and bare tree are the same; `show_laws`, that such
//! labels show the nodes of tops.
//!
//! Read first: `marks_of` (`specs/Marks.antt`), `WordLaw` (`specs/Told.antt`).
#![tactic(auto)]

mod found;
mod laws;
mod names;
mod pieces;

pub use found::Found;
pub use laws::{show_laws, word_laws};
pub use names::Names;
pub use pieces::{put_named, put_number, put_plainly};
