//! Texts, each once, in the order of their first use, with the places at which they stand in a section.
//!
//! The common file takes its texts and its paths from such lists (DWARF 5, 7.5.5, class string; 6.2.4). `Texts::number` gives the number of
//! a text, a new one where it is new; `find`, `text` and `start_of` look, `len` and `size` count. After want of memory nothing has changed.
//! Contracts see the list of texts, no two of which are equal.
//!
//! A number is found by a hash in an ordered map, and its text compared; texts with a hash that another had before are keys of a second
//! map. So n texts take n log n comparisons.
//!
//! Read first: `specs/Numbered.antt`, and `TextRows.antt` of `dwz_def_reading`.
#![tactic(auto)]

mod numbers;
mod rows;
mod texts;

pub use texts::Texts;
