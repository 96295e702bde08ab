//! Lines of text on the console, and the numbers in them.
//!
//! `line` puts parts together, `decimal` and `hexadecimal` spell a number.
//!
//! Read first: `specs/Lines.antt`.
#![tactic(auto)]

mod lines;

pub use lines::{decimal, hexadecimal, line};
