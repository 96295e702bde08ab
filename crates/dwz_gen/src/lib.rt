//! The two files of a demonstration: large enough to show what is saved, and made from a number.
//!
//! `make_files` makes two ELF files of the plain layout with n units each, for n from 2 to 10,000, byte for byte `demo_files`. Laws: how
//! long they are (`length_laws`), and that they are ELF files without a fault whose abbreviation table reads (`reading_laws`).
//!
//! Read first: `specs/Demo.antt`.
#![tactic(auto)]

mod demo;
mod laws;
mod unit;

pub use demo::{Two, make};
pub use laws::{length_laws, reading_laws};
