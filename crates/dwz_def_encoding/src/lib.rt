//! The bytes of units whose places are names: forms by what holds a unit, where things stand, which texts stay, and what the bytes say.
//!
//! There is no running code here. What is written is a function of numbers for names (`Numbering`): `unit_bytes`, `units_bytes`,
//! `table_of`. `fit_units` gives each value its form; `numbering` gives each name its place, which is where the bytes before it end;
//! `pruned` is what stays of a section of texts.
//!
//! The laws: no length depends on numbers, so there is one placement (`length_laws`, `placing_laws`); the bytes spell the units, and mean
//! them (`bytes_laws`); carried values say after what they said (`carried_laws`, `form_laws`); where just the texts stay that are used,
//! they say the same (`pruned_laws`).
//!
//! Read first: `specs/Writing.antt`, `specs/Placing.antt`, `specs/Sound.antt`. Code that writes so: `dwz_layout`, `dwz_encode`.
#![tactic(auto)]

mod writing;

pub use writing::{bytes_laws, carried_laws, form_laws, length_laws, placing_laws, pruned_laws};
