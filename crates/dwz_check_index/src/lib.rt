//! What each entry of a file is called in looks across files, by its number.
//!
//! `CrossIndex::read` goes over the entries of a file that was read, whose units may be partial, in one pass: of each entry it keeps the
//! way up, and the top that it stands in or what else it is. Tops, and the roots and spaces that have numbers of their own, stand in
//! lists in order; of each unit it is kept which are its first. Numbers begin where the caller says, so that several files can be
//! numbered together.
//!
//! The names are those of `cross_names_from` in `dwz_def_check`: `stands`, `put_path` and `put_spaces` answer what they are made of.
//!
//! `CrossIndexes::read` does so for two files and their common one, numbered together as `old_side` and `new_side` say.
//!
//! Laws say that files that were read can be indexed (`file_laws`), which rows mean an entry by its number (`entry_laws`), that units with
//! other places have the same names (`map_laws`), how the numbers of roots and spaces go on behind others (`later_laws`), and that one
//! function names the places of two files (`two_names_laws`).
//!
//! Read first: `specs/Index.antt`, then `specs/Building.antt`.
#![tactic(auto)]

mod both;
mod building;
mod index;
mod laws;

pub use both::CrossIndexes;
pub use index::{CrossIndex, CrossStarts, Stands, Step, TopEntry, UnitStart};
pub use laws::{entry_laws, file_laws, later_laws, map_laws, two_names_laws};
