//! What differs between two tops by themselves, read from their labels.
//!
//! `what_differs` takes the labels of two tops, as `dwz_label_entries` writes them, and answers what differs first: the languages of their
//! units, the names of the spaces that they stand in, or the first entries in preorder that differ by tag, attribute or number of children;
//! or that nothing does. No file is asked. Each piece of a label ends by itself, so the two are passed by side by side; the entries of a
//! top are rows, each with how many entries are below it, so children are counted, and the way to an entry is found, row by row.
//!
//! Read first: `IsWhat` (`What.antt` of `dwz_def_explain`), `label_of` (`Labels.antt` of `dwz_label`), then `specs/Told.antt`.
#![tactic(auto)]

mod attributes;
mod differences;
mod entries;
mod pieces;
mod what;

pub use what::what_differs;
