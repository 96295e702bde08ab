//! What is written of files over a finished common file (DWARF 5, 7.3.6), which stays as it is: new sections, the files after, and what
//! refuses them.
//!
//! There is no running code here. `OverFiles` is what was read of a common file and of files, and what is taken of it; `run_over` is the run
//! that writes them, and `stands` the common file of it. What is written is what `dwz_def_output` writes of that run (`file_over`), or the
//! first refusal of it (`OverFault`). `ReadBackOver` is the whole promise: with the common file the files say what they said, where copies
//! in that count as one place.
//!
//! The laws: what is read is fixed by the bytes (`read_laws`); one refusal is the first, or none (`refused_laws`); and what is written reads
//! back (`over_laws`).
//!
//! Read first: `specs/Over.antt`, `specs/Written.antt`.
#![tactic(auto)]

mod over;

pub use over::{over_laws, read_laws, refused_laws, write_laws};
