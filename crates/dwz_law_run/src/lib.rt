//! Laws from what is written to what is said of it.
//!
//! Where files are written, each of them before and after is said to mean the same (`same_laws`): by whoever compares the two, beside the
//! common file where one of them has `.debug_sup`. So it is where they are written over a finished common file (`same_over_laws`). It is the
//! closing sentence of `--check`, over definitions alone; `dwz_run` has it of two calls.
//!
//! No code is here. Read first: `specs/SameLaws.antt`, `specs/SameOverLaws.antt`.
#![tactic(auto)]

mod same;
mod same_over;

pub use same::same_laws;
pub use same_over::same_over_laws;
