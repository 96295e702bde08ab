//! What is compared of two files doesn't depend on what stands for the places of their entries.
//!
//! In a graph numbers stand for places of a file and of its common one, and are told apart (`proofs/Numbered.antt`); so its files are well
//! read with places where they are by numbers (`proofs/WellRead.antt`, `proofs/Placed.antt`).
//!
//! Read first: `specs/MappedRows.antt`.
#![tactic(auto)]

mod laws;

pub use laws::mapped_laws;
