//! What is written of several files, with a common one or without, reads back as the same along images.
//!
//! There is no running code here. A `Run` is a move of the tops of files, with the files as they were stored; by it are defined what is
//! written of each (`fitted`, `sections_of`, `common_sections`), and where each name stands (`place_of`). `IsPrunable` says of whose texts
//! nothing speaks but units and slots. `ReadBack` is the whole promise, from the bytes that were read to those that are read back.
//!
//! The laws: `back_laws` give it, where each operand has room and no section is too large; `fewer_laws` and `run_laws`: places and sections
//! don't depend on files that aren't written; `sound_laws`: units that are written can be stored.
//!
//! Read first: `specs/Files.antt`, `specs/Prunable.antt`, `specs/Back.antt`, `specs/AllFiles.antt`.
#![tactic(auto)]

mod back;
mod laws;
mod prunable;
mod sound;

pub use back::back_laws;
pub use laws::{fewer_laws, run_laws};
pub use prunable::prunable_laws;
pub use sound::sound_laws;
