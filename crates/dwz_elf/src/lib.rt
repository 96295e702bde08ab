//! ELF64 files (ELF-64 Object File Format): their sections as stored, and the same file with some sections replaced.
//!
//! `Elf::read` takes the bytes of a file and answers its headers, or the first of faults 1 to 6, and `read_with_sup` those of a file that
//! may have been written by this tool; `section` is the range of the first section with a code, `machine` and `flags` are the header's. `Rebuild::new`, `replace` and `add_sup` say what changes, and `finish`
//! gives the new bytes, or that the file can't be laid out around its loaded bytes, or is too large. No section is copied before that.
//!
//! Read first, in `dwz_def_reading`: `ElfReading.antt`, `ElfFaults.antt`, `ElfLayout.antt`.
#![tactic(auto)]

mod edits;
mod elf;
mod fault;
mod header;
mod layout;
mod manner;
mod name;
mod output;
mod rebuild;

pub use elf::Elf;
pub use rebuild::Rebuild;
