//! The file that is written of one without its partial units: the one that was read, without `.debug_sup` (DWARF 5, 7.3.6) and with its new
//! sections.
//!
//! `expanded_file` takes the bytes that were read and the new sections, and answers the new bytes; or the first section that can't be laid out
//! around the loaded bytes, or that the file is too large. Inside, `without_sup` moves the section headers behind the file, where that of
//! `.debug_sup` is zero bytes, and `dwz_elf` makes the new file from that.
//!
//! What is written reads by itself, but for limits (`new_file_laws`).
//!
//! Read first: `specs/Answers.antt` and `specs/Laws.antt`; and `NewFile.antt` of `dwz_def_expand`.
#![tactic(auto)]

mod bytes;
mod file;
mod headers;
mod laws;
mod made;
mod sup;
mod without;

pub use file::expanded_file;
pub use laws::new_file_laws;
