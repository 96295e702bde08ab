//! What is written of files that were read: new sections, the files after and the common one, and what refuses them. It knows no options,
//! words or puts: these are of `dwz_def_run`.
//!
//! There is no running code here, but what is new in a file as plain data (`NewFile`). `sections_after` are the new sections of a file,
//! `file_after` and `common_bytes` the bytes of files that are made, and `OutFault` is the first refusal of what is written.
//!
//! The laws: at most one refusal is the first, and where nothing refuses them all files are made, read back as the same along images, and
//! are tied to their common file (`written_laws`); an ELF file that is made from another, or of the plain layout, reads back
//! (`rebuilt_laws`, `changed_laws`, `plain_back_laws`, `supplementary_laws`).
//!
//! Read first: `specs/Contents.antt`, `specs/FilesAfter.antt`, `specs/Refusals.antt`, `specs/Tied.antt`.
#![tactic(auto)]

mod new_file;
mod plain_back;
mod rebuilt;
mod written;

pub use new_file::NewFile;
pub use plain_back::{plain_back_laws, supplementary_laws};
pub use rebuilt::{changed_laws, rebuilt_laws};
pub use written::written_laws;
