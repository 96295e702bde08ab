//! What `--expand` writes of a file: the same units without partial ones, each with copies of what it imports (DWARF 5, 3.2.5 and 7.3.6);
//! and the whole file, which is the one that was read, without `.debug_sup` and with its new sections.
//!
//! A file is seen with the common file that it refers to. Its units that aren't partial stand after, in order; in each compile unit copies of
//! the entries of partial units stand for the imports, and each place that an entry names is that of its copy (`Source`). Each value gets its
//! form by where its source stood (`Chosen`), and units are written as all units are (`Written`).
//!
//! A file that was read beside its common file is seen with the bytes of both (`OneFile`). Of it new sections are written (`Output`), or it is
//! refused: a value can't be copied (`Refusals`), an operand is too narrow, a section is too large. `.debug_sup` isn't kept (`Dropped`). Then
//! the new file is laid out (`NewFile`), or it is refused: a section can't be laid out around the loaded bytes, or the file is too large.
//!
//! No code is here: definitions, and laws on them. Where nothing refuses a file, the new one is whole (`expand_laws`, `refusal_laws`,
//! `file_refusal_laws`), and what is written reads by itself (`alone_laws`). Read first: `specs/Source.antt`, `specs/Chosen.antt`,
//! `specs/Refusals.antt`, `specs/NewFile.antt`.
#![tactic(auto)]

mod file_laws;
mod laws;

pub use file_laws::file_refusal_laws;
pub use laws::{alone_laws, expand_laws, refusal_laws};
