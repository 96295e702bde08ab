//! The supplementary file: its checksum, the section that ties files together, and the file itself (DWARF 5, 7.3.6).
//!
//! `checksum` is SHA-256 over `.debug_info`, `.debug_str` and `.debug_abbrev` of the file; `debug_sup` is the content of `.debug_sup`, in
//! it or in a file that imports from it; `common_file` is the whole, and `plain_file` an ELF file of the plain layout. Lengths are known
//! before any byte is (`common_laws`), so a file is made in one run. `dwz_run_output` and `dwz_gen` call them. `sup_in` is what a
//! `.debug_sup` says, as slices of it, and `read_sup` the same with bytes of its own, or the fault.
//!
//! Read first: `Supplementary.antt` and `PlainFile.antt` of `dwz_def_reading`, then `specs/Common.antt` and `specs/Readings.antt`.
#![tactic(auto)]

mod common;
mod laws;
mod plain;
mod reading;
mod sup;

pub use common::common_file;
pub use laws::common_laws;
pub use plain::{PlainSection, plain_file};
pub use reading::{SupRef, read_sup, sup_in};
pub use sup::{checksum, debug_sup};
