//! Bytes that are read from the front, and the numbers that they spell: of a fixed width, and LEB128 (DWARF 5, 7.6).
//!
//! `Cursor` stands in bytes: `u8` to `u64`, `uleb`, `sleb` and `take` answer what stands there and go behind it, or answer `Short` or
//! `Wide` and stay. `put_fixed`, `put_uleb`, `put_sleb` and `put_padded` append; after want of memory nothing has changed. The laws
//! (`fixed_laws`, `uleb_laws`, `sleb_laws`): what is read is spelled, what is spelled is read, whatever follows; what is written is the
//! shortest spelling.
//!
//! Read first: `SpellsUleb` and `SpellsSleb` (`specs/Spelling.antt`), then `Input` (`specs/Input.antt`) and `uleb_at`
//! (`specs/Reading.antt`).
#![tactic(auto)]

mod cursor;
mod error;
mod groups;
mod laws;
mod writing;

pub use cursor::Cursor;
pub use error::ByteErr;
pub use laws::{fixed_laws, sleb_laws, uleb_laws};
pub use writing::{put_fixed, put_padded, put_sleb, put_uleb};
