//! What the definitions say of a small file over finished common files, computed, beside bytes that were written down from outside.
//!
//! There is no running code here: `proofs/` has lemmas, from the bytes of both files to what comes of them (`Comes`). A type that stands in the
//! common file is taken from there, and the file is put (`Taken`, `Whole`); a partial unit that has another type too isn't taken, and nothing
//! is put (`Left`); and a common file whose checksum differs is refused (`Refused`).
#![tactic(auto)]
