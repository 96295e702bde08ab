//! Which files are together within the limits of what is read.
//!
//! Nothing is read of files that are too long, alone or together, or whose units have too many entries together. Whoever says of files
//! that they are read says so of files within these limits: a law on what is written has to, as what is written may be longer than what
//! was given.
//!
//! No code is here. Read first: `specs/Within.antt`.
#![tactic(auto)]

mod laws;

pub use laws::limit_laws;
