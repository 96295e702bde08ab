//! What rows of tops say of the documents that they show: the partial units that `dwz_takes` finds for each unit are those that it takes by
//! the definitions, the images are those, and so are the tops that have to stay.
//!
//! Read first: `specs/Shown.antt`, then `specs/ShownLaws.antt`.
#![tactic(auto)]

mod laws;

pub use laws::shown_laws;
