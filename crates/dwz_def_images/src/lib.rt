//! The units that stand after, over all files with a common one; and that they say the same as before, along images.
//!
//! There is no running code here. `out_units` and `common_units` are the units after, by a move; `IsHeld` is what is asked of a move;
//! `OneImage` says which entries share an image. The laws (`same_laws`): the plan of any choice is held, and by any held move all units say
//! the same along images, each reference names an entry, entries share an image exactly where they move and nothing tells them apart, and a
//! file of which nothing moves stands as it was.
//!
//! Read first: `specs/Units.antt`, `specs/Held.antt`, `specs/Images.antt`.
#![tactic(auto)]

mod same;

pub use same::same_laws;
