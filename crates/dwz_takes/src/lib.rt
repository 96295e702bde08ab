//! What units take from a finished common file, by rows of tops and classes.
//!
//! A unit takes a partial unit if it has all that this holds, and takes each partial unit that this refers to: so what it takes is what is
//! left once all is taken away that it can't take, or that refers to what was taken away. `takes` finds that for each unit: the rarest
//! class of a partial unit names the units that may take it, so that only these look at it (`Tables`); marks of what a unit has tell which
//! it can take (`fits`), and what it misses spreads backwards over references (`drop_missing`). A unit is gone through by itself, so units
//! may be cut into stretches (`taken_between`).
//!
//! `images` tells of each top of a unit as which top of these partial units it is taken, and `blocked` which tops have to stay, since only
//! some of those alike to them in their file, or to what they refer to, are taken.
//!
//! Read first: `specs/Takes.antt`, `specs/Images.antt`, `specs/Blocked.antt`.
#![tactic(auto)]

mod fits;
mod flags;
mod imaged;
mod lists;
mod missing;
mod rows;
mod staying;
mod tables;
mod taken;
mod watch;

pub use imaged::images;
pub use rows::Rows;
pub use staying::blocked;
pub use taken::takes;
