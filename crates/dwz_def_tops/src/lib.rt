//! Tops, spaces and names for places; which tops may move, and which are alike; what it is that units say the same.
//!
//! There is no running code here. `EntryName` names units, roots and entries, before and after, without an offset. `Movable` says which tops no
//! chain of references binds; `Alike` which two tops no look, of whatever depth, tells apart; `SameAlong` what it is that entries and units
//! say the same along a function of places, imports expanded (DWARF 5, 3.2.5).
//!
//! The laws (`alike_laws`): a look as deep as there are tops decides which tops are alike; chains of as many steps bind all that any chain
//! binds; being alike is an equivalence.
//!
//! Read first: `specs/Spaces.antt`, `specs/Spots.antt`, `specs/Alike.antt`; then `specs/Seen.antt`.
#![tactic(auto)]

mod alike;
mod names;

pub use alike::alike_laws;
pub use names::name_laws;
