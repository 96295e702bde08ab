//! Of the tops of one file: what binds them, what they weigh, where their references go, which of them operands name; and which tops may
//! move.
//!
//! `EntryBinds` tells whether the rows of a top bind it, `EntryWeights` what a top weighs; `tops_of` gives for each reference of a file the top
//! that it goes into, `add_targets` the tops that a top refers to, and `mark_unit` marks the tops that operands of expressions of a unit
//! name (`Named`).
//! `movable_by` spreads what binds itself over references, through cycles and chains of any length. Over all files: `dwz_move_files`.
//!
//! Laws: `move_laws`, that a flag is set exactly where no chain of references binds the top; `stand_laws`, where the rows of a top stand.
//!
//! Read first: `Alike.antt` of `dwz_def_tops`, then `specs/BoundTops.antt`.
#![tactic(auto)]

mod bind;
mod binds;
mod declared;
mod into;
mod laws;
mod marks;
mod movable;
mod scan;
mod standing;
mod tops;
mod values;
mod weight;
mod weights;

pub use bind::TopRange;
pub use binds::EntryBinds;
pub use into::tops_of;
pub use laws::move_laws;
pub use marks::{Named, mark};
pub use movable::movable_by;
pub use scan::mark_unit;
pub use standing::stand_laws;
pub use tops::add_targets;
pub use weights::EntryWeights;
