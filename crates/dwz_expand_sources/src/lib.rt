//! The plan of what is written of a file without its partial units (DWARF 5, 3.2.5): which entries are the sources of each new unit, and
//! which copy an entry stands for there.
//!
//! `sources_of` goes over the units of a file that aren't partial, in order. Of each it answers the number and that of its root, and the
//! ranges of entries that stand below the root in the new file: those of the unit itself that import no partial unit, and behind them what
//! stands in the roots of the partial units that it imports. Nothing is copied: a range is two numbers. Entries of the common file have
//! the numbers behind the file's own.
//!
//! The entries of the ranges are those of `source_units` of `dwz_def_expand`, in preorder, each with all that is below it.
//!
//! `CopyNumbers` has the number that the root of each new unit and the first copy of each range have among all entries of the new file, by
//! sums.
//!
//! `SourceWalk` gives the sources of a new unit one by one, for passes over the entries that are written without partial units: their
//! numbers, from that of the root on, those of the file itself, and behind them those of the common file.
//!
//! `Copies::of` finds of each entry of the file and of its common file the first copy. `enter` goes to a new unit, and notes which entries
//! it has a copy of itself; then `copy_of` answers for each entry the copy that a reference in that unit leads to: the one in the same
//! unit, or else the first; or that no new unit has one. It answers the number of the unit, and that of the copy among the entries of all
//! new units. Each call of `enter` takes as long as the unit has entries, and `copy_of` just looks it up.
//!
//! Read first: `specs/Sources.antt`, `specs/Numbers.antt`, `specs/Walk.antt`, `specs/Copies.antt`, and `specs/Source.antt` of
//! `dwz_def_expand`.
#![tactic(auto)]

mod building;
mod copies;
mod numbers;
mod plan;
mod rows;
mod sources;
mod spans;
mod walk;

pub use copies::{Copies, CopyAt};
pub use numbers::CopyNumbers;
pub use plan::sources_of;
pub use sources::{NewUnit, SourceRange, Sources};
pub use walk::SourceWalk;
