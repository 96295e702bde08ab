//! Where each entry of the output stands, with codes and abbreviation tables, before any byte is written.
//!
//! `Layout::make` takes `EntryTable` and the orders of the files, and answers for each file where its units, their tables and all entries stand
//! (`FileLayout`, `Spots`). No length depends on a number, so one pass does. `Layout::over` does the same over a common file that stands
//! already. `Walk` gives the entries of a unit one by one; `dwz_encode` walks the same way. `Shapes` gives codes by first
//! use, `Tables` keeps each table once. `EntryTable`, filled by `dwz_layout_input`, and `FileItems`, by `dwz_layout_order`, are types of this
//! crate.
//!
//! A form that isn't written as it is read is a row of `way_of`.
//!
//! Read first: `specs/Known.antt`, `specs/Attributes.antt`, `specs/Ways.antt`, `specs/Laid.antt`; and `Writing.antt` of `dwz_def_encoding`.
#![tactic(auto)]

mod codes;
mod exprs;
mod known;
mod laying;
mod layout;
mod order;
mod pairs;
mod shapes;
mod sizes;
mod slots;
mod standing;
mod tables;
mod walk;
mod ways;

pub use exprs::read_operands;
pub use known::{EntryTable, FileRows, Row, SpaceRow, TextAt, ValueCounts};
pub use layout::{FileLayout, Layout, OutUnit, Spots, behind};
pub use order::{FileItems, Sort, UnitItems};
pub use pairs::form_to;
pub use shapes::Shapes;
pub use sizes::{content_of, more};
pub use tables::Tables;
pub use walk::{Entry, Origin, Slot, Walk};
pub use ways::{Rewrite, UnitRole, WritingContext, here_of, way_of};
