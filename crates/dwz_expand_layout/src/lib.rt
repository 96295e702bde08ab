//! Where the entries of new units stand, and the bytes of these units, where an entry that was read may have many copies.
//!
//! A new unit is given entry by entry, in preorder, with what each attribute stores (`NewEntry`), twice: `Laying` measures, and gives
//! a `NewLayout`; `Writing` writes by it. No length depends on a number, so one pass measures. Copies are the entries of all new units,
//! numbered from 0, unit by unit, and in each from its root on, in preorder; an entry is named by the number of a copy.
//!
//! Each takes a unit by `begin`, `add` for each entry, and, where it is laid, `end`. Shapes of entries and tables are found by ordered
//! maps, as in any file that is written (`Shapes`, `Tables`).
//!
//! The law `layout_laws`: where the new units show those of a file that is written without its partial units, what is laid and written
//! are the very sections of `dwz_def_expand`, and each unit and each copy stands where its key does. Entries that stand as deep as those of
//! a unit show it (`specs/Depths.antt`).
//!
//! Read first: `specs/Entries.antt`, `specs/Laid.antt`, `specs/Written.antt`, `specs/Shown.antt`, `specs/Laws.antt`.
#![tactic(auto)]

mod entries;
mod laws;
mod laying;
mod layout;
mod numbers;
mod parts;
mod sizes;
mod values;
mod writing;

pub use entries::{Content, NewAttr, NewEntry, NewExpression, NewKind, NewOperand};
pub use laws::layout_laws;
pub use laying::Laying;
pub use layout::{LaidUnit, NewLayout};
pub use writing::Writing;
