//! What is written of a unit, in order, as flat items with depths.
//!
//! `put_kept` appends the items of a compile unit that is kept: its root, what stays of its tops and spaces (pinned ones first), and
//! imports; `put_whole` those of a unit that stays as it is; `put_partial` those of a partial unit: tops in no space, then chains of spaces
//! by name list. An `Item` stands for all entries below a top at once, so an order is short; where children begin and lists end follows
//! from depths. `dwz_layout_order` calls it, `dwz_layout` walks what it gives.
//!
//! Laws: `line_laws`, `order_laws`.
//!
//! Read first: `specs/Lines.antt`, `specs/Order.antt`.
#![tactic(auto)]

mod chains;
mod kept;
mod laws;
mod order;
mod partial;

pub use kept::{put_kept, put_whole};
pub use laws::{line_laws, order_laws};
pub use order::{Item, ItemKind, Outer};
pub use partial::{SpaceRow, TopSpaces, put_partial};
