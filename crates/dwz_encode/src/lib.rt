//! The bytes of units, once all entries have their places.
//!
//! `info_of` gives `.debug_info` of a file by the finished layout, `put_unit` appends one unit, which depends on no other; `too_large`
//! names the least section that would have too many bytes. `info_by` writes the same by several workers; no run calls it.
//!
//! The law `layout_laws`: where an order shows the units of files, what is laid and written are the very sections of `dwz_def_encoding`,
//! and each entry has the place of its name. `standing_laws`: so it is over a common file that stands already.
//!
//! Read first: `specs/Pages.antt`, `specs/Laws.antt`.
#![tactic(auto)]

mod info;
mod laws;
mod limits;
mod numbers;
mod pages;
mod parts;
mod stretches;
mod units;
mod values;

pub use info::info_by;
pub use laws::{layout_laws, standing_laws};
pub use limits::too_large;
pub use units::{info_of, put_unit};
