//! Entries, images and written units by their numbers over all files.
//!
//! All is over any move of the tops of files, also where what stands for a top is one of a finished common file, which is numbered behind.
//!
//! `starts` and `tops` number the entries of all files, `count_entries` and `count_tops` count them; `references` gives for each reference
//! of a file the number of what stands for its target after (`image`: two look-ups and one difference, since alike tops have trees of one
//! shape); `befores` counts texts and numbers of files. `UnitNumbers::make` numbers the units that are written, the common file's
//! first; `put_owners` says in which of them entries are written, and `put_own_units` of those of a finished common file.
//!
//! Laws: `count_laws`, `image_laws`, `owner_laws`, `reach_laws`, `plan_laws`, `over_laws`.
//!
//! Read first: `AllNames.antt` of `dwz_graph`, then `specs/Images.antt`, `specs/Owners.antt`.
#![tactic(auto)]

mod counted;
mod firsts;
mod images;
mod laws;
mod numbers;
mod owners;

pub use counted::{count_entries, count_tops, starts, tops};
pub use firsts::{CountsBefore, befores};
pub use images::{image, references};
pub use laws::{count_laws, image_laws, over_laws, owner_laws, plan_laws, reach_laws};
pub use numbers::UnitNumbers;
pub use owners::{put_own_units, put_owners};
