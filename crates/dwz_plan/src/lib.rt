//! Which tops move into which partial units, by rows of tops and the least alike ones.
//!
//! `Plan::make` takes `Tops`, for each top the least one alike to it, and which files share (`Scope`); it answers a `Plan`: the partial
//! units (`partials`, each with its file, users and tops), where each top goes (`home`), what stands for it after (`stand_in`), and what
//! each unit keeps and imports (`kept`, `imports`). A group of tops moves if it gains (`gains_by_itself`), or if one of a group that
//! moves refers into it (`gaining_groups`). It knows no bytes.
//!
//! `Plan::with_common` plans the tops of files over a finished common file, of which `Fixed` says what they take: its partial units come
//! first, what is taken goes there, and what is free is planned in each file.
//!
//! The laws `plan_shows` and `plan_over_shows`: where rows show the tops of units, that is the plan of `dwz_def_plan`, or the move of
//! `dwz_def_taken`; there is just one.
//!
//! Read first: `specs/Rows.antt`, `specs/Planned.antt`, `specs/Shows.antt`; then `specs/Over.antt`, `specs/OverLaws.antt`.
#![tactic(auto)]

mod gain;
mod gained;
mod gaining;
mod homes;
mod laws;
mod moves;
mod over;
mod parted;
mod parts;
mod plan;
mod reps;
mod units;
mod users;

pub use gain::{gaining_groups, gains_by_itself};
pub use gaining::gain_laws;
pub use laws::{plan_over_shows, plan_shows};
pub use plan::{Home, Partial, Plan, Scope};
