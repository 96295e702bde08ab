//! Where tops go: users, homes, which groups gain, partial units, what is kept, and imports.
//!
//! There is no running code here. Of units with names: `users`, `rep` and `candidate` of a top; a `Rule` says which tops are alike and
//! which of them are chosen, `gain_rule` chooses those whose groups gain; `partials`, `kept_row` and `imports` follow, and all of it
//! together is a `Move`. `specs/IsPlan.antt` asks of these what a reader would ask, and the laws say that they meet it, for any such rule
//! (`choice_laws`, `plan_laws`).
//!
//! Read first: `specs/Homes.antt`, `specs/Gain.antt`, `specs/IsPlan.antt`. Code that makes a plan: `dwz_plan`.
#![tactic(auto)]

mod plan;

pub use plan::{choice_laws, plan_laws};
