//! For each top of all files the least one that is alike to it, by labels, nodes and rounds.
//!
//! `least` takes the graph, flags of what may move and targets, and answers a number for each top, the same for every number of workers
//! and every gate; `labels` makes the labels of those that may move, `least_alike` goes from labels to the answer. The scope isn't asked:
//! a plan asks beside for equal files. `nodes` takes the graph and flags of what may move, and answers one node for each top: those of
//! alike tops no look tells apart. `label` is the label of one top, `bare` the same without the language, `count_tops` how many tops there
//! are.
//!
//! Laws: `plan_laws`, that by these numbers a plan decides, in either scope, just which tops are alike; `bare_laws`, which tops have one
//! bare label.
//!
//! Read first: `AreLeast` (`Nodes.antt` of `dwz_label`), `specs/Run.antt`.
#![tactic(auto)]

mod classes;
mod laws;
mod least_tops;
mod marked;
mod marks;
mod numbered;
mod run;
mod search;
mod spaces;
mod spot;
mod stretch;
mod top;
mod tops;
mod unit;
mod writer;

pub use classes::{least, nodes};
pub use laws::{bare_laws, plan_laws};
pub use least_tops::least_alike;
pub use tops::{bare, count_tops, label, labels};
