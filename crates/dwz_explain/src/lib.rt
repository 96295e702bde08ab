//! Why two tops aren't shared: the least chain of references that tells them apart, and what differs at its end, or that they are alike.
//!
//! `explain_places` takes two places and gives the text that is printed of the tops that begin there, or the refusal of the first place at
//! which no top begins that may move. It stands on `movable_at`, which finds the top at a place in the rows of an outline, `explain`, which
//! gives the verdict on two tops, and `explain_text`, which prints it.
//!
//! For a verdict all tops that may move get labels and nodes, as where the least alike tops are found. `dwz_nodes_chains` finds the least
//! chain between the two nodes, and `dwz_label_differences` reads from the labels of the tops at its end what differs. The laws of
//! `dwz_law_explain` say that this is the verdict. For the text a chain is followed by the targets of the outline, and a path from child to
//! child by the rows of entries.
//!
//! Read first: `specs/Places.antt`, `specs/Explained.antt` and `specs/Texts.antt` of `dwz_def_explain`.
#![tactic(auto)]

mod asked;
mod attribute_at;
mod children;
mod differences;
mod found;
mod lines;
mod movable;
mod places;
mod spots;
mod texts;
mod verdicts;
mod words;

pub use movable::movable_at;
pub use places::explain_places;
pub use texts::explain_text;
pub use verdicts::explain;
