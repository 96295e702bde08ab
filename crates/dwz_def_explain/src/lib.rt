//! Why two tops that may move aren't alike: the least chain of references that tells them apart, and what differs at its end.
//!
//! There is no running code here. A chain leads from both tops, reference by reference, to two that differ by themselves. The least chain
//! has the fewest references, and of those as long the lowest numbers. What differs at its end is the language, or the spaces, or the first
//! entries in preorder that differ by tag, attribute or number of children. A `Verdict` says all this, and `explained_text` prints it.
//! `Explains` says what is printed of two places, or which of them is refused since no top that may move begins there.
//!
//! The laws: the depth of the least chain is the least at which a look tells the two tops apart, and where there is no chain they are
//! alike (`chain_laws`); what differs tells the tops apart (`what_laws`); there is one verdict on two tops that may move (`verdict_laws`);
//! and one answer to two places (`place_laws`).
//!
//! Read first: `specs/Chain.antt`, `specs/What.antt`, `specs/Explained.antt`; then `specs/Places.antt`.
#![tactic(auto)]

mod laws;
mod verdict;

pub use laws::{chain_laws, place_laws, verdict_laws, what_laws};
pub use verdict::{Verdict, What};
