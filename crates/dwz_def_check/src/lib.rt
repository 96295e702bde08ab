//! How it is decided whether two files mean the same, imports expanded (DWARF 5, 3.2.5 and 7.3.6).
//!
//! What is answered on two files (`Same`) is said in `Answer`; there is one answer at most (`answer_laws`). All else is the way to it.
//!
//! Tops of both files and of their common one have numbers, and each place has a name: in a top by its number and a path, else by what it is
//! (`CrossNames`). A label of a top says all but which tops its references go into (`CrossLabels`). Nodes show tops, and behind them
//! roots and spaces, by labels and targets (`CrossNodes`). With the classes of alike nodes units have rows of numbers, and two files mean
//! the same where their rows are the same (`CrossRows`); rows are made of lists of classes (`CrossLists`).
//!
//! No code is here but the answer's type: definitions, and the laws that tie them to looks across files and to what files mean (`read_laws`,
//! `name_laws`, `label_laws`, `cross_node_laws`, `list_laws`, `row_laws`; all of it in `decided_laws`; `sorted_laws` on lists). Read first: `specs/Answer.antt`; then
//! `specs/CrossNames.antt`, `specs/CrossNodes.antt`, `specs/CrossRows.antt`.
#![tactic(auto)]

mod laws;
mod same;

pub use laws::{
    answer_laws, cross_node_laws, decided_laws, label_laws, list_laws, name_laws, read_laws,
    row_laws, sorted_laws,
};
pub use same::Same;
