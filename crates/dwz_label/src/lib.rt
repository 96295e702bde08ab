//! Labels, bytes that are equal for two tops exactly if language, name list and bare tree are; and the nodes of tops.
//!
//! `put_language`, `put_text`, `put_ref` and the other `put_` calls append one piece of a label each. `labels_by` has several workers write
//! the labels of a `LabelWriter`, in stretches; `firsts` gives of each movable top the least one with an equal label, whatever the hashes
//! are. `nodes` makes a graph of it: a node for each top, with that number as its label and the tops that it refers to as its targets. So
//! what no look tells apart of nodes is what is alike of tops.
//!
//! Laws: `label_laws`, `made_laws`, `node_laws`. The label is written from rows by `dwz_label_entries`.
//!
//! Read first: `label_of` (`specs/Labels.antt`), `specs/Nodes.antt`.
#![tactic(auto)]

mod equal;
mod labels;
mod laws;
mod made;
mod pieces;
mod slots;
mod stretches;
mod writer;

pub use equal::firsts;
pub use labels::Labels;
pub use laws::{label_laws, made_laws, node_laws};
pub use made::nodes;
pub use pieces::{
    put_address, put_block, put_counted, put_expression, put_file, put_flag, put_index,
    put_language, put_list, put_no_file, put_num, put_number, put_offset, put_operand, put_ref,
    put_same, put_signature, put_text,
};
pub use stretches::labels_by;
pub use writer::LabelWriter;
