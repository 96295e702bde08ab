//! What is new in a file.

use dwz_model::{Fault, Sections};

/// What is new in a file of which something moves.
#[derive(Debug, Drop)]
pub struct NewFile {
    /// Its sections; None stands for one that keeps its bytes, or isn't there.
    pub sections: Sections,
    /// The first operand of an expression whose new number needs more bytes than it has: in `.debug_info`, or else in
    /// `.debug_loclists` (DWARF 5, 2.5).
    pub narrow: Option<Fault>,
    /// Whether it imports from the common file.
    pub imports: bool,
}
