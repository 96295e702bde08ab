use dwz_model::Pairs;

/// A declaration: what the entries with a code have in common.
#[derive(Debug, Drop)]
pub struct Decl {
    /// Above 0.
    pub code: u64,
    /// The tag of the entries, as `DW_TAG_variable` is 0x34.
    pub tag: u16,
    /// Whether the entries have children.
    pub children: bool,
    /// The names and forms of the entries' attributes, in order.
    pub pairs: Pairs,
}
