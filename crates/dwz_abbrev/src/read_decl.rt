/// A declaration that was read: what the entries with a code have in common. Its names and forms are a part of a row.
#[derive(Clone, Copy, Debug)]
pub struct ReadDecl {
    /// Above 0.
    pub code: u64,
    /// Where in the row the names and forms of the entries' attributes begin.
    pub first: usize,
    /// How many of them there are.
    pub count: usize,
    /// The tag of the entries, as `DW_TAG_variable` is 0x34.
    pub tag: u16,
    /// Whether the entries have children.
    pub children: bool,
}
