/// What the value of an attribute stores: a number or an offset, or the bytes of a text or a block.
#[derive(Clone, Copy, Debug, PartialEq, Eq)]
pub enum Raw<'a> {
    Number(i128),
    /// Without the length before a block or the zero byte after a text.
    Bytes(&'a [u8]),
}
