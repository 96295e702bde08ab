/// Why a number or a run of bytes couldn't be read, with the place of the first byte of what was read.
#[derive(Clone, Copy, Debug, PartialEq, Eq)]
pub enum ByteErr {
    /// The bytes end before it does.
    Short { at: usize },
    /// A LEB128 number that has more than ten bytes or more than 64 bits.
    Wide { at: usize },
}
