//! What values say.

use dwz_model::{Blob, Exprs, Pieces, Place};

/// What an attribute says (DWARF 5, 7.5.5).
#[derive(Debug, Drop)]
pub enum ValueView<'a> {
    /// A number. `width` is how many bytes it has, where its form doesn't say whether it is signed and its top bit is set, and else 0.
    Num { width: u8, value: i128 },
    Flag(bool),
    Bytes(&'a [u8]),
    Text(&'a [u8]),
    /// A file by its path, joined with that of its directory and that of the unit's (2.14); None where it is 0 in a unit without a line table.
    File(Option<Blob>),
    /// An entry.
    Ref(Place),
    /// The signature of a type.
    Sig(u64),
    Addr(u64),
    /// An index into a table of addresses or range lists.
    Index(u64),
    /// An offset into another section.
    Sec(u64),
    /// An expression (2.5), and whether it, or one inside it, has an address or the index of one.
    Expr { pieces: Pieces, address: bool },
    /// The expressions of a location list (2.6.2), and whether one of them has an address.
    Loc { exprs: Exprs, address: bool },
}
