//! What attributes say.

use dwz_graph_view::ValueView;
use dwz_model::{Blob, Piece, Pieces};

// Bytes, two digits each.
fn show_bytes(rt: &impl Print, bytes: &[u8]) -> anyhow::Result<()> {
    for byte in bytes {
        print!(rt; " {byte:02x}")?;
    }
    Ok(())
}

/// A text; what is no printable character of ASCII as a number.
pub(crate) fn show_text(rt: &impl Print, text: &[u8]) -> anyhow::Result<()> {
    print!(rt; " \"")?;
    for byte in text {
        if (b' '..=b'~').contains(byte) {
            print!(rt; "{}", char::from(*byte))?;
        } else {
            print!(rt; "\\x{byte:02x}")?;
        }
    }
    print!(rt; "\"")?;
    Ok(())
}

// The pieces of an expression: bytes, and the places of the entries that it names.
fn show_pieces(rt: &impl Print, pieces: &Pieces) -> anyhow::Result<()> {
    for piece in pieces.as_slice() {
        match piece {
            Piece::Raw(bytes) => show_bytes(rt, bytes.as_slice())?,
            Piece::Ref {
                place,
                width: _,
                uleb: _,
                base: _,
            } => print!(rt; " <0x{:x}>", place.offset)?,
        }
    }
    Ok(())
}

// The path of a file.
fn show_path(rt: &impl Print, path: &Option<Blob>) -> anyhow::Result<()> {
    match path {
        None => print!(rt; " no file")?,
        Some(path) => show_text(rt, path.as_slice())?,
    }
    Ok(())
}

/// What an attribute says.
pub(crate) fn show_value(rt: &impl Print, value: &ValueView<'_>) -> anyhow::Result<()> {
    match value {
        ValueView::Num {
            width: _,
            value: number,
        } => print!(rt; " {number}")?,
        ValueView::Flag(set) => print!(rt; " {set}")?,
        ValueView::Bytes(bytes) => show_bytes(rt, bytes)?,
        ValueView::Text(text) => show_text(rt, text)?,
        ValueView::File(path) => show_path(rt, path)?,
        ValueView::Ref(place) => print!(rt; " <0x{:x}>", place.offset)?,
        ValueView::Sig(signature) => print!(rt; " signature 0x{signature:x}")?,
        ValueView::Addr(address) => print!(rt; " 0x{address:x}")?,
        ValueView::Index(index) => print!(rt; " index {index}")?,
        ValueView::Sec(offset) => print!(rt; " offset 0x{offset:x}")?,
        ValueView::Expr { pieces, address: _ } => {
            print!(rt; " expression:")?;
            show_pieces(rt, pieces)?;
        }
        ValueView::Loc { exprs, address: _ } => {
            print!(rt; " location list:")?;
            for pieces in exprs.as_slice() {
                print!(rt; " [")?;
                show_pieces(rt, pieces)?;
                print!(rt; " ]")?;
            }
        }
    }
    Ok(())
}
