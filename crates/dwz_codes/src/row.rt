use crate::shape::Shape;

/// A code with its layout and the standard's name for it, without the prefix, as `strp` for `DW_FORM_strp`.
#[derive(Clone, Copy, Debug)]
pub struct Row {
    pub code: u64,
    pub shape: Shape,
    pub name: &'static str,
}
