//! A file whose entries have names.

ghost use Rattle.std.specs.Prelude.{◌≡◌, ◌<◌, Some, length, slice_get};

use dwz_check_index::CrossIndex;
use dwz_graph::{Here, InputSections};
use dwz_unit::Units;

/// A file that was read, with what its entries are called.
#[derive(Clone, Copy)]
pub struct NamedFile<'s, 'a> {
    pub units: &'s Units<'a>,
    pub sections: &'s InputSections<'a>,
    /// `.debug_str` of the common file beside which it was read; empty, where there is none.
    pub common_strs: &'a [u8],
    pub index: &'s CrossIndex,
    /// Of each unit what its values stand in.
    pub heres: &'s [Here],
}

/// What the values of the unit with a number stand in.
#[inline(always)]
pub(crate) fn here_at<'s>(file: &NamedFile<'s, '_>, unit: u32) -> &'s Here
    requires { unit < length file.now.heres.now }
    ensures { slice_get file.now.heres.now unit ≡ Some result.now }
{
    &file.heres[unit as usize]
}
