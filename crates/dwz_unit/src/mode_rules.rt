//! Which units are read of a file, and which forms.

ghost use Rattle.std.specs.Prelude.{◌≡◌, ◌==◌};
ghost use Rattle.dwz_def_reading.specs.Entries.{forms_of_common};
ghost use Rattle.dwz_def_reading.specs.Modes.{forms_of_back, forms_with, free_forms};
ghost use Rattle.dwz_def_reading.specs.Units;
ghost use Rattle.dwz_forms.specs.FormSets.{rows_of};
ghost use Rattle.dwz_unit.specs.Modes.{forms_of, mode_view, reads_partial, reads_whole};

use crate::mode::{FileKind, Mode};
use dwz_codes::{DW_TAG_PARTIAL_UNIT, DW_UT_COMPILE, DW_UT_PARTIAL, DW_UT_TYPE};
use dwz_forms::FormSet;

// The forms of a common file.
#[inline(always)]
fn common_set(is_root: bool) -> FormSet
    ensures { rows_of result ≡ forms_of_common 0 is_root }
{
    if is_root {
        return FormSet::CommonRoot;
    }
    FormSet::Common
}

// All forms, with a supplementary file at hand or without one.
#[inline(always)]
fn set_with(sup: bool) -> FormSet
    ensures { rows_of result ≡ forms_with sup }
{
    if sup {
        return FormSet::Beside;
    }
    FormSet::Own
}

// Those of them that may stand in a partial unit below its root.
#[inline(always)]
fn free_set_with(sup: bool) -> FormSet
    ensures { rows_of result ≡ free_forms (forms_with sup) }
{
    if sup {
        return FormSet::BesideFree;
    }
    FormSet::OwnFree
}

// The forms of a file that is read back, in a unit whose root has that tag.
#[inline(always)]
fn back_set(sup: bool, root_tag: u16, is_root: bool) -> FormSet
    ensures { rows_of result ≡ forms_of_back sup root_tag is_root }
{
    if is_root {
        return set_with(sup);
    }
    if root_tag == DW_TAG_PARTIAL_UNIT {
        return free_set_with(sup);
    }
    set_with(sup)
}

impl FileKind {
    // Whether compile and type units are read.
    fn reads_whole(self) -> bool
        ensures { result ≡ reads_whole self }
    {
        match self {
            FileKind::Given | FileKind::Back { .. } => true,
            FileKind::Common => false,
        }
    }

    // Whether partial units are read.
    fn reads_partial(self) -> bool
        ensures { result ≡ reads_partial self }
    {
        match self {
            FileKind::Given => false,
            FileKind::Common | FileKind::Back { .. } => true,
        }
    }

    // The forms of a unit whose root has that tag: those of the root, or those of other entries.
    #[inline(always)]
    fn forms(self, root_tag: u16, is_root: bool) -> FormSet
        ensures { rows_of result ≡ forms_of self root_tag is_root }
    {
        match self {
            FileKind::Given => FormSet::Own,
            FileKind::Common => common_set(is_root),
            FileKind::Back { sup } => back_set(sup, root_tag, is_root),
        }
    }
}

impl Mode {
    /// Whether units of a type are read (DWARF 5, 7.5.1).
    pub(crate) fn reads_unit(&self, unit_type: u8) -> bool
        ensures { result ≡ Units.is_read (mode_view self.now) unit_type }
    {
        match unit_type {
            DW_UT_COMPILE | DW_UT_TYPE => self.kind.reads_whole(),
            DW_UT_PARTIAL => self.kind.reads_partial(),
            _ => false,
        }
    }

    /// The forms of an entry at a depth, where a root has depth 1, in a unit whose root has that tag.
    #[inline(always)]
    pub(crate) fn forms(&self, root_tag: u16, depth: u32) -> FormSet
        ensures { rows_of result ≡ (mode_view self.now).forms root_tag (depth == 1) }
    {
        self.kind.forms(root_tag, depth == 1)
    }
}
