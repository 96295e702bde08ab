//! Sets of forms, and what a value of a form occupies where it is one of them.

ghost use Rattle.std.specs.Prelude.{◌≡◌, false, true};
ghost use Rattle.dwz_codes.specs.Forms.{form_rows};
ghost use Rattle.dwz_codes.specs.Rows.{has, shape_of};
ghost use Rattle.dwz_def_reading.specs.Entries.{codes_of_all, codes_of_common, forms_of_common};
ghost use Rattle.dwz_def_reading.specs.Modes.{binding_forms, free_forms};
ghost use Rattle.dwz_def_reading.specs.Values.{written_rows};
ghost use Rattle.dwz_forms.specs.FormSets.{rows_of};

use dwz_codes::{
    DW_FORM_ADDR, DW_FORM_ADDRX, DW_FORM_ADDRX1, DW_FORM_ADDRX2, DW_FORM_ADDRX3, DW_FORM_ADDRX4,
    DW_FORM_BLOCK, DW_FORM_BLOCK1, DW_FORM_BLOCK2, DW_FORM_BLOCK4, DW_FORM_DATA1, DW_FORM_DATA2,
    DW_FORM_DATA4, DW_FORM_DATA8, DW_FORM_DATA16, DW_FORM_EXPRLOC, DW_FORM_FLAG,
    DW_FORM_FLAG_PRESENT, DW_FORM_IMPLICIT_CONST, DW_FORM_LOCLISTX, DW_FORM_REF_ADDR,
    DW_FORM_REF_SIG8, DW_FORM_REF_SUP4, DW_FORM_REF4, DW_FORM_RNGLISTX, DW_FORM_SDATA,
    DW_FORM_SEC_OFFSET, DW_FORM_STRING, DW_FORM_STRP, DW_FORM_STRP_SUP, DW_FORM_UDATA, Shape,
    form_shape,
};

/// Which forms are read.
#[derive(Clone, Copy, Debug, PartialEq, Eq)]
pub enum FormSet {
    /// Those of a file by itself.
    Own,
    /// Those of a file beside a supplementary file (DWARF 5, 7.3.6): also `DW_FORM_ref_sup4` and `DW_FORM_strp_sup`.
    Beside,
    /// Those of `Own` without an address, an index, and an offset of another section.
    OwnFree,
    /// Those of `Beside` without these.
    BesideFree,
    /// Those that are written in a common file.
    Common,
    /// Also `DW_FORM_sec_offset`, as in the roots of a common file.
    CommonRoot,
}

/// What a value of a form occupies, of the forms that are written: those that are read, and two that name what a supplementary
/// file holds (DWARF 5, 7.3.6).
#[inline(always)]
pub(crate) fn written_shape(form: u64) -> Shape
    ensures { result ≡ shape_of written_rows form }
{
    match form {
        DW_FORM_REF_SUP4 | DW_FORM_STRP_SUP => Shape::Fixed4,
        form => form_shape(form),
    }
}

/// Whether a form binds to the place of its value: what it stores is an address, an index of one, an offset of another section, or an index
/// of a list.
#[inline(always)]
#[tactic(auto, unfolding(dwz_codes::specs::Rows::has))]
pub fn is_binding(form: u64) -> bool
    ensures { result ≡ has form binding_forms }
{
    match form {
        DW_FORM_ADDR
        | DW_FORM_SEC_OFFSET
        | DW_FORM_ADDRX
        | DW_FORM_LOCLISTX
        | DW_FORM_RNGLISTX
        | DW_FORM_ADDRX1
        | DW_FORM_ADDRX2
        | DW_FORM_ADDRX3
        | DW_FORM_ADDRX4 => true,
        _ => false,
    }
}

// Whether a form is written in a common file.
#[tactic(auto, unfolding(dwz_codes::specs::Rows::has))]
fn is_common(form: u64) -> bool
    ensures { result ≡ has form codes_of_all }
{
    match form {
        DW_FORM_BLOCK1
        | DW_FORM_BLOCK2
        | DW_FORM_BLOCK4
        | DW_FORM_BLOCK
        | DW_FORM_DATA1
        | DW_FORM_DATA2
        | DW_FORM_DATA4
        | DW_FORM_DATA8
        | DW_FORM_STRING
        | DW_FORM_FLAG
        | DW_FORM_FLAG_PRESENT
        | DW_FORM_SDATA
        | DW_FORM_UDATA
        | DW_FORM_IMPLICIT_CONST
        | DW_FORM_STRP
        | DW_FORM_REF_ADDR
        | DW_FORM_REF4
        | DW_FORM_REF_SIG8
        | DW_FORM_EXPRLOC
        | DW_FORM_DATA16 => true,
        _ => false,
    }
}

// Whether a form stands in the root of a unit of a common file.
#[tactic(auto, unfolding(dwz_codes::specs::Rows::has))]
fn is_common_root(form: u64) -> bool
    ensures { result ≡ has form (codes_of_common true) }
{
    match form {
        DW_FORM_SEC_OFFSET => true,
        form => is_common(form),
    }
}

fn own_free_shape(form: u64) -> Shape
    ensures { result ≡ shape_of (free_forms form_rows) form }
{
    if is_binding(form) {
        return Shape::Refused;
    }
    form_shape(form)
}

fn beside_free_shape(form: u64) -> Shape
    ensures { result ≡ shape_of (free_forms written_rows) form }
{
    if is_binding(form) {
        return Shape::Refused;
    }
    written_shape(form)
}

fn common_shape(form: u64) -> Shape
    ensures { result ≡ shape_of (forms_of_common 0 false) form }
{
    if is_common(form) {
        return form_shape(form);
    }
    Shape::Refused
}

fn common_root_shape(form: u64) -> Shape
    ensures { result ≡ shape_of (forms_of_common 0 true) form }
{
    if is_common_root(form) {
        return form_shape(form);
    }
    Shape::Refused
}

/// What a value of a form occupies, if it is one of the set.
#[inline(always)]
pub(crate) fn shape_among(forms: FormSet, form: u64) -> Shape
    ensures { result ≡ shape_of (rows_of forms) form }
{
    match forms {
        FormSet::Own => form_shape(form),
        FormSet::Beside => written_shape(form),
        FormSet::OwnFree => own_free_shape(form),
        FormSet::BesideFree => beside_free_shape(form),
        FormSet::Common => common_shape(form),
        FormSet::CommonRoot => common_root_shape(form),
    }
}
