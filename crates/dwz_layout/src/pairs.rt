//! Names and forms that are written.

ghost use Rattle.std.specs.Prelude.{◌≡◌, ◌<◌};
ghost use Rattle.dwz_def_reading.specs.Abbrevs.{IsPlainPair};
ghost use Rattle.dwz_layout.specs.Attributes;
ghost use Rattle.dwz_layout.specs.Attributes.{plain_pair};

use crate::known::{EntryTable, TextAt};
use dwz_codes::{
    DW_AT_IMPORT, DW_AT_STMT_LIST, DW_FORM_EXPRLOC, DW_FORM_REF_ADDR, DW_FORM_REF_SUP4,
    DW_FORM_REF4, DW_FORM_SEC_OFFSET, DW_FORM_STRP, DW_FORM_STRP_SUP, DW_FORM_UDATA,
};
use dwz_model::Pair;

// A name and a form without a constant.
#[inline(always)]
fn plain(name: u16, form: u64) -> Pair
    requires name { 0 < name }
    requires form { 0 < form }
    ensures pair { result ≡ plain_pair name form }
    ensures plain { IsPlainPair result }
{
    Pair {
        name,
        form,
        constant: 0,
    }
}

/// The form of a reference, in a unit, to what stands in another one.
#[inline(always)]
pub fn form_to(known: &EntryTable, here: u32, unit: u32) -> u64
    ensures form { result ≡ Attributes.form_to known.now here unit }
    ensures some { 0 < result }
{
    if unit == here {
        DW_FORM_REF4
    } else if (unit < known.commons) == (here < known.commons) {
        DW_FORM_REF_ADDR
    } else {
        DW_FORM_REF_SUP4
    }
}

/// The name and the form of a reference to an entry, by its number among all files, in a unit.
#[inline(always)]
pub fn entry_pair(known: &EntryTable, here: u32, name: u16, number: u32) -> Pair
    requires { 0 < name }
    ensures pair { result ≡ (Attributes.entry_attr known.now here name number).pair }
    ensures plain { IsPlainPair result }
{
    plain(name, form_to(known, here, known.owner(number)))
}

/// The name and the form of a text, by where it is written.
#[inline(always)]
pub fn text_pair(name: u16, text: TextAt) -> Pair
    requires { 0 < name }
    ensures pair { result ≡ (Attributes.text_attr name text).pair }
    ensures plain { IsPlainPair result }
{
    match text {
        TextAt::Own(_) => plain(name, DW_FORM_STRP),
        TextAt::Shared(_) => plain(name, DW_FORM_STRP_SUP),
        TextAt::Pooled(_) => plain(name, DW_FORM_STRP),
    }
}

/// The name and the form of the number of a path.
#[inline(always)]
pub fn file_pair(name: u16) -> Pair
    requires { 0 < name }
    ensures pair { result ≡ plain_pair name 0x0f }
    ensures plain { IsPlainPair result }
{
    plain(name, DW_FORM_UDATA)
}

/// The name and the form of an expression.
#[inline(always)]
pub fn expr_pair(name: u16) -> Pair
    requires { 0 < name }
    ensures pair { result ≡ plain_pair name 0x18 }
    ensures plain { IsPlainPair result }
{
    plain(name, DW_FORM_EXPRLOC)
}

/// The name and the form of an import of a unit, in another one.
pub fn import_pair(known: &EntryTable, here: u32, unit: u32) -> Pair
    ensures pair { result ≡ (Attributes.import_attr known.now here unit).pair }
    ensures plain { IsPlainPair result }
{
    plain(DW_AT_IMPORT, form_to(known, here, unit))
}

/// The name and the form of the line table of a partial unit.
pub fn line_pair() -> Pair
    ensures pair { result ≡ plain_pair 0x10 0x17 }
    ensures plain { IsPlainPair result }
{
    plain(DW_AT_STMT_LIST, DW_FORM_SEC_OFFSET)
}
