//! The forms of attribute values (DWARF 5, 7.5.6), once: their codes, what a value of each occupies, what it stands for, and
//! its name.

ghost use Rattle.std.specs.Prelude.{◌≡◌};
ghost use Rattle.dwz_codes.specs.Classes;
ghost use Rattle.dwz_codes.specs.Forms.{form_rows};
ghost use Rattle.dwz_codes.specs.Rows.{shape_of};

use crate::class::Class;
use crate::codes::Codes;
use crate::row::Row;
use crate::shape::Shape;

pub const DW_FORM_ADDR: u64 = 0x01;

pub const DW_FORM_BLOCK2: u64 = 0x03;

pub const DW_FORM_BLOCK4: u64 = 0x04;

pub const DW_FORM_DATA2: u64 = 0x05;

pub const DW_FORM_DATA4: u64 = 0x06;

pub const DW_FORM_DATA8: u64 = 0x07;

pub const DW_FORM_STRING: u64 = 0x08;

pub const DW_FORM_BLOCK: u64 = 0x09;

pub const DW_FORM_BLOCK1: u64 = 0x0a;

pub const DW_FORM_DATA1: u64 = 0x0b;

pub const DW_FORM_FLAG: u64 = 0x0c;

pub const DW_FORM_SDATA: u64 = 0x0d;

pub const DW_FORM_STRP: u64 = 0x0e;

pub const DW_FORM_UDATA: u64 = 0x0f;

pub const DW_FORM_REF_ADDR: u64 = 0x10;

pub const DW_FORM_REF1: u64 = 0x11;

pub const DW_FORM_REF2: u64 = 0x12;

pub const DW_FORM_REF4: u64 = 0x13;

pub const DW_FORM_REF8: u64 = 0x14;

pub const DW_FORM_REF_UDATA: u64 = 0x15;

pub const DW_FORM_INDIRECT: u64 = 0x16;

pub const DW_FORM_SEC_OFFSET: u64 = 0x17;

pub const DW_FORM_EXPRLOC: u64 = 0x18;

pub const DW_FORM_FLAG_PRESENT: u64 = 0x19;

pub const DW_FORM_STRX: u64 = 0x1a;

pub const DW_FORM_ADDRX: u64 = 0x1b;

pub const DW_FORM_REF_SUP4: u64 = 0x1c;

pub const DW_FORM_STRP_SUP: u64 = 0x1d;

pub const DW_FORM_DATA16: u64 = 0x1e;

pub const DW_FORM_LINE_STRP: u64 = 0x1f;

pub const DW_FORM_REF_SIG8: u64 = 0x20;

pub const DW_FORM_IMPLICIT_CONST: u64 = 0x21;

pub const DW_FORM_LOCLISTX: u64 = 0x22;

pub const DW_FORM_RNGLISTX: u64 = 0x23;

pub const DW_FORM_REF_SUP8: u64 = 0x24;

pub const DW_FORM_STRX1: u64 = 0x25;

pub const DW_FORM_STRX2: u64 = 0x26;

pub const DW_FORM_STRX3: u64 = 0x27;

pub const DW_FORM_STRX4: u64 = 0x28;

pub const DW_FORM_ADDRX1: u64 = 0x29;

pub const DW_FORM_ADDRX2: u64 = 0x2a;

pub const DW_FORM_ADDRX3: u64 = 0x2b;

pub const DW_FORM_ADDRX4: u64 = 0x2c;

/// The list of forms, each with its shape, its class and its name, behind other words, for another macro.
macro_rules! with_forms {
    ($write:ident $($before:tt)*) => {
        $write! { $($before)*
            DW_FORM_ADDR Address Address "addr",
            DW_FORM_BLOCK2 Block2 Block "block2",
            DW_FORM_BLOCK4 Block4 Block "block4",
            DW_FORM_DATA2 Fixed2 Constant "data2",
            DW_FORM_DATA4 Fixed4 Constant "data4",
            DW_FORM_DATA8 Fixed8 Constant "data8",
            DW_FORM_STRING ZeroEnded Text "string",
            DW_FORM_BLOCK BlockUleb Block "block",
            DW_FORM_BLOCK1 Block1 Block "block1",
            DW_FORM_DATA1 Fixed1 Constant "data1",
            DW_FORM_FLAG Fixed1 Flag "flag",
            DW_FORM_SDATA Sleb Constant "sdata",
            DW_FORM_STRP Fixed4 TextInStr "strp",
            DW_FORM_UDATA Uleb Constant "udata",
            DW_FORM_REF_ADDR Fixed4 InfoEntry "ref_addr",
            DW_FORM_REF1 Fixed1 UnitEntry "ref1",
            DW_FORM_REF2 Fixed2 UnitEntry "ref2",
            DW_FORM_REF4 Fixed4 UnitEntry "ref4",
            DW_FORM_REF8 Fixed8 UnitEntry "ref8",
            DW_FORM_REF_UDATA Uleb UnitEntry "ref_udata",
            DW_FORM_INDIRECT Refused Unread "indirect",
            DW_FORM_SEC_OFFSET Fixed4 Offset "sec_offset",
            DW_FORM_EXPRLOC BlockUleb Expression "exprloc",
            DW_FORM_FLAG_PRESENT Nothing Flag "flag_present",
            DW_FORM_STRX Uleb TextBySlot "strx",
            DW_FORM_ADDRX Uleb Index "addrx",
            DW_FORM_REF_SUP4 Refused CommonEntry "ref_sup4",
            DW_FORM_STRP_SUP Refused CommonText "strp_sup",
            DW_FORM_DATA16 Fixed16 Block "data16",
            DW_FORM_LINE_STRP Fixed4 TextInLineStr "line_strp",
            DW_FORM_REF_SIG8 Fixed8 Signature "ref_sig8",
            DW_FORM_IMPLICIT_CONST Nothing Constant "implicit_const",
            DW_FORM_LOCLISTX Uleb ListIndex "loclistx",
            DW_FORM_RNGLISTX Uleb Index "rnglistx",
            DW_FORM_REF_SUP8 Refused Unread "ref_sup8",
            DW_FORM_STRX1 Fixed1 TextBySlot "strx1",
            DW_FORM_STRX2 Fixed2 TextBySlot "strx2",
            DW_FORM_STRX3 Fixed3 TextBySlot "strx3",
            DW_FORM_STRX4 Fixed4 TextBySlot "strx4",
            DW_FORM_ADDRX1 Fixed1 Index "addrx1",
            DW_FORM_ADDRX2 Fixed2 Index "addrx2",
            DW_FORM_ADDRX3 Fixed3 Index "addrx3",
            DW_FORM_ADDRX4 Fixed4 Index "addrx4",
        }
    };
}

macro_rules! rows {
    ($($code:ident $shape:ident $class:ident $name:literal,)*) => {
        [$(Row { code: $code, shape: Shape::$shape, name: $name }),*]
    };
}

macro_rules! shape {
    ($form:ident: $($code:ident $shape:ident $class:ident $name:literal,)*) => {
        match $form { $($code => Shape::$shape,)* _ => Shape::Refused }
    };
}

macro_rules! class {
    ($form:ident: $($code:ident $shape:ident $class:ident $name:literal,)*) => {
        match $form { $($code => Class::$class,)* _ => Class::Unread }
    };
}

/// The table of forms. A row's shape says what a value of the form occupies.
#[tactic(auto, unfolding(crate::specs::Forms::form_rows))]
pub fn forms() -> Codes<43>
    ensures { result ≡ form_rows }
{
    static ROWS: [Row; 43] = with_forms!(rows);
    Codes::new(&ROWS)
}

/// What a value of a form occupies; a form without a row isn't read.
#[inline(always)]
#[tactic(auto, unfolding(crate::specs::Forms::form_rows))]
pub fn form_shape(form: u64) -> Shape
    ensures { result ≡ shape_of form_rows form }
{
    with_forms!(shape form:)
}

/// What the number or the bytes of a form stand for.
#[inline(always)]
#[tactic(auto, unfolding(crate::specs::Classes::class_in, crate::specs::Classes::class_rows))]
pub fn class_of(form: u64) -> Class
    ensures { result ≡ Classes.class_of form }
{
    with_forms!(class form:)
}
