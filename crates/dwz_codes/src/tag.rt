//! The codes of tags (DWARF 5, 7.5.3), and the names of those that are printed by name.

ghost use Rattle.std.specs.Prelude.{◌≡◌};
ghost use Rattle.dwz_codes.specs.Tags.{tag_rows};

use crate::codes::Codes;
use crate::row::Row;
use crate::shape::Shape;

pub const DW_TAG_ARRAY_TYPE: u16 = 0x01;

pub const DW_TAG_CLASS_TYPE: u16 = 0x02;

pub const DW_TAG_ENUMERATION_TYPE: u16 = 0x04;

pub const DW_TAG_FORMAL_PARAMETER: u16 = 0x05;

pub const DW_TAG_LEXICAL_BLOCK: u16 = 0x0b;

pub const DW_TAG_MEMBER: u16 = 0x0d;

pub const DW_TAG_POINTER_TYPE: u16 = 0x0f;

pub const DW_TAG_COMPILE_UNIT: u16 = 0x11;

pub const DW_TAG_STRUCTURE_TYPE: u16 = 0x13;

pub const DW_TAG_SUBROUTINE_TYPE: u16 = 0x15;

pub const DW_TAG_TYPEDEF: u16 = 0x16;

pub const DW_TAG_UNION_TYPE: u16 = 0x17;

pub const DW_TAG_INLINED_SUBROUTINE: u16 = 0x1d;

pub const DW_TAG_SUBRANGE_TYPE: u16 = 0x21;

pub const DW_TAG_BASE_TYPE: u16 = 0x24;

pub const DW_TAG_CONST_TYPE: u16 = 0x26;

pub const DW_TAG_CONSTANT: u16 = 0x27;

pub const DW_TAG_ENUMERATOR: u16 = 0x28;

pub const DW_TAG_SUBPROGRAM: u16 = 0x2e;

pub const DW_TAG_VARIABLE: u16 = 0x34;

pub const DW_TAG_VOLATILE_TYPE: u16 = 0x35;

pub const DW_TAG_NAMESPACE: u16 = 0x39;

pub const DW_TAG_UNSPECIFIED_TYPE: u16 = 0x3b;

pub const DW_TAG_PARTIAL_UNIT: u16 = 0x3c;

pub const DW_TAG_IMPORTED_UNIT: u16 = 0x3d;

pub const DW_TAG_TYPE_UNIT: u16 = 0x41;

macro_rules! rows {
    ($($code:ident $name:literal,)*) => {
        [$(Row { code: $code as u64, shape: Shape::Nothing, name: $name }),*]
    };
}

/// The names of tags that are printed; any other is printed as a number.
#[tactic(auto, unfolding(crate::specs::Tags::tag_rows))]
pub fn tag_names() -> Codes<24>
    ensures { result ≡ tag_rows }
{
    static ROWS: [Row; 24] = rows! {
        DW_TAG_ARRAY_TYPE "array_type",
        DW_TAG_CLASS_TYPE "class_type",
        DW_TAG_ENUMERATION_TYPE "enumeration_type",
        DW_TAG_FORMAL_PARAMETER "formal_parameter",
        DW_TAG_LEXICAL_BLOCK "lexical_block",
        DW_TAG_MEMBER "member",
        DW_TAG_POINTER_TYPE "pointer_type",
        DW_TAG_COMPILE_UNIT "compile_unit",
        DW_TAG_STRUCTURE_TYPE "structure_type",
        DW_TAG_SUBROUTINE_TYPE "subroutine_type",
        DW_TAG_TYPEDEF "typedef",
        DW_TAG_UNION_TYPE "union_type",
        DW_TAG_INLINED_SUBROUTINE "inlined_subroutine",
        DW_TAG_SUBRANGE_TYPE "subrange_type",
        DW_TAG_BASE_TYPE "base_type",
        DW_TAG_CONST_TYPE "const_type",
        DW_TAG_CONSTANT "constant",
        DW_TAG_ENUMERATOR "enumerator",
        DW_TAG_SUBPROGRAM "subprogram",
        DW_TAG_VARIABLE "variable",
        DW_TAG_VOLATILE_TYPE "volatile_type",
        DW_TAG_NAMESPACE "namespace",
        DW_TAG_UNSPECIFIED_TYPE "unspecified_type",
        DW_TAG_IMPORTED_UNIT "imported_unit",
    };
    Codes::new(&ROWS)
}
