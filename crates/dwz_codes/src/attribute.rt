//! The codes of attributes (DWARF 5, 7.5.4), the names of those that are printed by name, and what some say of their values.

ghost use Rattle.std.specs.Prelude.{◌≡◌};
ghost use Rattle.dwz_codes.specs.Attributes.{attribute_rows};
ghost use Rattle.dwz_codes.specs.Classes;

use crate::codes::Codes;
use crate::row::Row;
use crate::shape::Shape;

pub const DW_AT_SIBLING: u16 = 0x01;

pub const DW_AT_LOCATION: u16 = 0x02;

pub const DW_AT_NAME: u16 = 0x03;

pub const DW_AT_BYTE_SIZE: u16 = 0x0b;

pub const DW_AT_STMT_LIST: u16 = 0x10;

pub const DW_AT_LOW_PC: u16 = 0x11;

pub const DW_AT_HIGH_PC: u16 = 0x12;

pub const DW_AT_LANGUAGE: u16 = 0x13;

pub const DW_AT_IMPORT: u16 = 0x18;

pub const DW_AT_STRING_LENGTH: u16 = 0x19;

pub const DW_AT_COMP_DIR: u16 = 0x1b;

pub const DW_AT_CONST_VALUE: u16 = 0x1c;

pub const DW_AT_PRODUCER: u16 = 0x25;

pub const DW_AT_PROTOTYPED: u16 = 0x27;

pub const DW_AT_RETURN_ADDR: u16 = 0x2a;

pub const DW_AT_UPPER_BOUND: u16 = 0x2f;

pub const DW_AT_ABSTRACT_ORIGIN: u16 = 0x31;

pub const DW_AT_BASE_TYPES: u16 = 0x35;

pub const DW_AT_COUNT: u16 = 0x37;

pub const DW_AT_DATA_MEMBER_LOCATION: u16 = 0x38;

pub const DW_AT_DECL_COLUMN: u16 = 0x39;

pub const DW_AT_DECL_FILE: u16 = 0x3a;

pub const DW_AT_DECL_LINE: u16 = 0x3b;

pub const DW_AT_DECLARATION: u16 = 0x3c;

pub const DW_AT_ENCODING: u16 = 0x3e;

pub const DW_AT_EXTERNAL: u16 = 0x3f;

pub const DW_AT_FRAME_BASE: u16 = 0x40;

pub const DW_AT_SEGMENT: u16 = 0x46;

pub const DW_AT_SPECIFICATION: u16 = 0x47;

pub const DW_AT_STATIC_LINK: u16 = 0x48;

pub const DW_AT_TYPE: u16 = 0x49;

pub const DW_AT_USE_LOCATION: u16 = 0x4a;

pub const DW_AT_VTABLE_ELEM_LOCATION: u16 = 0x4d;

pub const DW_AT_RANGES: u16 = 0x55;

pub const DW_AT_CALL_COLUMN: u16 = 0x57;

pub const DW_AT_CALL_FILE: u16 = 0x58;

pub const DW_AT_CALL_LINE: u16 = 0x59;

pub const DW_AT_LINKAGE_NAME: u16 = 0x6e;

pub const DW_AT_STR_OFFSETS_BASE: u16 = 0x72;

pub const DW_AT_ALIGNMENT: u16 = 0x88;

pub const DW_AT_LOCLISTS_BASE: u16 = 0x8c;

macro_rules! rows {
    ($($code:ident $name:literal,)*) => {
        [$(Row { code: $code as u64, shape: Shape::Nothing, name: $name }),*]
    };
}

/// The names of attributes that are printed; any other is printed as a number.
#[tactic(auto, unfolding(crate::specs::Attributes::attribute_rows))]
pub fn attribute_names() -> Codes<30>
    ensures { result ≡ attribute_rows }
{
    static ROWS: [Row; 30] = rows! {
        DW_AT_SIBLING "sibling",
        DW_AT_LOCATION "location",
        DW_AT_NAME "name",
        DW_AT_BYTE_SIZE "byte_size",
        DW_AT_STMT_LIST "stmt_list",
        DW_AT_LOW_PC "low_pc",
        DW_AT_HIGH_PC "high_pc",
        DW_AT_LANGUAGE "language",
        DW_AT_IMPORT "import",
        DW_AT_COMP_DIR "comp_dir",
        DW_AT_CONST_VALUE "const_value",
        DW_AT_PRODUCER "producer",
        DW_AT_PROTOTYPED "prototyped",
        DW_AT_UPPER_BOUND "upper_bound",
        DW_AT_ABSTRACT_ORIGIN "abstract_origin",
        DW_AT_BASE_TYPES "base_types",
        DW_AT_COUNT "count",
        DW_AT_DATA_MEMBER_LOCATION "data_member_location",
        DW_AT_DECL_COLUMN "decl_column",
        DW_AT_DECL_FILE "decl_file",
        DW_AT_DECL_LINE "decl_line",
        DW_AT_DECLARATION "declaration",
        DW_AT_ENCODING "encoding",
        DW_AT_EXTERNAL "external",
        DW_AT_FRAME_BASE "frame_base",
        DW_AT_SPECIFICATION "specification",
        DW_AT_TYPE "type",
        DW_AT_RANGES "ranges",
        DW_AT_LINKAGE_NAME "linkage_name",
        DW_AT_ALIGNMENT "alignment",
    };
    Codes::new(&ROWS)
}

/// Whether the numbers of an attribute are those of files of the line table (2.14).
#[inline(always)]
pub fn names_file(name: u16) -> bool
    ensures { result ≡ Classes.names_file name }
{
    name == DW_AT_DECL_FILE || name == DW_AT_CALL_FILE
}

/// Whether the offset of an attribute is that of a location list (7.5.5, class loclist).
#[inline(always)]
#[tactic(auto, unfolding(crate::specs::Rows::has))]
pub fn names_list(name: u16) -> bool
    ensures { result ≡ Classes.names_list name }
{
    match name {
        DW_AT_LOCATION
        | DW_AT_STRING_LENGTH
        | DW_AT_RETURN_ADDR
        | DW_AT_DATA_MEMBER_LOCATION
        | DW_AT_FRAME_BASE
        | DW_AT_SEGMENT
        | DW_AT_STATIC_LINK
        | DW_AT_USE_LOCATION
        | DW_AT_VTABLE_ELEM_LOCATION => true,
        _ => false,
    }
}
