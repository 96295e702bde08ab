//! The kinds of entries of a location list (DWARF 5, 7.7.3), once: their codes, what follows the kind byte, and their names.
//! The last is GNU's pair of views.

ghost use Rattle.std.specs.Prelude.{◌≡◌};
ghost use Rattle.dwz_codes.specs.ListKinds.{list_kind_rows};
ghost use Rattle.dwz_codes.specs.Rows.{shape_of};

use crate::codes::Codes;
use crate::row::Row;
use crate::shape::Shape;

pub const DW_LLE_END_OF_LIST: u8 = 0x00;

pub const DW_LLE_BASE_ADDRESSX: u8 = 0x01;

pub const DW_LLE_STARTX_ENDX: u8 = 0x02;

pub const DW_LLE_STARTX_LENGTH: u8 = 0x03;

pub const DW_LLE_OFFSET_PAIR: u8 = 0x04;

pub const DW_LLE_DEFAULT_LOCATION: u8 = 0x05;

pub const DW_LLE_BASE_ADDRESS: u8 = 0x06;

pub const DW_LLE_START_END: u8 = 0x07;

pub const DW_LLE_START_LENGTH: u8 = 0x08;

pub const DW_LLE_GNU_VIEW_PAIR: u8 = 0x09;

/// The list of kinds, each with its shape and its name, behind other words, for another macro.
macro_rules! with_list_kinds {
    ($write:ident $($before:tt)*) => {
        $write! { $($before)*
            DW_LLE_END_OF_LIST Nothing "end_of_list",
            DW_LLE_BASE_ADDRESSX Uleb "base_addressx",
            DW_LLE_STARTX_ENDX UlebUlebExpr "startx_endx",
            DW_LLE_STARTX_LENGTH UlebUlebExpr "startx_length",
            DW_LLE_OFFSET_PAIR UlebUlebExpr "offset_pair",
            DW_LLE_DEFAULT_LOCATION NestedExpr "default_location",
            DW_LLE_BASE_ADDRESS Address "base_address",
            DW_LLE_START_END AddressAddressExpr "start_end",
            DW_LLE_START_LENGTH AddressUlebExpr "start_length",
            DW_LLE_GNU_VIEW_PAIR UlebUleb "GNU_view_pair",
        }
    };
}

macro_rules! rows {
    ($($code:ident $shape:ident $name:literal,)*) => {
        [$(Row { code: $code as u64, shape: Shape::$shape, name: $name }),*]
    };
}

macro_rules! shape {
    ($kind:ident: $($code:ident $shape:ident $name:literal,)*) => {
        match $kind { $($code => Shape::$shape,)* _ => Shape::Refused }
    };
}

/// The table of kinds.
#[tactic(auto, unfolding(crate::specs::ListKinds::list_kind_rows))]
pub fn list_kinds() -> Codes<10>
    ensures { result ≡ list_kind_rows }
{
    static ROWS: [Row; 10] = with_list_kinds!(rows);
    Codes::new(&ROWS)
}

/// What follows the byte of a kind; a kind without a row isn't read.
#[inline(always)]
#[tactic(auto, unfolding(crate::specs::ListKinds::list_kind_rows))]
pub fn list_kind_shape(kind: u8) -> Shape
    ensures { result ≡ shape_of list_kind_rows kind }
{
    with_list_kinds!(shape kind:)
}
