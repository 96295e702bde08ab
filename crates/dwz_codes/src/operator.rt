//! The operators of expressions (DWARF 5, 7.7.1), once: their codes, how their operands are laid out, and their names.

ghost use Rattle.std.specs.Prelude.{◌≡◌};
ghost use Rattle.dwz_codes.specs.Operators.{operator_rows};
ghost use Rattle.dwz_codes.specs.Rows.{shape_of};
ghost use Rattle.dwz_codes.specs.Shapes.{operator_shapes};

use crate::codes::Codes;
use crate::row::Row;
use crate::shape::Shape;

/// The list of all codes in order, each with its shape, and with its name where it is that of an operator, for another macro.
/// Four are GNU's. `call2` isn't read.
macro_rules! with_operators {
    ($write:ident) => {
        $write! {
            0x00 Refused, 0x01 Refused, 0x02 Refused,
            0x03 Address "addr",
            0x04 Refused, 0x05 Refused,
            0x06 Nothing "deref",
            0x07 Refused,
            0x08 Fixed1 "const1u",
            0x09 Fixed1 "const1s",
            0x0a Fixed2 "const2u",
            0x0b Fixed2 "const2s",
            0x0c Fixed4 "const4u",
            0x0d Fixed4 "const4s",
            0x0e Fixed8 "const8u",
            0x0f Fixed8 "const8s",
            0x10 Uleb "constu",
            0x11 Sleb "consts",
            0x12 Nothing "dup",
            0x13 Nothing "drop",
            0x14 Nothing "over",
            0x15 Fixed1 "pick",
            0x16 Nothing "swap",
            0x17 Nothing "rot",
            0x18 Nothing "xderef",
            0x19 Nothing "abs",
            0x1a Nothing "and",
            0x1b Nothing "div",
            0x1c Nothing "minus",
            0x1d Nothing "mod",
            0x1e Nothing "mul",
            0x1f Nothing "neg",
            0x20 Nothing "not",
            0x21 Nothing "or",
            0x22 Nothing "plus",
            0x23 Uleb "plus_uconst",
            0x24 Nothing "shl",
            0x25 Nothing "shr",
            0x26 Nothing "shra",
            0x27 Nothing "xor",
            0x28 Fixed2 "bra",
            0x29 Nothing "eq",
            0x2a Nothing "ge",
            0x2b Nothing "gt",
            0x2c Nothing "le",
            0x2d Nothing "lt",
            0x2e Nothing "ne",
            0x2f Fixed2 "skip",
            0x30 Nothing "lit0",
            0x31 Nothing "lit1",
            0x32 Nothing "lit2",
            0x33 Nothing "lit3",
            0x34 Nothing "lit4",
            0x35 Nothing "lit5",
            0x36 Nothing "lit6",
            0x37 Nothing "lit7",
            0x38 Nothing "lit8",
            0x39 Nothing "lit9",
            0x3a Nothing "lit10",
            0x3b Nothing "lit11",
            0x3c Nothing "lit12",
            0x3d Nothing "lit13",
            0x3e Nothing "lit14",
            0x3f Nothing "lit15",
            0x40 Nothing "lit16",
            0x41 Nothing "lit17",
            0x42 Nothing "lit18",
            0x43 Nothing "lit19",
            0x44 Nothing "lit20",
            0x45 Nothing "lit21",
            0x46 Nothing "lit22",
            0x47 Nothing "lit23",
            0x48 Nothing "lit24",
            0x49 Nothing "lit25",
            0x4a Nothing "lit26",
            0x4b Nothing "lit27",
            0x4c Nothing "lit28",
            0x4d Nothing "lit29",
            0x4e Nothing "lit30",
            0x4f Nothing "lit31",
            0x50 Nothing "reg0",
            0x51 Nothing "reg1",
            0x52 Nothing "reg2",
            0x53 Nothing "reg3",
            0x54 Nothing "reg4",
            0x55 Nothing "reg5",
            0x56 Nothing "reg6",
            0x57 Nothing "reg7",
            0x58 Nothing "reg8",
            0x59 Nothing "reg9",
            0x5a Nothing "reg10",
            0x5b Nothing "reg11",
            0x5c Nothing "reg12",
            0x5d Nothing "reg13",
            0x5e Nothing "reg14",
            0x5f Nothing "reg15",
            0x60 Nothing "reg16",
            0x61 Nothing "reg17",
            0x62 Nothing "reg18",
            0x63 Nothing "reg19",
            0x64 Nothing "reg20",
            0x65 Nothing "reg21",
            0x66 Nothing "reg22",
            0x67 Nothing "reg23",
            0x68 Nothing "reg24",
            0x69 Nothing "reg25",
            0x6a Nothing "reg26",
            0x6b Nothing "reg27",
            0x6c Nothing "reg28",
            0x6d Nothing "reg29",
            0x6e Nothing "reg30",
            0x6f Nothing "reg31",
            0x70 Sleb "breg0",
            0x71 Sleb "breg1",
            0x72 Sleb "breg2",
            0x73 Sleb "breg3",
            0x74 Sleb "breg4",
            0x75 Sleb "breg5",
            0x76 Sleb "breg6",
            0x77 Sleb "breg7",
            0x78 Sleb "breg8",
            0x79 Sleb "breg9",
            0x7a Sleb "breg10",
            0x7b Sleb "breg11",
            0x7c Sleb "breg12",
            0x7d Sleb "breg13",
            0x7e Sleb "breg14",
            0x7f Sleb "breg15",
            0x80 Sleb "breg16",
            0x81 Sleb "breg17",
            0x82 Sleb "breg18",
            0x83 Sleb "breg19",
            0x84 Sleb "breg20",
            0x85 Sleb "breg21",
            0x86 Sleb "breg22",
            0x87 Sleb "breg23",
            0x88 Sleb "breg24",
            0x89 Sleb "breg25",
            0x8a Sleb "breg26",
            0x8b Sleb "breg27",
            0x8c Sleb "breg28",
            0x8d Sleb "breg29",
            0x8e Sleb "breg30",
            0x8f Sleb "breg31",
            0x90 Uleb "regx",
            0x91 Sleb "fbreg",
            0x92 UlebSleb "bregx",
            0x93 Uleb "piece",
            0x94 Fixed1 "deref_size",
            0x95 Fixed1 "xderef_size",
            0x96 Nothing "nop",
            0x97 Nothing "push_object_address",
            0x98 Refused "call2",
            0x99 UnitEntry4 "call4",
            0x9a InfoEntry4 "call_ref",
            0x9b Nothing "form_tls_address",
            0x9c Nothing "call_frame_cfa",
            0x9d UlebUleb "bit_piece",
            0x9e BlockUleb "implicit_value",
            0x9f Nothing "stack_value",
            0xa0 InfoEntry4Sleb "implicit_pointer",
            0xa1 AddressIndex "addrx",
            0xa2 AddressIndex "constx",
            0xa3 NestedExpr "entry_value",
            0xa4 UlebEntryConst "const_type",
            0xa5 RegisterUlebEntry "regval_type",
            0xa6 SizeUlebEntry "deref_type",
            0xa7 SizeUlebEntry "xderef_type",
            0xa8 UlebEntryOrGeneric "convert",
            0xa9 UlebEntryOrGeneric "reinterpret",
            0xaa Refused, 0xab Refused, 0xac Refused, 0xad Refused, 0xae Refused, 0xaf Refused, 0xb0 Refused, 0xb1 Refused,
            0xb2 Refused, 0xb3 Refused, 0xb4 Refused, 0xb5 Refused, 0xb6 Refused, 0xb7 Refused, 0xb8 Refused, 0xb9 Refused,
            0xba Refused, 0xbb Refused, 0xbc Refused, 0xbd Refused, 0xbe Refused, 0xbf Refused, 0xc0 Refused, 0xc1 Refused,
            0xc2 Refused, 0xc3 Refused, 0xc4 Refused, 0xc5 Refused, 0xc6 Refused, 0xc7 Refused, 0xc8 Refused, 0xc9 Refused,
            0xca Refused, 0xcb Refused, 0xcc Refused, 0xcd Refused, 0xce Refused, 0xcf Refused, 0xd0 Refused, 0xd1 Refused,
            0xd2 Refused, 0xd3 Refused, 0xd4 Refused, 0xd5 Refused, 0xd6 Refused, 0xd7 Refused, 0xd8 Refused, 0xd9 Refused,
            0xda Refused, 0xdb Refused, 0xdc Refused, 0xdd Refused, 0xde Refused, 0xdf Refused,
            0xe0 Nothing "GNU_push_tls_address",
            0xe1 Refused, 0xe2 Refused, 0xe3 Refused, 0xe4 Refused, 0xe5 Refused, 0xe6 Refused, 0xe7 Refused, 0xe8 Refused,
            0xe9 Refused, 0xea Refused, 0xeb Refused, 0xec Refused, 0xed Refused, 0xee Refused, 0xef Refused,
            0xf0 Nothing "GNU_uninit",
            0xf1 Refused, 0xf2 Refused, 0xf3 Refused, 0xf4 Refused, 0xf5 Refused, 0xf6 Refused, 0xf7 Refused, 0xf8 Refused,
            0xf9 Refused,
            0xfa UnitEntry4 "GNU_parameter_ref",
            0xfb Refused, 0xfc Refused,
            0xfd InfoEntry4 "GNU_variable_value",
            0xfe Refused, 0xff Refused,
        }
    };
}

macro_rules! rows {
    ($($code:literal $shape:ident $($name:literal)?,)*) => {
        [$($(Row { code: $code, shape: Shape::$shape, name: $name },)?)*]
    };
}

macro_rules! shapes {
    ($($code:literal $shape:ident $($name:literal)?,)*) => { [$(Shape::$shape),*] };
}

/// The table of operators.
#[tactic(auto, unfolding(crate::specs::Operators::operator_rows))]
pub fn operators() -> Codes<168>
    ensures { result ≡ operator_rows }
{
    static ROWS: [Row; 168] = with_operators!(rows);
    Codes::new(&ROWS)
}

// The shape with a number.
#[inline(always)]
fn shape_in(shapes: &[Shape; 256], code: u8) -> Shape
    requires { shapes.now ≡ operator_shapes }
    ensures { result ≡ shape_of operator_rows code }
{
    shapes[code as usize]
}

/// How the operands of an operator are laid out; a code without a row isn't read.
#[inline(always)]
#[tactic(auto, unfolding(crate::specs::Shapes::operator_shapes, crate::specs::Operators::operator_rows))]
pub fn operator_shape(code: u8) -> Shape
    ensures { result ≡ shape_of operator_rows code }
{
    static SHAPES: [Shape; 256] = with_operators!(shapes);
    shape_in(&SHAPES, code)
}
