/// How what belongs to a code is laid out. Of a form it is what the value occupies, of an operator its operands, of a kind
/// of list entry what follows the kind byte. A name alone has the shape `Nothing`.
#[derive(Clone, Copy, Debug, PartialEq, Eq)]
pub enum Shape {
    /// No bytes.
    Nothing,
    /// A code that isn't read.
    Refused,
    /// So many bytes.
    Fixed1,
    Fixed2,
    Fixed3,
    Fixed4,
    Fixed8,
    Fixed16,
    /// LEB128 numbers.
    Uleb,
    Sleb,
    UlebSleb,
    UlebUleb,
    /// A text and the zero byte that ends it.
    ZeroEnded,
    /// A length of 1, 2 or 4 bytes or a ULEB128 number, and that many bytes.
    Block1,
    Block2,
    Block4,
    BlockUleb,
    /// An address of 8 bytes.
    Address,
    /// A ULEB128 number that names an address.
    AddressIndex,
    /// A ULEB128 length, and an expression of that many bytes.
    NestedExpr,
    /// 4 bytes that name an entry of the unit.
    UnitEntry4,
    /// 4 bytes that name an entry in `.debug_info`, with a SLEB128 number after them or without.
    InfoEntry4,
    InfoEntry4Sleb,
    /// A ULEB128 number that names an entry of the unit, a byte that says how many bytes follow, and those.
    UlebEntryConst,
    /// A ULEB128 register, and a ULEB128 number that names an entry of the unit.
    RegisterUlebEntry,
    /// A byte, and a ULEB128 number that names an entry of the unit.
    SizeUlebEntry,
    /// A ULEB128 number that names an entry of the unit, or is 0 for the generic type.
    UlebEntryOrGeneric,
    /// Two ULEB128 numbers, two addresses, or one of each, and a ULEB128 length with an expression.
    UlebUlebExpr,
    AddressAddressExpr,
    AddressUlebExpr,
}
