//! Look-ups in the five tables, with the names and codes of the standard.

use crate::expect::holds;
use dwz_codes::{Row, attribute_names, forms, list_kinds, operators, tag_names};

#[derive(Clone, Copy)]
enum Table {
    Forms,
    Operators,
    ListKinds,
    TagNames,
    AttributeNames,
}

// The row of a code in a table.
fn row_of(table: Table, code: u64) -> Option<Row> {
    match table {
        Table::Forms => forms().find(code),
        Table::Operators => operators().find(code),
        Table::ListKinds => list_kinds().find(code),
        Table::TagNames => tag_names().find(code),
        Table::AttributeNames => attribute_names().find(code),
    }
}

// Whether a row has this name, or there is none where the name is empty.
fn is_named(row: Option<Row>, name: &str) -> bool {
    match row {
        Some(row) => row.name == name,
        None => name.is_empty(),
    }
}

// Names, each with its code; an empty one where no row has the code.
const NAMES: &[(Table, u64, &str)] = &[
    (Table::Forms, 0x0e, "strp"),
    (Table::Forms, 0x2c, "addrx4"),
    (Table::Operators, 0x8f, "breg31"),
    (Table::Operators, 0xfd, "GNU_variable_value"),
    (Table::ListKinds, 5, "default_location"),
    (Table::TagNames, 0x3d, "imported_unit"),
    (Table::AttributeNames, 0x49, "type"),
    (Table::Forms, 0x00, ""),
    (Table::Forms, 0x02, ""),
    (Table::Forms, 0x2d, ""),
    (Table::Operators, 0xff, ""),
    (Table::ListKinds, 10, ""),
    (Table::TagNames, 0x4109, ""),
    (Table::AttributeNames, 0x2137, ""),
];

#[test]
fn finds_rows_by_code(rt: HostRuntime) {
    for &(table, code, name) in NAMES {
        holds(&rt, name, is_named(row_of(table, code), name));
    }
}
