//! Tables spelled by hand, by the standard's section 7.5.3.

use crate::expect::{bytes_of, number_of, prints_as, same, split_bar};
use dwz_abbrev::{PairRow, ReadTable, Table};
use dwz_model::{DwzList, Pair};

// A table, behind so many bytes that are none of it, how many declarations are passed over, a code; and the first declaration with that
// code behind those, if there is one. The tables have a compile unit with a name and a base type with a constant; four declarations with
// the codes 133, 2, 7 and 1; and the codes 5, 2 and 133.
const FOUND: &str = "\
011101030800000224000b0b3e21050000\
00|0|0|1|Some(Decl { code: 1, tag: 17, children: true, pairs: DwzList { items: [Pair { name: 3, form: 8, constant: 0 }] } })
011101030800000224000b0b3e21050000\
00|0|0|2|Some(Decl { code: 2, tag: 36, children: false, pairs: DwzList { items: [Pair { name: 11, form: 11, constant: 0 }, \
Pair { name: 62, form: 33, constant: 5 }] } })
011101030800000224000b0b3e2105000000|0|1|1|None
011101030800000224000b0b3e2105000000|0|0|0|None
011101030800000224000b0b3e2105000000|0|0|3|None
85013400000002240000000716000000010f00000000|0|0|133|Some(Decl { code: 133, tag: 52, children: false, pairs: DwzList { items: [] } })
85013400000002240000000716000000010f00000000|0|0|2|Some(Decl { code: 2, tag: 36, children: false, pairs: DwzList { items: [] } })
85013400000002240000000716000000010f00000000|0|2|7|Some(Decl { code: 7, tag: 22, children: false, pairs: DwzList { items: [] } })
85013400000002240000000716000000010f00000000|0|3|1|Some(Decl { code: 1, tag: 15, children: false, pairs: DwzList { items: [] } })
85013400000002240000000716000000010f00000000|0|1|133|None
85013400000002240000000716000000010f00000000|0|4|1|None
85013400000002240000000716000000010f00000000|0|0|132|None
85013400000002240000000716000000010f00000000|0|0|134|None
09051101030800000224000b0b0000850134000000\
00|1|2|133|Some(Decl { code: 133, tag: 52, children: false, pairs: DwzList { items: [] } })
09051101030800000224000b0b000085013400000000|1|3|133|None
09051101030800000224000b0b000085013400000000|1|0|1|None";

#[test]
fn finds_declarations(rt: HostRuntime) {
    let alloc = rt.alloc();
    for row in FOUND.lines() {
        let (section, row) = split_bar(&rt, row);
        let (at, row) = split_bar(&rt, row);
        let (skip, row) = split_bar(&rt, row);
        let (code, decl) = split_bar(&rt, row);
        let section = bytes_of(&rt, alloc, section);
        let at = number_of(&rt, at);
        let table = Table::read(alloc, &section, at).expect(&rt, "a table");
        let mut pairs = PairRow::new(alloc, &section);
        let read = ReadTable::read_up_to(alloc, at, &[], &mut pairs).expect(&rt, "a table");
        let skip = number_of(&rt, skip) as usize;
        let code = u64::from(number_of(&rt, code));
        let found = match read.rows.place_behind(skip, code) {
            Some(place) => table.decls().get(place),
            None => None,
        };
        prints_as(&rt, alloc, row, &found, decl);
        if skip == 0 {
            prints_as(&rt, alloc, row, &table.decl(code), decl);
        }
    }
}

// Three declarations with the codes 133, 2 and 1, at 0, 7 and 15; the first code is padded.
const UNSORTED: &[u8] = b"\x85\x81\0\x34\0\0\0\x02\x34\0\x3e\x21\x7f\0\0\x01\x34\0\0\0\0";

// Stops, where the declarations before the first of them begin, the stop, and these declarations. The first name stands at 0 in the row.
const BEGUN: [(&[&[usize]], &[usize], Option<usize>, &str); 2] = [
    (
        &[],
        &[0, 7, 15],
        None,
        "[ReadDecl { code: 133, first: 0, count: 0, tag: 52, children: false }, \
ReadDecl { code: 2, first: 0, count: 1, tag: 52, children: false }, \
ReadDecl { code: 1, first: 1, count: 0, tag: 52, children: false }]",
    ),
    (
        &[&[2, 9], &[3, 15, 21]],
        &[0, 7],
        Some(15),
        "[ReadDecl { code: 133, first: 0, count: 0, tag: 52, children: false }, \
ReadDecl { code: 2, first: 0, count: 1, tag: 52, children: false }]",
    ),
];

#[test]
fn reads_up_to_a_stop(rt: HostRuntime) {
    let alloc = rt.alloc();
    for (stops, starts, stop, decls) in BEGUN {
        let mut pairs = PairRow::new(alloc, UNSORTED);
        let read = ReadTable::read_up_to(alloc, 0, stops, &mut pairs).expect(&rt, "a table");
        same(&rt, &(read.starts.as_slice(), read.stop), &(starts, stop));
        prints_as(&rt, alloc, "declarations", &read.rows.as_slice(), decls);
        prints_as(
            &rt,
            alloc,
            "the row",
            &pairs.as_slice(),
            "[Pair { name: 62, form: 33, constant: -1 }]",
        );
    }
}

// A declaration with two pairs, inside of which another begins, with the second of them.
const INSIDE: &[u8] = b"\x01\x01\x01\x01\x01\x01\x01\0\0\0";

#[test]
fn reads_names_and_forms_once(rt: HostRuntime) {
    let alloc = rt.alloc();
    let mut pairs = PairRow::new(alloc, INSIDE);
    ReadTable::read_up_to(alloc, 0, &[], &mut pairs).expect(&rt, "a table");
    let read = ReadTable::read_up_to(alloc, 2, &[], &mut pairs).expect(&rt, "a table");
    prints_as(
        &rt,
        alloc,
        "declarations",
        &read.rows.as_slice(),
        "[ReadDecl { code: 1, first: 1, count: 1, tag: 1, children: true }]",
    );
    same(&rt, &pairs.as_slice().len(), &2);
}

// The table by ascending code.
const SORTED: &[u8] = b"\x01\x34\0\0\0\x02\x34\0\x3e\x21\x7f\0\0\x85\x01\x34\0\0\0\0";

#[test]
fn writes_by_ascending_code(rt: HostRuntime) {
    let table = Table::read(rt.alloc(), UNSORTED, 0).expect(&rt, "a table");
    let mut out = Vec::new(rt.alloc());
    table.write(&mut out).expect(&rt, "no memory");
    same(&rt, &out.as_slice(), &SORTED);
}

// The least code of equal declarations, of which two are in the table; none has children.
#[test]
fn numbers_shapes(rt: HostRuntime) {
    let alloc = rt.alloc();
    let table = Table::read(alloc, UNSORTED, 0).expect(&rt, "a table");
    let mut constant = Vec::new(alloc);
    let pair = Pair {
        name: 62,
        form: 33,
        constant: -1,
    };
    constant.push(pair).expect(&rt, "no memory");
    let constant = DwzList::new(constant);
    let none = DwzList::new(Vec::new(alloc));
    same(&rt, &table.code_of(0x34, false, &none), &Some(1));
    same(&rt, &table.code_of(0x34, false, &constant), &Some(2));
    same(&rt, &table.code_of(0x34, true, &none), &None);
    same(&rt, &table.code_of(0x24, false, &none), &None);
}

// A shape that is there already gets its code again.
#[test]
fn adds_shapes_once(rt: HostRuntime) {
    let alloc = rt.alloc();
    let mut table = Table::new(alloc);
    let first = table.add(0x34, false, DwzList::new(Vec::new(alloc)));
    same(&rt, &first.expect(&rt, "no memory"), &1);
    let other = table.add(0x34, true, DwzList::new(Vec::new(alloc)));
    same(&rt, &other.expect(&rt, "no memory"), &2);
    let again = table.add(0x34, false, DwzList::new(Vec::new(alloc)));
    same(&rt, &again.expect(&rt, "no memory"), &1);
    same(&rt, &table.decls().len(), &2);
}
