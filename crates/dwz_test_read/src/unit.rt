//! Units spelled by hand, by the standard's section 7.5: of files, of finished common files, and of files that may refer to one (7.3.6).

ghost use Rattle.std.specs.Prelude.{◌<◌, ◌^◌, length};

use crate::expect::{bytes_of, number_of, prints_as, same, split_bar};
use dwz_forms::Raw;
use dwz_model::{Pair, ReadErr};
use dwz_unit::{RawAttr, RawEntry, RawUnit, Units};
use std::alloc::Global;

// How a file is read, how many entries there may be, its units, their tables; and how many units and entries there are, or the first
// fault. The files have two compile units; a partial unit; a partial unit with the root of a compile unit; an entry with a text and a type
// in a supplementary file, in a compile unit and in a partial one; an offset of another section below the root of a partial unit and of a
// compile unit; an entry with one value, of a form that is read or isn't read there; two units where there is room for their entries and
// where there isn't; and no unit.
const READ: &str = "\
given|9|1100000005000108000000000102696e74000405001100000005000108000000000102696e7400040500|011101000002240003080b0b3e0b000000|\
Ok((2, 4))
common|9|1100000005000108000000000102696e74000405001100000005000108000000000102696e7400040500|011101000002240003080b0b3e0b000000|\
Err(Refused(Fault { section: 1, at: 0, reason: UnitType }))
back|9|1100000005000108000000000102696e74000405001100000005000108000000000102696e7400040500|011101000002240003080b0b3e0b000000|\
Ok((2, 4))
beside|9|1100000005000108000000000102696e74000405001100000005000108000000000102696e7400040500|011101000002240003080b0b3e0b000000|\
Ok((2, 4))
given|9|140000000500030800000000010000000002050000000400|013c0110170000022400030e0b0b000000|\
Err(Refused(Fault { section: 1, at: 0, reason: UnitType }))
common|9|140000000500030800000000010000000002050000000400|013c0110170000022400030e0b0b000000|\
Ok((1, 2))
back|9|140000000500030800000000010000000002050000000400|013c0110170000022400030e0b0b000000|\
Ok((1, 2))
beside|9|140000000500030800000000010000000002050000000400|013c0110170000022400030e0b0b000000|\
Ok((1, 2))
common|9|140000000500030800000000010000000002050000000400|011101000002240003080b0b3e0b000000|\
Err(Refused(Fault { section: 1, at: 12, reason: BadRoot }))
back|9|140000000500030800000000010000000002050000000400|011101000002240003080b0b3e0b000000|\
Err(Refused(Fault { section: 1, at: 12, reason: BadRoot }))
given|9|1300000005000108000000000102050000000c00000000|0111010000023400031d491c000000|\
Err(Refused(Fault { section: 1, at: 13, reason: UnsupportedForm { form: 29 } }))
back|9|1300000005000108000000000102050000000c00000000|0111010000023400031d491c000000|\
Err(Refused(Fault { section: 1, at: 13, reason: UnsupportedForm { form: 29 } }))
beside|9|1300000005000108000000000102050000000c00000000|0111010000023400031d491c000000|\
Ok((1, 2))
common|9|1300000005000308000000000102050000000c00000000|013c010000023400031d491c000000|\
Err(Refused(Fault { section: 1, at: 13, reason: UnsupportedForm { form: 29 } }))
back|9|1300000005000308000000000102050000000c00000000|013c010000023400031d491c000000|\
Err(Refused(Fault { section: 1, at: 13, reason: UnsupportedForm { form: 29 } }))
beside|9|1300000005000308000000000102050000000c00000000|013c010000023400031d491c000000|\
Ok((1, 2))
common|9|0f000000050003080000000001020500000000|013c0100000234000217000000|\
Err(Refused(Fault { section: 1, at: 13, reason: UnsupportedForm { form: 23 } }))
back|9|0f000000050003080000000001020500000000|013c0100000234000217000000|\
Err(Refused(Fault { section: 1, at: 13, reason: UnsupportedForm { form: 23 } }))
beside|9|0f000000050003080000000001020500000000|013c0100000234000217000000|\
Err(Refused(Fault { section: 1, at: 13, reason: UnsupportedForm { form: 23 } }))
given|9|0f000000050001080000000001020500000000|01110100000234000217000000|\
Ok((1, 2))
back|9|0f000000050001080000000001020500000000|01110100000234000217000000|\
Ok((1, 2))
beside|9|0f000000050001080000000001020500000000|01110100000234000217000000|\
Ok((1, 2))
beside|9|0d00000005000108000000000102010203|0111010000023400031c000000|\
Err(Refused(Fault { section: 1, at: 14, reason: Truncated }))
beside|9|1300000005000108000000000102000000000000000000|01110100000234000324000000|\
Err(Refused(Fault { section: 1, at: 13, reason: UnsupportedForm { form: 36 } }))
beside|9|0f000000050001080000000001020c00000000|01110100000234000313000000|\
Ok((1, 2))
common|9|0f000000050003080000000001020c00000000|013c0100000234000310000000|\
Ok((1, 2))
common|9|0c000000050003080000000001020c00|013c0100000234000311000000|\
Err(Refused(Fault { section: 1, at: 13, reason: UnsupportedForm { form: 17 } }))
common|9|0c000000050003080000000001020000|013c010000023400031a000000|\
Err(Refused(Fault { section: 1, at: 13, reason: UnsupportedForm { form: 26 } }))
common|9|0f000000050003080000000001020000000000|013c010000023400031c000000|\
Err(Refused(Fault { section: 1, at: 13, reason: UnsupportedForm { form: 28 } }))
common|9|0f000000050003080000000001020000000000|013c010000023400031f000000|\
Err(Refused(Fault { section: 1, at: 13, reason: UnsupportedForm { form: 31 } }))
beside|9|1300000005000108000000000102000000000000000000|01110100000234000301000000|\
Ok((1, 2))
beside|9|1300000005000308000000000102000000000000000000|013c0100000234000301000000|\
Err(Refused(Fault { section: 1, at: 13, reason: UnsupportedForm { form: 1 } }))
beside|9|0c000000050003080000000001020000|013c0100000234000323000000|\
Err(Refused(Fault { section: 1, at: 13, reason: UnsupportedForm { form: 35 } }))
beside|9|0f000000050003080000000001020000000000|013c010000023400032c000000|\
Err(Refused(Fault { section: 1, at: 13, reason: UnsupportedForm { form: 44 } }))
back|9|0f000000050003080000000001020c00000000|013c0100000234000313000000|\
Ok((1, 2))
given|9|0f000000050001080000000001020000000000|0111010000023400031c000000|\
Err(Refused(Fault { section: 1, at: 13, reason: UnsupportedForm { form: 28 } }))
given|4|1100000005000108000000000102696e74000405001100000005000108000000000102696e7400040500|011101000002240003080b0b3e0b000000|\
Ok((2, 4))
given|3|1100000005000108000000000102696e74000405001100000005000108000000000102696e7400040500|011101000002240003080b0b3e0b000000|\
Err(Refused(Fault { section: 1, at: 34, reason: TooMany }))
given|2|1100000005000108000000000102696e74000405001100000005000108000000000102696e7400040500|011101000002240003080b0b3e0b000000|\
Err(Refused(Fault { section: 1, at: 33, reason: TooMany }))
given|0|1100000005000108000000000102696e74000405001100000005000108000000000102696e7400040500|011101000002240003080b0b3e0b000000|\
Err(Refused(Fault { section: 1, at: 12, reason: TooMany }))
given|0|||\
Ok((0, 0))";

fn read_how<'a>(
    alloc: Global,
    how: &str,
    info: &'a [u8],
    abbrevs: &'a [u8],
    room: u32,
) -> Result<Units<'a>, ReadErr>
    requires info { length info.now < 2 ^ 32 }
    requires abbrevs { length abbrevs.now < 2 ^ 32 }
{
    match how {
        "given" => Units::read(alloc, info, abbrevs, room),
        "common" => Units::read_common(alloc, info, abbrevs, room),
        "back" => Units::read_back(alloc, info, abbrevs, room, false),
        _ => Units::read_back(alloc, info, abbrevs, room, true),
    }
}

#[test]
fn reads_units_by_mode(rt: HostRuntime) {
    let alloc = rt.alloc();
    for row in READ.lines() {
        let (how, row) = split_bar(&rt, row);
        let (room, row) = split_bar(&rt, row);
        let (info, row) = split_bar(&rt, row);
        let (abbrevs, outcome) = split_bar(&rt, row);
        let info = bytes_of(&rt, alloc, info);
        let info = info.as_slice();
        let abbrevs = bytes_of(&rt, alloc, abbrevs);
        let abbrevs = abbrevs.as_slice();
        assert!(rt; info.len() < 100 && abbrevs.len() < 100);
        let found = match read_how(alloc, how, info, abbrevs, number_of(&rt, room)) {
            Ok(units) => Ok((units.len(), units.entries())),
            Err(error) => Err(error),
        };
        prints_as(&rt, alloc, row, &found, outcome);
    }
}

// A compile unit with a base type, and a zero byte behind its tree; and a type unit over the table at 17, whose type has a constant.
const INFO: &[u8] = b"\x12\0\0\0\x05\0\x01\x08\0\0\0\0\x01\x02int\0\x04\x05\0\0\
\x17\0\0\0\x05\0\x02\x08\x11\0\0\0\x01\x02\x03\x04\x05\x06\x07\x08\x19\0\0\0\x01\x02\0";

const ABBREVS: &[u8] = b"\x01\x11\x01\0\0\x02\x24\0\x03\x08\x0b\x0b\x3e\x0b\0\0\0\
\x01\x41\x01\0\0\x02\x24\0\x0b\x21\x7f\0\0\0";

const TYPE_UNIT: RawUnit = RawUnit {
    at: 22,
    end: 49,
    abbrev: 17,
    kind: 2,
    signature: 0x0807060504030201,
    type_offset: 25,
    first: 2,
};

const BASE_TYPE: RawEntry = RawEntry {
    at: 13,
    tag: 0x24,
    unit: 0,
    depth: 2,
    end: 2,
    attrs: 3,
};

// Values, with the number of their entry and their number in it.
const VALUES: [(u32, u32, RawAttr<'static>); 3] = [
    (
        1,
        0,
        RawAttr {
            at: 14,
            end: 18,
            pair: Pair {
                name: 0x03,
                form: 0x08,
                constant: 0,
            },
            raw: Raw::Bytes(b"int"),
        },
    ),
    (
        1,
        2,
        RawAttr {
            at: 19,
            end: 20,
            pair: Pair {
                name: 0x3e,
                form: 0x0b,
                constant: 0,
            },
            raw: Raw::Number(5),
        },
    ),
    (
        3,
        0,
        RawAttr {
            at: 48,
            end: 48,
            pair: Pair {
                name: 0x0b,
                form: 0x21,
                constant: -1,
            },
            raw: Raw::Number(-1),
        },
    ),
];

#[test]
fn shows_units_entries_and_values(rt: HostRuntime) {
    let units = Units::read(rt.alloc(), INFO, ABBREVS, 4).expect(&rt, "units");
    assert!(rt; units.len() == 2);
    same(&rt, &units.unit(1), &TYPE_UNIT);
    assert!(rt; units.entries() == 4);
    same(&rt, &units.entry(1), &BASE_TYPE);
    for (i, k, value) in VALUES {
        assert!(rt; i < units.entries() && k < units.entry(i).attrs);
        same(&rt, &units.attr(i, k), &value);
    }
}

// A compile unit with an entry that has a text and a type in a supplementary file.
const REFERS: &[u8] = b"\x13\0\0\0\x05\0\x01\x08\0\0\0\0\x01\x02\x05\0\0\0\x0c\0\0\x80\0";

const REFERS_ABBREVS: &[u8] = b"\x01\x11\x01\0\0\x02\x34\0\x03\x1d\x49\x1c\0\0\0";

#[test]
fn shows_values_that_lead_to_a_supplementary_file(rt: HostRuntime) {
    let units = Units::read_back(rt.alloc(), REFERS, REFERS_ABBREVS, 9, true).expect(&rt, "units");
    assert!(rt; units.entries() == 2);
    for (k, at, number) in [(0, 14, 5), (1, 18, 0x8000_000c)] {
        assert!(rt; k < units.entry(1).attrs);
        let attr = units.attr(1, k);
        same(&rt, &(attr.at, attr.raw), &(at, Raw::Number(number)));
    }
}
