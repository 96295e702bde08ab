//! Units of one file, read by several workers: the same units, or the same fault, as by one.

ghost use Rattle.std.specs.Prelude.{◌<◌, ◌^◌, length};

use crate::expect::same;
use dwz_model::ReadErr;
use dwz_unit::{FileKind, RawEntry, RawUnit, Units};
use std::alloc::Global;
use std::process::Abort;
use std::thread::Threads;

// A compile unit with a base type, over a table of two declarations (DWARF 5, 7.5).
const UNIT: &[u8] = b"\x11\0\0\0\x05\0\x01\x08\0\0\0\0\x01\x02int\0\x04\x05\0";

const ABBREVS: &[u8] = b"\x01\x11\x01\0\0\x02\x24\0\x03\x08\x0b\x0b\x3e\x0b\0\0\0";

// So many units have more bytes than one worker reads alone.
const MANY: usize = 12_000;

// Many units, one behind the other.
fn many_units<R: Abort>(rt: &R, alloc: Global) -> Vec<u8> {
    let mut info = Vec::new(alloc);
    for _ in 0..MANY {
        info.extend_from_slice(UNIT).expect(rt, "memory");
    }
    info
}

// How many units and entries there are, with the last of each, or the first fault.
fn last_of(
    units: Result<Units<'_>, ReadErr>,
) -> Result<(u32, u32, Option<RawUnit>, Option<RawEntry>), ReadErr> {
    let units = units?;
    let mut last = None;
    if units.len() > 0 {
        last = Some(units.unit(units.len() - 1));
    }
    let mut lowest = None;
    if units.entries() > 0 {
        lowest = Some(units.entry(units.entries() - 1));
    }
    Ok((units.len(), units.entries(), last, lowest))
}

// Ends the test unless so many workers read as one does.
fn reads_as_one<R: Abort + Threads + Sync>(rt: &R, alloc: Global, info: &[u8], room: u32)
    requires { length info.now < 2 ^ 32 }
{
    let alone = last_of(Units::read(alloc, info, ABBREVS, room));
    for workers in [1, 2, 3, 64] {
        let found = last_of(Units::read_by(
            rt,
            alloc,
            info,
            ABBREVS,
            FileKind::Given,
            room,
            workers,
        ));
        same(rt, &found, &alone);
    }
}

#[test]
fn reads_by_several_workers(rt: HostRuntime) {
    let info = many_units(&rt, rt.alloc());
    let info = info.as_slice();
    assert!(rt; info.len() == 252_000);
    let units = Units::read_by(&rt, rt.alloc(), info, ABBREVS, FileKind::Given, 24_000, 3);
    let last = RawUnit {
        at: 251_979,
        end: 252_000,
        abbrev: 0,
        kind: 1,
        signature: 0,
        type_offset: 0,
        first: 23_998,
    };
    let lowest = RawEntry {
        at: 251_992,
        tag: 0x24,
        unit: 11_999,
        depth: 2,
        end: 24_000,
        attrs: 3,
    };
    same(
        &rt,
        &last_of(units),
        &Ok((12_000, 24_000, Some(last), Some(lowest))),
    );
    reads_as_one(&rt, rt.alloc(), info, 24_000);
    reads_as_one(&rt, rt.alloc(), info, 23_999);
}

#[test]
fn finds_the_first_fault_by_several_workers(rt: HostRuntime) {
    let mut info = many_units(&rt, rt.alloc());
    // the code of a type in the last unit, and then the version of one before it
    for (at, byte) in [(251_992, 3), (100_804, 4)] {
        assert!(rt; at < info.len());
        info[at] = byte;
        let info = info.as_slice();
        assert!(rt; info.len() == 252_000);
        reads_as_one(&rt, rt.alloc(), info, 24_000);
    }
}
