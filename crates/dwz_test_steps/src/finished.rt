//! A finished common file, a file that imports from it and one that is to, as an independent model makes them; and the same with one byte
//! changed.

use dwz_graph::Graph;
use dwz_model::{DEBUG_INFO, DEBUG_SUP, GraphErr, Reason, WHOLE_FILE};
use std::alloc::Global;
use std::process::Abort;
use std::test::Fail;
use std::thread::Threads;

// One partial unit with the base type `extended short unsigned int`, and the checksum of the file.
pub(crate) const COMMON: &str =
    "7f454c4602010100000000000000000003003e000100000000000000000000000000000000000000d8000000000000000000000040000000000040\
00050004002900000005000308000000000102657874656e6465642073686f727420756e7369676e656420696e7400020700013c01000002240003\
080b0b3e0b00000005000100207aa8afb9dcaa2bd9b8c92a06aeb0d93dccf5f51498722b4cff94a0b3fd300de3002e64656275675f696e666f002e\
64656275675f616262726576002e64656275675f737570002e73687374727461620000000000000000000000000000000000000000000000000000\
0000000000000000000000000000000000000000000000000000000000000000000000000000000000000000010000000100000000000000000000\
00000000000000000040000000000000002d000000000000000000000000000000010000000000000000000000000000000d000000010000000000\
00000000000000000000000000006d0000000000000011000000000000000000000000000000010000000000000000000000000000001b00000001\
000000000000000000000000000000000000007e000000000000002500000000000000000000000000000001000000000000000000000000000000\
260000000300000000000000000000000000000000000000a300000000000000300000000000000000000000000000000100000000000000000000\
0000000000";

// A variable whose type is that base type, and the import of the partial unit.
const IMPORTS: &str =
    "7f454c4602010100000000000000000003003e000100000000000000000000000000000000000000d8000000000000000000000040000000000040\
0005000300200000000500010800000000010276000d00000009030040400000000000030c0000000001110100000234000308491c02180000033d\
00181c000000002e64656275675f696e666f002e64656275675f616262726576002e7368737472746162002e64656275675f73757000050000636f\
6d6d6f6e00207aa8afb9dcaa2bd9b8c92a06aeb0d93dccf5f51498722b4cff94a0b3fd300de3000000000000000000000000000000000000000000\
0000000000000000000000000000000000000000000000000000000000000000000000000000000000000000010000000100000000000000000000\
000000000000000000400000000000000024000000000000000000000000000000010000000000000000000000000000000d000000010000000000\
0000000000000000000000000000640000000000000018000000000000000000000000000000010000000000000000000000000000001b00000003\
000000000000000000000000000000000000007c000000000000003000000000000000000000000000000001000000000000000000000000000000\
250000000100000000000000000000000000000000000000ac000000000000002b0000000000000000000000000000000100000000000000000000\
0000000000";

// The base type alone.
pub(crate) const PLAIN: &str =
    "7f454c4602010100000000000000000003003e000100000000000000000000000000000000000000a8000000000000000000000040000000000040\
00040003002900000005000108000000000102657874656e6465642073686f727420756e7369676e656420696e7400020700011101000002240003\
080b0b3e0b000000002e64656275675f696e666f002e64656275675f616262726576002e7368737472746162000000000000000000000000000000\
0000000000000000000000000000000000000000000000000000000000000000000000000000000000000000000000000000000000000001000000\
010000000000000000000000000000000000000040000000000000002d000000000000000000000000000000010000000000000000000000000000\
000d00000001000000000000000000000000000000000000006d000000000000001100000000000000000000000000000001000000000000000000\
0000000000001b00000003000000000000000000000000000000000000007e00000000000000250000000000000000000000000000000100000000\
0000000000000000000000";

// No refusal, or the number of the file, the section, the place and the reason of one.
type Expected = Option<(u32, u8, u64, Reason)>;

// Of the common file the byte at a place is another one, and the refusal that comes of it.
const OF_COMMON: [(usize, u8, Expected); 9] = [
    (0, 0x7f, None),
    (0x00, 0x00, Some((1, WHOLE_FILE, 0, Reason::NotElf))),
    (0x10, 0x05, Some((1, WHOLE_FILE, 0x10, Reason::FileType))),
    // The section has another name.
    (0xc5, b't', Some((1, WHOLE_FILE, 0, Reason::BadSup))),
    (0x7e, 0x04, Some((1, DEBUG_SUP, 0, Reason::BadSup))),
    // It is that of a file that imports.
    (0x80, 0x00, Some((1, DEBUG_SUP, 0, Reason::BadSup))),
    (0x82, 0x1f, Some((1, DEBUG_SUP, 0, Reason::BadSup))),
    (0x83, 0x7b, Some((1, DEBUG_SUP, 5, Reason::Checksum))),
    // A letter of the name of the base type.
    (0x4e, b'f', Some((1, DEBUG_SUP, 5, Reason::Checksum))),
];

// The same of a file that is to import from it.
const OF_PLAIN: [(usize, u8, Expected); 4] = [
    (0, 0x7f, None),
    (0x12, 0x3f, Some((0, WHOLE_FILE, 0x12, Reason::Machine))),
    (0x40, 0x30, Some((0, DEBUG_INFO, 0, Reason::Truncated))),
    (0x46, 0x03, Some((0, DEBUG_INFO, 0, Reason::UnitType))),
];

// The same of the file that imports from it.
const OF_IMPORTS: [(usize, u8, Expected); 9] = [
    (0, 0x7f, None),
    (0x12, 0x3f, Some((0, WHOLE_FILE, 0x12, Reason::Machine))),
    (0xac, 0x04, Some((0, DEBUG_SUP, 0, Reason::BadSup))),
    (0xae, 0x01, Some((0, DEBUG_SUP, 0, Reason::BadSup))),
    (0xb6, 0x1f, Some((0, DEBUG_SUP, 0, Reason::BadSup))),
    (0xb7, 0x7b, Some((0, DEBUG_SUP, 11, Reason::Checksum))),
    (0xd6, 0xe4, Some((0, DEBUG_SUP, 11, Reason::Checksum))),
    // A partial unit whose root is that of a compile unit.
    (0x46, 0x03, Some((0, DEBUG_INFO, 0x0c, Reason::BadRoot))),
    // In the common file no entry begins there.
    (
        0x51,
        0x0d,
        Some((0, DEBUG_INFO, 0x10, Reason::BadReference)),
    ),
];

// The bytes that are spelled in hexadecimal.
fn bytes_of<R: Abort>(rt: &R, alloc: Global, digits: &str) -> Vec<u8> {
    hex::decode(alloc, digits).expect(rt, "bytes in hexadecimal")
}

// A file in which the byte at a place is another one.
fn changed<R: Abort>(rt: &R, alloc: Global, digits: &str, at: usize, byte: u8) -> Vec<u8> {
    let mut bytes = bytes_of(rt, alloc, digits);
    let other = bytes.get_mut(at).expect(rt, "a place in the file");
    *other = byte;
    bytes
}

// The refusal, if reading has one.
fn refused<R: Abort>(rt: &R, read: Result<Graph<'_>, GraphErr>) -> Expected {
    match read {
        Ok(_) => None,
        Err(GraphErr::Refused(refusal)) => {
            Some((refusal.file, refusal.section, refusal.at, refusal.reason))
        }
        Err(GraphErr::NoMemory) => None.expect(rt, "memory"),
    }
}

// Ends the test, unless reading has that refusal, or none.
fn reads_as<R: Abort>(rt: &R, at: usize, read: Result<Graph<'_>, GraphErr>, expected: Expected) {
    assert_eq!(rt; refused(rt, read), expected, "at {at:x}");
}

// The same of a file that may have been written, beside a common file or without one.
fn reads_back<R: Abort>(
    rt: &R,
    alloc: Global,
    common: Option<&[u8]>,
    file: Vec<u8>,
    at: usize,
    expected: Expected,
) {
    let files = [file];
    reads_as(rt, at, Graph::read_back(alloc, &files, common), expected);
}

// The same of a file that is to import from the common file, on one thread and by three workers.
fn reads_beside<R: Abort + Threads + Sync>(
    rt: &R,
    alloc: Global,
    common: &[u8],
    file: Vec<u8>,
    at: usize,
    expected: Expected,
) {
    let files = [file];
    reads_as(rt, at, Graph::read_sup(alloc, &files, common), expected);
    reads_as(
        rt,
        at,
        Graph::read_sup_by(rt, alloc, &files, common, 3),
        expected,
    );
}

#[test]
fn a_common_file_is_read_first(rt: HostRuntime) {
    let alloc = rt.alloc();
    for (at, byte, expected) in OF_COMMON {
        let common = changed(&rt, alloc, COMMON, at, byte);
        let common = common.as_slice();
        let file = bytes_of(&rt, alloc, PLAIN);
        reads_beside(&rt, alloc, common, file, at, expected);
        let file = bytes_of(&rt, alloc, PLAIN);
        reads_back(&rt, alloc, Some(common), file, at, expected);
    }
}

#[test]
fn files_are_read_beside_it(rt: HostRuntime) {
    let alloc = rt.alloc();
    let common = bytes_of(&rt, alloc, COMMON);
    let common = common.as_slice();
    for (at, byte, expected) in OF_PLAIN {
        let file = changed(&rt, alloc, PLAIN, at, byte);
        reads_beside(&rt, alloc, common, file, at, expected);
    }
    for (at, byte, expected) in OF_IMPORTS {
        let file = changed(&rt, alloc, IMPORTS, at, byte);
        reads_back(&rt, alloc, Some(common), file, at, expected);
    }
}

#[test]
fn files_that_import_want_it(rt: HostRuntime) {
    let alloc = rt.alloc();
    let missing = Some((0, DEBUG_SUP, 0, Reason::SupMissing));
    reads_back(&rt, alloc, None, bytes_of(&rt, alloc, IMPORTS), 0, missing);
    // Without the section a form that leads there isn't read.
    let unnamed = changed(&rt, alloc, IMPORTS, 0xa8, b't');
    let form = Some((0, DEBUG_INFO, 0x0d, Reason::UnsupportedForm { form: 0x1c }));
    reads_back(&rt, alloc, None, unnamed, 0, form);
    reads_back(&rt, alloc, None, bytes_of(&rt, alloc, PLAIN), 0, None);
    let files = [bytes_of(&rt, alloc, IMPORTS)];
    let index = Some((0, WHOLE_FILE, 0x1d8, Reason::Index));
    reads_as(&rt, 0, Graph::read(alloc, &files), index);
}

#[test]
fn what_was_read_is_kept(rt: HostRuntime) -> Result<(), Fail> {
    let alloc = rt.alloc();
    let common = bytes_of(&rt, alloc, COMMON);
    let files = [bytes_of(&rt, alloc, IMPORTS)];
    let graph = Graph::read_back(alloc, &files, Some(common.as_slice()))?;
    let shared = graph.common().expect(&rt, "the common file");
    assert!(rt; shared.units.entries() == 2);
    assert!(rt; graph.files().is_empty());
    let file = graph.back().first().expect(&rt, "one file");
    // The type of the variable, and the partial unit, by the numbers of their entries behind its own three.
    assert!(rt; file.units.entries() == 3);
    assert!(rt; file.resolved.refs.as_slice() == [4, 3].as_slice());
    Ok(())
}
