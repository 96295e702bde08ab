//! Labels of the tops of a small file, worked out by hand.

use dwz_graph::Graph;
use dwz_label_files::{bare, count_tops, label};
use std::test::Fail;

// Three units. The first has a line table of the files `a.c` and `b.h`, and no language; a variable that has a value of each kind, which a
// top that stays may have too; and the base type `int`, which an expression and a location list of the variable name. The second one is in
// the language 12: in the namespace `n` it has a typedef without a name, and `int`, which is its type. The language of the third one is
// the number -2; it has a type `x` of no file.
pub(crate) const FILE: &str =
    "7f454c4602010100000000000000000003003e0001000000000000000000000000000000000000009801000000000000000000004000000000004000\
0600050040000000050001080000000001000000000276000100010107090000000000000000040000000500000000000000ff7fb964059102a83c9f\
0c00000003696e74000405001b0000000500010800000000040c056e00061600000003696e7400040500000f0000000500010800000000077e087800\
00000111011017000002340003083a0b580b3f0c3c191c0a11011229551769202f0b220d370f40180217000003240003080b0b3e0b0000041101130b\
00000539010308000006160049130000071101130d0000083b0003083a0b0000002b0000000500080023000000010101fb0e0d000101010100000001\
000001010108010001010802612e6300622e6800000000000000000000000000040004059a3c00000000002e64656275675f696e666f002e64656275\
675f616262726576002e64656275675f6c696e65002e64656275675f6c6f636c69737473002e73687374727461620000000000000000000000000000\
000000000000000000000000000000000000000000000000000000000000000000000000000000000000000000000000000000000100000001000000\
00000000000000000000000000000000400000000000000076000000000000000000000000000000010000000000000000000000000000000d000000\
0100000000000000000000000000000000000000b6000000000000005b00000000000000000000000000000001000000000000000000000000000000\
1b000000010000000000000000000000000000000000000011010000000000002f000000000000000000000000000000010000000000000000000000\
000000002700000001000000000000000000000000000000000000004001000000000000160000000000000000000000000000000100000000000000\
000000000000000037000000030000000000000000000000000000000000000056010000000000004100000000000000000000000000000001000000\
000000000000000000000000";

// Tops by their numbers, with their labels. A label has the language; the names of the spaces round the top; and for each entry how many
// are below it, its tag, and its attributes: the name, the kind of the value and what it says, and how many entries it names, with their
// paths in their tops.
const LABELS: [(u32, &[u8]); 3] = [
    (
        0,
        b"\0\0\0\x34\x0f\x03\x04\x01v\0\x3a\x05\x01\x03b.h\0\x58\x05\x01\x03a.c\0\x3f\x02\x01\0\x3c\x02\x01\0\x1c\x03\x01\x07\0\
\x11\x08\x09\0\x12\x09\0\0\x55\x0a\x04\0\x69\x07\x05\0\x2f\0\x01\xff\x01\0\x22\x01\0\0\0\x37\0\0\xb9\x64\0\
\x40\x0b\x03\0\x03\x91\x02\xa8\x01\x01\x01\0\0\x01\x9f\x01\x01\0\x02\x0c\x01\x03\0\x01\x9a\x01\x04\0\x01\0\0\x01\x01\0",
    ),
    (2, b"\x01\x0c\x01\x01n\0\x16\x01\x49\x06\x01\x01\0"),
    (4, b"\x02\x01\0\0\x3b\x02\x03\x04\x01x\0\x3a\x05\0\0"),
];

#[test]
fn labels_say_what_tops_have(rt: HostRuntime) -> Result<(), Fail> {
    let alloc = rt.alloc();
    let files = [hex::decode(alloc, FILE)?];
    let graph = Graph::read(alloc, &files)?;
    let count = count_tops(alloc, &graph);
    assert!(rt; count == 5);
    for (top, want) in LABELS {
        assert!(rt; (top as usize) < count);
        let found = label(alloc, &graph, top)?;
        assert!(rt; found.as_slice() == want, "of top {top}");
    }
    Ok(())
}

// Tops by their numbers, with their labels without the language: the two base types stand in other spaces.
const BARE: [(u32, &[u8]); 4] = [
    (
        1,
        b"\0\0\x24\x03\x03\x04\x03int\0\x0b\0\0\x04\0\x3e\0\0\x05\0",
    ),
    (2, b"\x01\x01n\0\x16\x01\x49\x06\x01\x01\0"),
    (
        3,
        b"\x01\x01n\0\x24\x03\x03\x04\x03int\0\x0b\0\0\x04\0\x3e\0\0\x05\0",
    ),
    (4, b"\0\0\x3b\x02\x03\x04\x01x\0\x3a\x05\0\0"),
];

#[test]
fn bare_labels_have_no_language(rt: HostRuntime) -> Result<(), Fail> {
    let alloc = rt.alloc();
    let files = [hex::decode(alloc, FILE)?];
    let graph = Graph::read(alloc, &files)?;
    let count = count_tops(alloc, &graph);
    for (top, want) in BARE {
        assert!(rt; (top as usize) < count);
        let found = bare(alloc, &graph, top)?;
        assert!(rt; found.as_slice() == want, "of top {top}");
    }
    Ok(())
}
