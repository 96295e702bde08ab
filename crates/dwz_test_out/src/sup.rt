//! Bytes from outside: the digest of `abc` that the standard gives, and a file that an independent model makes.

use crate::expect::holds;
use dwz_elf::Elf;
use dwz_model::{Blob, DEBUG_SUP, Fault, ReadErr, Reason, Sections, WHOLE_FILE};
use dwz_sup::{SupRef, checksum, common_file, debug_sup, read_sup, sup_in};
use std::test::Fail;

const ABC: &[u8; 32] = b"\
    \xba\x78\x16\xbf\x8f\x01\xcf\xea\x41\x41\x40\xde\x5d\xae\x22\x23\
    \xb0\x03\x61\xa3\x96\x17\x7a\x9c\xb4\x10\xff\x61\xf2\x00\x15\xad";

#[test]
fn sums_and_names(rt: HostRuntime) {
    holds(&rt, "three", checksum(b"a", b"b", b"c") == *ABC);
    holds(&rt, "one", checksum(b"", b"abc", b"") == *ABC);
    let bytes = debug_sup(rt.alloc(), false, b"x.debug", ABC).expect(&rt, "memory");
    let bytes = bytes.as_slice();
    let told = b"\x05\0\0x.debug\0\x20\xba\x78";
    holds(&rt, "its length", bytes.len() == 44);
    holds(&rt, "its start", bytes.starts_with(told.as_slice()));
    holds(&rt, "its sum", bytes.ends_with(ABC.as_slice()));
}

// Whether a section says this: whether the file is the supplementary one, the name, and the checksum.
fn says(found: Option<SupRef>, expected: Option<(bool, &[u8], &[u8])>) -> bool {
    match found {
        Some(sup) => expected == Some((sup.supplementary, sup.name, sup.sum)),
        None => expected.is_none(),
    }
}

// What sections say by 7.3.6, if they are spelled so.
const SAID: &[(&str, &[u8], Option<(bool, &[u8], &[u8])>)] = &[
    (
        "of the supplementary file",
        b"\x05\0\x01\0\x20\
            \xba\x78\x16\xbf\x8f\x01\xcf\xea\x41\x41\x40\xde\x5d\xae\x22\x23\
            \xb0\x03\x61\xa3\x96\x17\x7a\x9c\xb4\x10\xff\x61\xf2\x00\x15\xad",
        Some((true, b"", ABC)),
    ),
    (
        "of a file that refers to it",
        b"\x05\0\0x.debug\0\x03abc",
        Some((false, b"x.debug", b"abc")),
    ),
    (
        "named in both",
        b"\x05\0\x01x\0\x01a",
        Some((true, b"x", b"a")),
    ),
    (
        "a padded length",
        b"\x05\0\0x\0\x81\0a",
        Some((false, b"x", b"a")),
    ),
    ("an empty sum", b"\x05\0\x01\0\0", Some((true, b"", b""))),
    ("version 4", b"\x04\0\x01\0\x01a", None),
    ("version 261", b"\x05\x01\x01\0\x01a", None),
    ("flag 2", b"\x05\0\x02\0\x01a", None),
    ("no zero byte", b"\x05\0\0x.debug", None),
    ("a shorter sum", b"\x05\0\x01\0\x02a", None),
    ("a longer sum", b"\x05\0\x01\0\x02abc", None),
    ("no length", b"\x05\0\x01\0", None),
    ("a length without an end", b"\x05\0\x01\0\x81", None),
    ("no name", b"\x05\0\x01", None),
    ("no flag", b"\x05\0", None),
    ("half a version", b"\x05", None),
    ("nothing", b"", None),
];

// The fault of a section that isn't spelled so.
const BAD_SUP: Fault = Fault {
    section: DEBUG_SUP,
    at: 0,
    reason: Reason::BadSup,
};

#[test]
fn says_what_sections_say(rt: HostRuntime) {
    for (row, section, expected) in SAID {
        holds(&rt, row, says(sup_in(section), *expected));
        match read_sup(rt.alloc(), section) {
            Ok(sup) => {
                let said = (sup.supplementary, sup.name.as_slice(), sup.sum.as_slice());
                holds(&rt, row, *expected == Some(said));
            }
            Err(error) => {
                holds(&rt, row, expected.is_none());
                holds(&rt, row, error == ReadErr::Refused(BAD_SUP));
            }
        }
    }
}

// The file of `.debug_info` 1, 2, 3, `.debug_abbrev` 4 and `.debug_str` `a`, for machine 183: the file header, the contents, the
// names, two zero bytes, and six section headers of two lines each.
const FILE: &[u8] = b"\
    \x7fELF\x02\x01\x01\0\0\0\0\0\0\0\0\0\x03\0\xb7\0\x01\0\0\0\0\0\0\0\0\0\0\0\
    \0\0\0\0\0\0\0\0\xa8\0\0\0\0\0\0\0\0\x04\0\x05@\0\0\0\0\0@\0\x06\0\x05\0\
    \x01\x02\x03\
    \x04\
    a\0\
    \x05\0\x01\0 L\xe0\xddk\x9b\xa7C\xa6\xbb\x85k\xe5\x8cr\xc9\xa4\xa0\xeby;.\x87\xe8\xd3(]\x9c\
    \x92\x93\xd1:\xd4\
    \0.debug_info\0.debug_abbrev\0.debu\
    g_str\0.debug_sup\0.shstrtab\0\
    \0\0\
    \0\0\0\0\0\0\0\0\0\0\0\0\0\0\0\0\0\0\0\0\0\0\0\0\0\0\0\0\0\0\0\0\
    \0\0\0\0\0\0\0\0\0\0\0\0\0\0\0\0\0\0\0\0\0\0\0\0\0\0\0\0\0\0\0\0\
    \x01\0\0\0\x01\0\0\0\0\0\0\0\0\0\0\0\0\0\0\0\0\0\0\0@\0\0\0\0\0\0\0\
    \x03\0\0\0\0\0\0\0\0\0\0\0\0\0\0\0\x01\0\0\0\0\0\0\0\0\0\0\0\0\0\0\0\
    \x0d\0\0\0\x01\0\0\0\0\0\0\0\0\0\0\0\0\0\0\0\0\0\0\0C\0\0\0\0\0\0\0\
    \x01\0\0\0\0\0\0\0\0\0\0\0\0\0\0\0\x01\0\0\0\0\0\0\0\0\0\0\0\0\0\0\0\
    \x1b\0\0\0\x01\0\0\00\0\0\0\0\0\0\0\0\0\0\0\0\0\0\0D\0\0\0\0\0\0\0\
    \x02\0\0\0\0\0\0\0\0\0\0\0\0\0\0\0\x01\0\0\0\0\0\0\0\x01\0\0\0\0\0\0\0\
    &\0\0\0\x01\0\0\0\0\0\0\0\0\0\0\0\0\0\0\0\0\0\0\0F\0\0\0\0\0\0\0\
    %\0\0\0\0\0\0\0\0\0\0\0\0\0\0\0\x01\0\0\0\0\0\0\0\0\0\0\0\0\0\0\0\
    1\0\0\0\x03\0\0\0\0\0\0\0\0\0\0\0\0\0\0\0\0\0\0\0k\0\0\0\0\0\0\0\
    ;\0\0\0\0\0\0\0\0\0\0\0\0\0\0\0\x01\0\0\0\0\0\0\0\0\0\0\0\0\0\0\0\
";

#[test]
fn makes_the_file_of_the_model(rt: HostRuntime) -> Result<(), Fail> {
    let alloc = rt.alloc();
    let sections = Sections {
        info: Blob::new([1, 2, 3].to_vec(alloc)?),
        abbrev: Blob::new([4].to_vec(alloc)?),
        strs: Some(Blob::new(b"a\0".to_vec(alloc)?)),
        offsets: None,
        line: None,
        loclists: None,
        aranges: None,
    };
    let file = common_file(alloc, 183, 0x0500_0400, &sections)?;
    holds(&rt, "all bytes", file.as_slice() == FILE);
    Ok(())
}

// Where the header of its `.debug_sup` is, the fifth.
const SUP_HEADER: u64 = 0xa8 + 4 * 64;

#[test]
fn reads_the_file_of_the_model(rt: HostRuntime) {
    let alloc = rt.alloc();
    let refused = Fault {
        section: WHOLE_FILE,
        at: SUP_HEADER,
        reason: Reason::Index,
    };
    match Elf::read(alloc, FILE) {
        Ok(_) => holds(&rt, "refused by itself", false),
        Err(error) => holds(&rt, "its fault", error == ReadErr::Refused(refused)),
    }
    let elf = Elf::read_with_sup(alloc, FILE).expect(&rt, "a file");
    let sum = &FILE[0x4b..0x6b];
    let said = sup_in(elf.content(FILE, DEBUG_SUP));
    holds(&rt, "what it says", says(said, Some((true, b"", sum))));
}
