//! The digests of files that an independent model makes.

use crate::expect::holds;
use dwz_gen::make;
use dwz_sup::checksum;
use std::process::Abort;

// How many units a file has, how long it is in bytes, and the digests of the first and the second file.
const MADE: [(u32, usize, &[u8; 32], &[u8; 32]); 2] = [
    (
        2,
        648,
        b"\
            \x8e\xb6\x55\xbd\x2c\x1b\x47\x23\x44\x66\x9a\xa7\xbb\x76\x6a\x9d\
            \xb7\xb0\x74\x8d\xff\x4f\x60\xd9\x03\x6d\x78\xc1\xf1\xa7\x5f\xb8",
        b"\
            \xc0\xe2\xa6\x7d\x85\x60\xc6\xdf\xa5\xbd\x45\x99\x3f\xed\x63\xc3\
            \x7f\xf9\x46\xe6\x3e\xc7\x91\xef\xbc\x4a\xbe\x7c\x67\x40\x5c\xa1",
    ),
    (
        50,
        5880,
        b"\
            \x92\x35\x83\xcb\x1b\xc8\x2b\x0e\xa1\x23\x6e\x75\x34\x86\xcb\x1d\
            \x3d\xd6\xe5\xcb\x77\x19\x94\x21\x79\x16\x28\x80\xb3\x25\x7b\x79",
        b"\
            \xc0\xcc\x65\xe9\x88\x7e\x54\xe3\xc9\x7f\xc3\x97\x3e\x46\x8e\x5e\
            \x26\x73\xd1\x92\xd7\xd8\x88\xec\x92\x76\x08\x90\x24\xe2\x62\x91",
    ),
];

// Ends the test unless a file has this length and digest.
fn is_made(rt: &impl Abort, file: &[u8], len: usize, digest: &[u8; 32]) {
    holds(rt, "length", file.len() == len);
    let is_small = file.len() < 1 << 16;
    assert!(rt; is_small);
    holds(rt, "digest", checksum(file, b"", b"") == *digest);
}

#[test]
fn makes_the_files_of_the_model(rt: HostRuntime) {
    for (n, len, first, second) in MADE {
        let is_taken = 2 <= n && n <= 10_000;
        assert!(rt; is_taken);
        let files = make(rt.alloc(), n).expect(&rt, "memory");
        is_made(&rt, files.one.as_slice(), len, first);
        is_made(&rt, files.two.as_slice(), len, second);
    }
}
