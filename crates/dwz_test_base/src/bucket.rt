//! Hashes of texts.

use crate::expect::holds;
use dwz_bucket::{bucket, hash};

// The hashes that FNV's authors publish for these texts.
const PUBLISHED: &[(&str, u64)] = &[
    ("", 0xcbf2_9ce4_8422_2325),
    ("a", 0xaf63_dc4c_8601_ec8c),
    ("foobar", 0x8594_4171_f739_67e8),
];

#[test]
fn hashes_as_published(rt: HostRuntime) {
    for &(text, expected) in PUBLISHED {
        let bytes = text.as_bytes();
        holds(&rt, text, hash(bytes) == expected);
        let place = u64::from(bucket(bytes, 1_000_003));
        holds(&rt, text, place == expected % 1_000_003);
    }
}
