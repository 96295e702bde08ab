//! How tests compare, and how they read tables. What stands here is proved once, and each test only calls it.

use std::alloc::Global;
use std::fmt::Debug;
use std::process::Abort;

/// Ends the test, with both values, unless what is found is what is expected.
pub(crate) fn same<R: Abort, T: PartialEq + Debug>(rt: &R, found: &T, expected: &T) {
    assert_eq!(rt; found, expected);
}

/// Ends the test, with the row of a table, unless a value is printed as is expected.
pub(crate) fn prints_as<R: Abort, T: Debug>(
    rt: &R,
    alloc: Global,
    row: &str,
    found: &T,
    expected: &str,
) {
    let printed = format!(in alloc; "{found:?}").expect(rt, "no memory");
    assert_eq!(rt; printed.as_str(), expected, "for {row}");
}

/// The text before the first bar, and what stands behind it.
pub(crate) fn split_bar<'a, R: Abort>(rt: &R, text: &'a str) -> (&'a str, &'a str) {
    text.split_once('|').expect(rt, "a bar")
}

/// The bytes that are spelled in hexadecimal.
pub(crate) fn bytes_of<R: Abort>(rt: &R, alloc: Global, digits: &str) -> Vec<u8> {
    hex::decode(alloc, digits).expect(rt, "bytes in hexadecimal")
}

/// The number that is spelled in decimal.
pub(crate) fn number_of<R: Abort>(rt: &R, digits: &str) -> u32 {
    digits.parse::<u32>().expect(rt, "a number")
}
