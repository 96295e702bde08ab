//! How tests compare: a comparison that stands here is proved once, and each test only calls it.

use std::process::Abort;

/// Ends the test, and says of which row, unless this holds.
pub(crate) fn holds(rt: &impl Abort, row: &str, is: bool) {
    assert!(rt; is, "{row}");
}
