//! What is wrong with a row: its text, or what comes of its runs.

use hex::FromHexError;
use std::alloc::{AllocError, AllocFailed};
use std::io;
use std::num::ParseIntError;

/// What is wrong, in words.
#[derive(Clone, Copy)]
pub(crate) struct Wrong(pub(crate) &'static str);

impl From<AllocError> for Wrong {
    fn from(_error: AllocError) -> Wrong {
        Wrong("out of memory")
    }
}

impl<T: Drop> From<AllocFailed<T>> for Wrong {
    fn from(_error: AllocFailed<T>) -> Wrong {
        Wrong("out of memory")
    }
}

impl From<ParseIntError> for Wrong {
    fn from(_error: ParseIntError) -> Wrong {
        Wrong("not a number")
    }
}

impl From<FromHexError> for Wrong {
    fn from(_error: FromHexError) -> Wrong {
        Wrong("not bytes in hexadecimal")
    }
}

impl From<io::Error> for Wrong {
    fn from(_error: io::Error) -> Wrong {
        Wrong("input or output fails")
    }
}
