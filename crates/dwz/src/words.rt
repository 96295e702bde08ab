//! The words of the command line, as bytes.

use std::alloc::{AllocError, AllocFailed, Global};
use std::env::FillError;
use std::rt::Env;

// A word of the longest that a system hands out has fewer bytes.
const LONGEST: usize = 1 << 28;

/// Why there are no words.
#[derive(Clone, Copy, Debug, PartialEq, Eq)]
pub(crate) enum WordsErr {
    NoMemory,
    /// The system doesn't hand them out.
    Refused,
}

impl From<AllocError> for WordsErr {
    fn from(_error: AllocError) -> WordsErr {
        WordsErr::NoMemory
    }
}

impl<T: Drop> From<AllocFailed<T>> for WordsErr {
    fn from(_error: AllocFailed<T>) -> WordsErr {
        WordsErr::NoMemory
    }
}

/// The words after the program's name.
pub(crate) fn words_of<R: Env>(rt: &R, alloc: Global) -> Result<Vec<Vec<u8>>, WordsErr> {
    let mut words = Vec::new(alloc);
    for number in 1..usize::MAX {
        match word(rt, alloc, number)? {
            Some(word) => words.push(word)?,
            None => return Ok(words),
        }
    }
    Err(WordsErr::Refused)
}

// The word of a number, or None behind the last.
fn word<R: Env>(rt: &R, alloc: Global, number: usize) -> Result<Option<Vec<u8>>, WordsErr> {
    let mut room = 256;
    for _ in 0..usize::BITS {
        if room > LONGEST {
            break;
        }
        let mut bytes = vec![in alloc; 0; room]?;
        match rt.arg(number, &mut bytes) {
            Ok(len) => {
                bytes.truncate(len);
                return Ok(Some(bytes));
            }
            Err(FillError::NotPresent) => return Ok(None),
            Err(FillError::TooLong) => room *= 2,
        }
    }
    Err(WordsErr::Refused)
}

/// The length of the longest word, or 0 where there is none.
pub(crate) fn longest(words: &[Vec<u8>]) -> usize {
    let mut most = 0;
    for word in words {
        most = word.len().max(most);
    }
    most
}
