//! What words ask for.

ghost use Rattle.std.specs.Prelude.{◌≡◌};
ghost use Rattle.dwz_words.specs.declared.options.WordsErr.TheVariants.{NoMemory};

use dwz_model::{Blob, Names};
use std::alloc::{AllocError, AllocFailed};

/// What lawful words ask for.
#[derive(Debug, Drop)]
pub struct Options {
    /// `-q`: print no summary.
    pub quiet: bool,
    /// `-m COMMON`: the name of the common file.
    pub common: Option<Blob>,
    /// `-M NAME`: the name by which files refer to the common file, in place of COMMON.
    pub name: Option<Blob>,
    /// `-o OUT`: where the one output goes, in place of the FILE.
    pub out: Option<Blob>,
    /// `-j N`: the number of workers, from 1 to 64; 4 where it is left out.
    pub workers: u32,
    /// The FILEs, in the order of the words.
    pub files: Names,
    /// `--demo N`: the number of units of each generated file, from 2 to 10,000.
    pub demo: Option<u32>,
    /// `--explain`: say why two entries aren't shared. FILEs are then FILE OFFSET FILE OFFSET.
    pub explain: bool,
    /// `--check`: say whether two files mean the same. FILEs are then OLD NEW.
    pub check: bool,
    /// `--expand`: write one file without its partial units. FILE is one, and OUT is given.
    pub expand: bool,
    /// `--reuse COMMON`: the name of the finished common file over which FILEs are written.
    pub reuse: Option<Blob>,
    /// `--batch COMMON`: the name of the finished common file over which FILEs are written, each as if it were alone with it.
    pub batch: Option<Blob>,
    /// `--sup COMMON`: the name of the finished common file beside which the files of `--check` and `--expand` are read.
    pub sup: Option<Blob>,
}

/// Why there are no options.
#[derive(Clone, Copy, Debug, PartialEq, Eq)]
pub enum WordsErr {
    /// The words aren't lawful.
    Usage,
    NoMemory,
}

impl From<AllocError> for WordsErr {
    ghost from_gives = { λ _ e. e ≡ NoMemory };

    fn from(_error: AllocError) -> WordsErr {
        WordsErr::NoMemory
    }
}

impl<T: Drop> From<AllocFailed<T>> for WordsErr {
    ghost from_gives = { λ _ e. e ≡ NoMemory };

    fn from(_error: AllocFailed<T>) -> WordsErr {
        WordsErr::NoMemory
    }
}
