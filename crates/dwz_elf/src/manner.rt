//! In what manner a file is read.

ghost use Rattle.std.specs.Prelude.{◌≡◌};
ghost use Rattle.dwz_def_reading.specs.ElfFaults.{by_itself, read_back};
ghost use Rattle.dwz_elf.specs.Manners.{manner_of};

// So many section headers that one can be added below SHN_LORESERVE.
const MOST_HEADERS: u16 = 65278;

/// How many section headers a file may have at most, and whether `.debug_sup` may be there.
#[derive(Clone, Copy)]
pub(crate) struct Manner {
    pub(crate) most_headers: u16,
    pub(crate) may_have_sup: bool,
}

impl Manner {
    /// A file by itself.
    pub(crate) fn by_itself() -> Manner
        ensures { manner_of result ≡ by_itself }
    {
        Manner {
            most_headers: MOST_HEADERS,
            may_have_sup: false,
        }
    }

    /// A file that may have been written by this tool.
    pub(crate) fn read_back() -> Manner
        ensures { manner_of result ≡ read_back }
    {
        Manner {
            most_headers: MOST_HEADERS + 1,
            may_have_sup: true,
        }
    }
}
