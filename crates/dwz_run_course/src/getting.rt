//! The contents of the files that are got.
//!
//! That contents are bytes is said of what was got, not of what is held: a store gives any list of numbers for a name, and what a get gives
//! has the type of bytes. So the laws on what reads back ask nothing of a store.

ghost use Rattle.std.specs.Prelude.{◌≡◌, ◌≤◌, ◌^◌, Contains, IfErr, IfOk, IfSome, OnOk, List, Some, ℕ, map};
ghost use Rattle.dwz_outside.specs.Told.{FailedRead, LeavesPuts};
ghost use Rattle.dwz_run_course.specs.Gets.{gets_by, is_longer_than, longest_behind};
ghost use Rattle.dwz_run_course.specs.Ungot.{IsUngot};
ghost use Rattle.dwz_run_course.specs.declared.getting.GetStop.TheVariants.{NoMemory as no_memory_to_get};

use dwz_outside::{Files, GetErr};
use dwz_words::Options;
use std::alloc::{AllocError, AllocFailed, Global};

/// Why contents weren't got.
#[derive(Debug, Drop)]
pub(crate) enum GetStop {
    /// The get of the name of this number failed.
    Failed(usize),
    NoMemory,
}

impl<T: Drop> From<AllocFailed<T>> for GetStop {
    ghost from_gives = { λ _ e. e ≡ no_memory_to_get };

    fn from(_error: AllocFailed<T>) -> GetStop {
        GetStop::NoMemory
    }
}

const LONGEST_FILE: usize = 1 << 28;

const LONGEST_FILES: usize = 1 << 29;

/// How long a file behind the first may be by itself for the gets to go on. With `--batch` one that is too long is refused by itself.
pub(crate) fn longest_behind(options: &Options) -> usize
    ensures { result ≡ longest_behind options.now }
{
    if options.batch.is_some() {
        LONGEST_FILES
    } else {
        LONGEST_FILE
    }
}

// Whether a content is longer than this, or too long after so many bytes.
fn is_too_long(longest: usize, before: usize, content: &[u8]) -> bool
    requires { before ≤ 2 ^ 29 }
    ensures { result ≡ is_longer_than longest before content.now }
{
    content.len() > longest || content.len() > LONGEST_FILES - before
}

/// One get for each name in order, up to the first that fails, or the first whose content is too long. Those behind the first may be so long
/// by themselves.
pub(crate) fn got_all<F: Files>(
    alloc: Global,
    files: &mut F,
    names: &[&[u8]],
    behind: usize,
) -> Result<Vec<Vec<u8>>, GetStop>
    ensures got { IfOk result (λ v. IfSome (F.told files.old).held
        (λ store. gets_by (2 ^ 28) behind store 0 (map (λ name. name.now) names.now) ≡ Some (map (λ c. c.items) v.items))) }
    ensures failed { IfErr result (IsUngot (F.told files.old) (F.told files.new) (map (λ name. name.now) names.now)) }
    ensures reads { OnOk result ((F.told files.new).last_read ≡ (F.told files.old).last_read) }
    ensures leaves { LeavesPuts (F.told files.old) (F.told files.new) }
{
    let mut contents = Vec::new(alloc);
    let mut before: usize = 0;
    let mut longest = LONGEST_FILE;
    for (i, name) in names.iter().enumerate() {
        let content = match files.get(alloc, name) {
            Ok(content) => content,
            Err(GetErr::Failed) => return Err(GetStop::Failed(i)),
            Err(GetErr::NoMemory) => return Err(GetStop::NoMemory),
        };
        let ends = is_too_long(longest, before, &content);
        let len = content.len();
        contents.push(content)?;
        if ends {
            return Ok(contents);
        }
        before += len;
        longest = behind;
    }
    Ok(contents)
}
