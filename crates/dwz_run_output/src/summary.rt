//! The lengths of the files before and afterwards.

ghost use Rattle.std.specs.Prelude.{◌≡◌, IfOk, get_or, length, map};
ghost use Rattle.std.specs.Option.{option_map};
ghost use Rattle.dwz_def_readback.specs.Files.{CommonFile, Run};
ghost use Rattle.dwz_def_run.specs.Out.{summary_lines_by, sup_name};
ghost use Rattle.dwz_words.specs.declared.options.Options.{Options};
ghost use Rattle.dwz_run_output.specs.Making.{AreBefore, AreBytesOf};

use crate::rows::{content_of, copy_name};
use dwz_model::{Blob, NoMemory};
use std::alloc::Global;

// How many new bytes the file with a number has, where it has some.
fn new_length(files: &[Option<Blob>], file: usize) -> Option<u64>
    ensures { result ≡ option_map (λ bytes. length bytes) (get_or files.now file None) }
{
    match files.get(file) {
        Some(Some(bytes)) => Some(bytes.len() as u64),
        _ => None,
    }
}

/// For each name of a file its line: the length of its content, and of its new bytes where it has some.
pub(crate) fn lines(
    alloc: Global,
    names: &[Blob],
    contents: &[Vec<u8>],
    files: &[Option<Blob>],
) -> Result<Vec<(Blob, u64, Option<u64>)>, NoMemory>
    ensures { (k : CommonFile) (o : Options) (r : Run) → AreBefore r (map (λ c. c.items) contents.now) → AreBytesOf k (sup_name o) r files.now
        → IfOk result (λ lines. lines.items ≡ summary_lines_by k o r 0 names.now) }
{
    let mut lines = Vec::new(alloc);
    for (file, name) in names.iter().enumerate() {
        let old = content_of(contents, file).len() as u64;
        lines.push((copy_name(alloc, name)?, old, new_length(files, file)))?;
    }
    Ok(lines)
}
