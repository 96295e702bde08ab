//! What is put of the files.

ghost use Rattle.std.specs.Prelude.{◌≡◌, ◌++◌, OnOk, is_some, map, unwrap_or};
ghost use Rattle.dwz_def_readback.specs.Files.{CommonFile, Run};
ghost use Rattle.dwz_words.specs.declared.options.Options.{Options};
ghost use Rattle.dwz_def_run.specs.Out.{files_puts_by, puts_by, sup_name};
ghost use Rattle.dwz_run_output.specs.Making.{AreBefore, AreBytesOf};

use crate::rows::{content_of, copy_name, take_row};
use dwz_model::{Blob, NoMemory};
use dwz_outside::Put;
use std::alloc::Global;

// Adds what is put of a file: its new bytes, or else its old ones where the output goes elsewhere.
fn add_put(
    alloc: Global,
    puts: &mut Vec<Put>,
    out: &Option<Blob>,
    name: &Blob,
    old: &[u8],
    new: Option<Blob>,
) -> Result<(), NoMemory>
    ensures { OnOk result (puts.new.items ≡ puts.old.items ++ puts_by (is_some new) out.now name.now (unwrap_or new old.now)) }
{
    let place = match out {
        Some(out) => out,
        None if new.is_some() => name,
        None => return Ok(()),
    };
    let bytes = match new {
        Some(new) => new,
        None => Blob::new(Vec::from_slice(alloc, old)?),
    };
    let name = copy_name(alloc, place)?;
    puts.push(Put { name, bytes })?;
    Ok(())
}

/// Adds what is put of the files, in order, to the one output where that is given, and else each to its name.
pub(crate) fn add_files(
    alloc: Global,
    puts: &mut Vec<Put>,
    out: &Option<Blob>,
    names: &[Blob],
    contents: &[Vec<u8>],
    mut files: Vec<Option<Blob>>,
) -> Result<(), NoMemory>
    ensures { (k : CommonFile) (o : Options) (r : Run) → o.out ≡ out.now → AreBefore r (map (λ c. c.items) contents.now)
        → AreBytesOf k (sup_name o) r files.items → OnOk result (puts.new.items ≡ puts.old.items ++ files_puts_by k o r 0 names.now) }
{
    for (file, name) in names.iter().enumerate() {
        let new = take_row(&mut files, file);
        let old = content_of(contents, file);
        add_put(alloc, puts, out, name, old, new)?;
    }
    Ok(())
}
