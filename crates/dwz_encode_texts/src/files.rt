//! Where the texts of all files stand.

ghost use Rattle.std.specs.Prelude.{◌≡◌, map, IfOk};
ghost use Rattle.dwz_encode_texts.specs.Files.{texts_in_file};

use crate::texts::texts_of;
use dwz_graph::File;
use dwz_layout::TextAt;
use dwz_model::NoMemory;
use std::alloc::Global;

/// The texts of each file, as `texts_of` gives them.
pub fn texts_of_files(alloc: Global, files: &[File]) -> Result<Vec<Vec<TextAt>>, NoMemory>
    ensures { IfOk result (λ all. map (λ texts. texts.items) all.items ≡ map texts_in_file files.now) }
{
    let mut all = Vec::with_capacity(alloc, files.len())?;
    for file in files {
        let texts = texts_of(alloc, &file.units, &file.sections)?;
        all.push(texts)?;
    }
    Ok(all)
}
