//! The bytes of the files of which something moves.

ghost use Rattle.std.specs.Prelude.{◌≡◌, ℕ, ◌<◌, ◌^◌, List, [], None, IfOk, OnOk, get_or, length, map};
ghost use Rattle.std.specs.Option.{option_map};
ghost use Rattle.dwz_def_reading.specs.ElfReading.{elf_of};
ghost use Rattle.dwz_def_readback.specs.Files.{CommonFile, Run, imports_common};
ghost use Rattle.dwz_elf.specs.Rebuilds.{Finishes};
ghost use Rattle.dwz_def_output.specs.Changed.{CanGiveAll, changes_by};
ghost use Rattle.dwz_def_output.specs.FilesAfter.{sup_after_by};
ghost use Rattle.dwz_run_output.specs.Giving.{IsThere, given, with_sup_if};
ghost use Rattle.dwz_run_output.specs.Making.{AnswersAll, AnswersFile, CanMake, IsSupOf};

use crate::faults::in_file;
use crate::rows::take_row;
use dwz_def_output::NewFile;
use dwz_elf::{Elf, Rebuild};
use dwz_graph::Graph;
use dwz_model::{
    Blob, DEBUG_ABBREV, DEBUG_ARANGES, DEBUG_INFO, DEBUG_LINE, DEBUG_LOCLISTS, DEBUG_STR,
    DEBUG_STR_OFFSETS, GraphErr, NoMemory, ReadErr, Sections,
};
use std::alloc::Global;

// Gives the section with a code its new bytes, if there are some. One that isn't there gets none.
fn give(rebuild: &mut Rebuild<'_>, elf: &Elf, code: u8, bytes: Option<Blob>) -> Result<(), NoMemory>
    requires { rebuild.old.elf ≡ elf.now }
    ensures file { OnOk result (rebuild.new.elf ≡ elf.now) }
    ensures given { IsThere elf.now code bytes → OnOk result (rebuild.new ≡ given code bytes rebuild.old) }
{
    if let Some(bytes) = bytes
        && elf.section(code).is_some()
    {
        rebuild.replace(code, bytes)?;
    }
    Ok(())
}

// Adds `.debug_sup`, if there is one.
fn add_sup(rebuild: &mut Rebuild<'_>, sup: Option<Blob>) -> Result<(), NoMemory>
    requires { rebuild.old.changes.sup ≡ None }
    ensures file { OnOk result (rebuild.new.elf ≡ rebuild.old.elf) }
    ensures given { OnOk result (rebuild.new ≡ with_sup_if sup rebuild.old) }
{
    match sup {
        Some(sup) => rebuild.add_sup(sup),
        None => Ok(()),
    }
}

// The file with these sections in place of its own, and with that `.debug_sup`.
fn rebuild_file(
    alloc: Global,
    bytes: &[u8],
    elf: &Elf,
    sections: Sections,
    sup: Option<Blob>,
) -> Result<Vec<u8>, ReadErr>
    requires { elf.now ≡ elf_of bytes.now }
    ensures { CanGiveAll bytes.now sections
        → Finishes (λ out. out.items) (record { elf = elf_of bytes.now; changes = changes_by sections sup }) bytes.now result }
{
    let Sections {
        info,
        abbrev,
        strs,
        offsets,
        line,
        loclists,
        aranges,
    } = sections;
    let mut rebuild = Rebuild::new(alloc, elf);
    add_sup(&mut rebuild, sup)?;
    give(&mut rebuild, elf, DEBUG_ARANGES, aranges)?;
    give(&mut rebuild, elf, DEBUG_LOCLISTS, loclists)?;
    give(&mut rebuild, elf, DEBUG_LINE, line)?;
    give(&mut rebuild, elf, DEBUG_STR_OFFSETS, offsets)?;
    give(&mut rebuild, elf, DEBUG_STR, strs)?;
    give(&mut rebuild, elf, DEBUG_ABBREV, Some(abbrev))?;
    give(&mut rebuild, elf, DEBUG_INFO, Some(info))?;
    rebuild.finish(alloc, bytes)
}

// `.debug_sup` of a file, where it imports from the common file, whose files have that.
fn sup_of_file(alloc: Global, sup: Option<&[u8]>, imports: bool) -> Result<Option<Blob>, NoMemory>
    ensures { (k : CommonFile) (name : List ℕ) (r : Run) (file : ℕ) → IsSupOf k name r (option_map (λ s. s.now) sup.entry)
        → imports ≡ imports_common r.move r.units file → IfOk result (λ own. own ≡ sup_after_by k name r file) }
{
    match sup {
        Some(sup) if imports => Ok(Some(Blob::new(Vec::from_slice(alloc, sup)?))),
        _ => Ok(None),
    }
}

// The new bytes of the file with a number, where something of it moves.
fn made_file(
    alloc: Global,
    file: u32,
    bytes: &[u8],
    elf: &Elf,
    sup: Option<&[u8]>,
    new: Option<NewFile>,
) -> Result<Option<Blob>, GraphErr>
    requires { elf.now ≡ elf_of bytes.now }
    ensures { (k : CommonFile) (name : List ℕ) (r : Run) → IsSupOf k name r (option_map (λ s. s.now) sup.entry) → CanMake k r file bytes.now new
        → AnswersFile k name r file result }
{
    let Some(new) = new else {
        return Ok(None);
    };
    let NewFile {
        sections,
        narrow: _,
        imports,
    } = new;
    let own = sup_of_file(alloc, sup, imports)?;
    match rebuild_file(alloc, bytes, elf, sections, own) {
        Ok(out) => Ok(Some(Blob::new(out))),
        Err(ReadErr::Refused(fault)) => Err(GraphErr::Refused(in_file(file, fault))),
        Err(ReadErr::NoMemory) => Err(GraphErr::NoMemory),
    }
}

/// For each file its new bytes, or None where nothing of it moves. One that imports from the common file gets that `.debug_sup`. Refused
/// with the first file that can't be laid out around its loaded bytes, or that is too large.
pub(crate) fn all_made(
    alloc: Global,
    contents: &[Vec<u8>],
    graph: &Graph<'_>,
    sup: Option<&[u8]>,
    mut made: Vec<Option<NewFile>>,
) -> Result<Vec<Option<Blob>>, GraphErr>
    requires read { graph.now.given ≡ map (λ c. c.items) contents.now }
    requires few { length contents.now < 2 ^ 32 }
    ensures { (k : CommonFile) (name : List ℕ) (r : Run) → IsSupOf k name r (option_map (λ s. s.now) sup.entry)
        → ((file : ℕ) → file < length contents.now → CanMake k r file (get_or graph.now.given file []) (get_or made.items file None))
        → AnswersAll (λ files. files.items) k name r (length contents.now) result }
{
    let mut files = Vec::new(alloc);
    for (file, content) in contents.iter().enumerate() {
        let number = file as u32;
        let new = take_row(&mut made, file);
        let bytes = made_file(
            alloc,
            number,
            content.as_slice(),
            &graph.file(number).elf,
            sup,
            new,
        )?;
        files.push(bytes)?;
    }
    Ok(files)
}
