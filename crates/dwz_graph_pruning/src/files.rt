//! Which files are prunable.

ghost use Rattle.std.specs.Prelude.{◌≡◌, ℕ, ◌↔◌, IfOk, map, true};
ghost use Rattle.dwz_def_readback.specs.Prunable.{IsPrunable};
ghost use Rattle.dwz_graph.specs.Files.{IsRead, docs_of};
ghost use Rattle.dwz_def_reading.specs.Files.{Limits};
ghost use Rattle.dwz_def_output.specs.Written.{ArePrunable};
ghost use Rattle.dwz_graph_pruning.specs.Files.{WasReadFrom};

use crate::units::units_stay;
use dwz_graph::{File, Graph};
use dwz_lines::uses_strp;
use dwz_model::NoMemory;
use dwz_strs::slots;
use std::alloc::Global;

// The section of macros (DWARF 5, 6.3).
const MACROS: &[u8] = b".debug_macro";

/// Whether a file is prunable that was read from these bytes: it has no `.debug_macro`; its `.debug_str_offsets` is a row of
/// contributions without gaps, and its `.debug_line` one of line tables, none of which has a path in `.debug_str`; each text by a slot
/// has one of those slots; and no line table that its units read has a path in `.debug_str`.
pub fn is_prunable(alloc: Global, bytes: &[u8], file: &File) -> Result<bool, NoMemory>
    requires { WasReadFrom bytes.now file.now }
    ensures { (l : Limits) (number : ℕ) (is : IsRead l number bytes.now file.now)
        → IfOk result (λ flag. (flag ≡ true) ↔ IsPrunable bytes.now is.doc.units) }
{
    if file.elf.has_section(bytes, MACROS) {
        return Ok(false);
    }
    let sections = &file.sections;
    let Some(slots) = slots(alloc, sections.offsets)? else {
        return Ok(false);
    };
    let strs = sections.strs.bytes;
    let line_strs = sections.line_strs.bytes;
    if uses_strp(alloc, sections.line, line_strs, strs)? != Some(false) {
        return Ok(false);
    }
    let resolved = &file.resolved;
    Ok(units_stay(
        alloc,
        &file.units,
        &resolved.tables,
        &resolved.lines,
        slots.as_slice(),
    )?)
}

/// For each file whether it is prunable. These are the contents that the files were read from.
pub fn prunable_files(
    alloc: Global,
    contents: &[Vec<u8>],
    graph: &Graph,
) -> Result<Vec<bool>, NoMemory>
    requires { graph.now.given ≡ map (λ v. v.items) contents.now }
    ensures { IfOk result (λ flags. ArePrunable graph.now.given (docs_of graph.now.given) flags.items) }
{
    let mut flags = Vec::with_capacity(alloc, contents.len())?;
    for (number, file) in graph.files().iter().enumerate() {
        flags.push(is_prunable(alloc, contents[number].as_slice(), file)?)?;
    }
    Ok(flags)
}
