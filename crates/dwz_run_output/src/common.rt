//! The common file: its first fault, its bytes, and what is put and said of it.

ghost use Rattle.std.specs.Prelude.{◌≡◌, ◌+◌, ◌++◌, ◌^◌, ◌<◌, [], IfOk, OnOk, get_or, length};
ghost use Rattle.std.specs.Option.{option_map};
ghost use Rattle.dwz_def_reading.specs.ElfHeaders.{file_header};
ghost use Rattle.dwz_def_reading.specs.ElfLayout.{too_large};
ghost use Rattle.dwz_model.specs.declared.fault.Fault.{Fault};
ghost use Rattle.dwz_def_reading.specs.SupplementaryFile.{common_sum};
ghost use Rattle.dwz_sup.specs.Common.{common_length};
ghost use Rattle.dwz_def_readback.specs.Files.{Made, Run};
ghost use Rattle.dwz_words.specs.declared.options.Options.{Options};
ghost use Rattle.dwz_def_run.specs.Out.{common_length_after, common_puts, sup_name};
ghost use Rattle.dwz_run_output.specs.Common.{FaultWith, IsCommonMade, IsLargeWith, room_of};
ghost use Rattle.dwz_run_output.specs.Making.{IsSupOf};
ghost use Rattle.dwz_def_output.specs.NewFiles.{IsFound, IsNewCommon};

use crate::faults::{TOO_LARGE, first_large, too_large};
use crate::rows::copy_name;
use dwz_graph::Graph;
use dwz_model::{Blob, Fault, NoMemory, Sections, WHOLE_FILE};
use dwz_outside::Put;
use dwz_sup::{checksum, common_file, debug_sup};
use dwz_words::Options;
use std::alloc::Global;

/// The common file, and what the files say that import from it.
#[derive(Debug, Drop)]
pub(crate) struct CommonFile {
    /// The file.
    pub(crate) bytes: Blob,
    /// `.debug_sup` of the files that import from it (DWARF 5, 7.3.6).
    pub(crate) sup: Blob,
}

// How many bytes `.debug_sup` has in the common file.
const SUP: usize = 37;

// How many bytes a file of the plain layout has beside what its sections add: the file header, a zero byte before the names, the
// name of the name table, and two section headers.
const FRAME: u128 = 64 + 1 + 10 + 2 * 64;

// How many bytes a section adds, by its name and its length: its content, its name with a zero byte, and a section header.
fn room(name: &[u8], len: usize) -> u128
    ensures is { result ≡ len + length name.now + 65 }
    ensures small { result < 2 ^ 66 }
{
    len as u128 + name.len() as u128 + 65
}

// The same of a section that may not be there.
fn room_if(name: &[u8], bytes: &Option<Blob>) -> u128
    ensures is { result ≡ room_of name.now bytes.now }
    ensures small { result < 2 ^ 66 }
{
    match bytes {
        Some(bytes) => room(name, bytes.len()),
        None => 0,
    }
}

// How many bytes the common file with these sections has.
fn common_len(sections: &Sections) -> u128
    ensures { result ≡ common_length sections.now }
{
    let info = room(b".debug_info", sections.info.len());
    let abbrev = room(b".debug_abbrev", sections.abbrev.len());
    let strs = room_if(b".debug_str", &sections.strs);
    let offsets = room_if(b".debug_str_offsets", &sections.offsets);
    let line = room_if(b".debug_line", &sections.line);
    let loclists = room_if(b".debug_loclists", &sections.loclists);
    let aranges = room_if(b".debug_aranges", &sections.aranges);
    let sup = room(b".debug_sup", SUP);
    let end = FRAME + info + abbrev + strs + offsets + line + loclists + aranges + sup;
    end.next_multiple_of(8)
}

// The fault of the file with these sections, where it is too large.
fn large_file(sections: &Sections) -> Option<Fault>
    ensures { IsFound (IsLargeWith sections.now) result }
{
    if common_len(sections) >= TOO_LARGE as u128 {
        Some(too_large(WHOLE_FILE))
    } else {
        None
    }
}

/// The first fault of the common file, if there is one: a section that is too large, or else the file.
pub(crate) fn common_fault(common: &Option<Sections>) -> Option<Fault>
    ensures { IsFound (FaultWith common.now) result }
{
    match common {
        Some(sections) => first_large(sections).or(large_file(sections)),
        None => None,
    }
}

// The machine and the flags of the first file; 0 where there is none.
fn machine_of(graph: &Graph<'_>) -> (u16, u32)
    ensures machine { result.0 ≡ (file_header (get_or graph.now.given 0 [])).machine }
    ensures flags { result.1 ≡ (file_header (get_or graph.now.given 0 [])).flags }
{
    match graph.files().first() {
        Some(file) => (file.elf.machine(), file.elf.flags()),
        None => (0, 0),
    }
}

// The name by which files refer to the common file.
fn name_of(options: &Options) -> &[u8]
    ensures { result.now ≡ sup_name options.now }
{
    match options.name.as_ref().or(options.common.as_ref()) {
        Some(name) => name.as_slice(),
        None => &[],
    }
}

// The checksum of the common file with these sections.
fn sum_of(sections: &Sections) -> [u8; 32]
    requires { common_length sections.now < too_large }
    ensures { result ≡ common_sum sections.now }
{
    match &sections.strs {
        Some(strs) => checksum(
            sections.info.as_slice(),
            strs.as_slice(),
            sections.abbrev.as_slice(),
        ),
        None => checksum(sections.info.as_slice(), &[], sections.abbrev.as_slice()),
    }
}

/// The common file with these sections, for the machine and with the flags of the first file; None where there is none.
pub(crate) fn common_made(
    alloc: Global,
    options: &Options,
    graph: &Graph<'_>,
    common: Option<Sections>,
) -> Result<Option<CommonFile>, NoMemory>
    requires { (f : Fault) → ¬ FaultWith common f }
    ensures { (r : Run) → get_or graph.now.given 0 [] ≡ r.input.bytes 0 → IsNewCommon r common → IfOk result (IsCommonMade options.now r) }
{
    let Some(sections) = common else {
        return Ok(None);
    };
    let sum = sum_of(&sections);
    let sup = debug_sup(alloc, false, name_of(options), &sum)?;
    let (machine, flags) = machine_of(graph);
    let bytes = common_file(alloc, machine, flags, &sections)?;
    Ok(Some(CommonFile {
        bytes: Blob::new(bytes),
        sup,
    }))
}

/// `.debug_sup` of the files that import from that common file, where there is one.
pub(crate) fn sup_in(common: &Option<CommonFile>) -> Option<&[u8]>
    ensures { (o : Options) (r : Run) → IsCommonMade o r common.now → IsSupOf Made (sup_name o) r (option_map (λ s. s.now) result) }
{
    match common {
        Some(common) => Some(common.sup.as_slice()),
        None => None,
    }
}

/// The name and the length of the common file, where one is asked for and there is one.
pub(crate) fn common_line(
    alloc: Global,
    name: &Option<Blob>,
    common: &Option<CommonFile>,
) -> Result<Option<(Blob, u64)>, NoMemory>
    ensures { (o : Options) (r : Run) → IsCommonMade o r common.now → IfOk result (λ line. line ≡ common_length_after name.now r) }
{
    match (name, common) {
        (Some(name), Some(common)) => {
            Ok(Some((copy_name(alloc, name)?, common.bytes.len() as u64)))
        }
        _ => Ok(None),
    }
}

/// Adds what is put of the common file, where one is asked for.
pub(crate) fn add_common(
    alloc: Global,
    puts: &mut Vec<Put>,
    name: &Option<Blob>,
    common: Option<CommonFile>,
) -> Result<(), NoMemory>
    ensures { (o : Options) (r : Run) → IsCommonMade o r common → OnOk result (puts.new.items ≡ puts.old.items ++ common_puts name.now r) }
{
    if let Some(name) = name
        && let Some(CommonFile { bytes, sup: _ }) = common
    {
        puts.push(Put {
            name: copy_name(alloc, name)?,
            bytes,
        })?;
    }
    Ok(())
}
