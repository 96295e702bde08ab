//! One file of several.

ghost use Rattle.std.specs.Prelude.{◌≡◌, ◌<◌, ◌^◌, IfErr, IfOk, length};
ghost use Rattle.dwz_def_reading.specs.Faults.{Fails};
ghost use Rattle.dwz_def_reading.specs.ElfFaults.{file_fault};
ghost use Rattle.dwz_def_reading.specs.Files;
ghost use Rattle.dwz_def_reading.specs.ElfReading.{elf_of};
ghost use Rattle.dwz_graph_resolve.specs.Resolved.{sources_view};
ghost use Rattle.dwz_graph.specs.ByRule.{IsGoodRule, IsHeaded, IsOpened, ReadsFileBy, common_of, rule_view};
ghost use Rattle.dwz_graph.specs.Files.{ReadsFile, limits_view};
ghost use Rattle.dwz_graph_resolve.specs.Surroundings.{common_view};
ghost use Rattle.dwz_model.specs.declared.fault.ReadErr.TheVariants.{Refused};

use crate::rule::Rule;
use dwz_elf::Elf;
use dwz_graph_resolve::{InputSections, Resolved, Surroundings, TextSection, resolve, resolve_by};
use dwz_model::{
    DEBUG_ABBREV, DEBUG_ARANGES, DEBUG_INFO, DEBUG_LINE, DEBUG_LINE_STR, DEBUG_LOCLISTS, DEBUG_STR,
    DEBUG_STR_OFFSETS, Fault, ReadErr, Reason, WHOLE_FILE,
};
use dwz_unit::Units;
use std::alloc::Global;
use std::thread::Threads;

/// A file that was read.
#[derive(Drop)]
pub struct File<'a> {
    /// Its headers.
    pub elf: Elf,
    /// The sections that its values speak of.
    pub sections: InputSections<'a>,
    /// Its units and their entries.
    pub units: Units<'a>,
    /// The entries that its values name.
    pub resolved: Resolved<'a>,
}

/// What the files before a file leave: how many bytes and entries may still come, and the machine that they are for.
#[derive(Clone, Copy)]
pub(crate) struct Budget {
    pub(crate) bytes: usize,
    pub(crate) entries: u32,
    pub(crate) machine: Option<u16>,
}

// No file may be longer, in bytes.
const LONGEST_FILE: usize = 1 << 28;

/// No files together may be longer, in bytes.
pub(crate) const LONGEST_FILES: usize = 1 << 29;

/// No files together may have more entries.
pub(crate) const MOST_ENTRIES: u32 = 1 << 24;

// A file of which the units were read, and what their values speak of.
#[derive(Drop)]
struct Opened<'a, 'c> {
    elf: Elf,
    units: Units<'a>,
    around: Surroundings<'a, 'c>,
}

// Where e_machine stands.
const MACHINE_AT: u64 = 18;

/// What is left before all files.
#[tactic(auto, unfolding(dwz_def_reading::specs::Files::longest_files, dwz_def_reading::specs::Files::most_entries))]
pub(crate) fn all_left() -> Budget
    ensures { limits_view result ≡ Files.no_files_before }
{
    Budget {
        bytes: LONGEST_FILES,
        entries: MOST_ENTRIES,
        machine: None,
    }
}

fn fault(at: u64, reason: Reason) -> ReadErr
    ensures { result ≡ Refused (file_fault reason at) }
{
    ReadErr::Refused(Fault {
        section: WHOLE_FILE,
        at,
        reason,
    })
}

/// Whether a file is too long, or with those before it.
#[tactic(auto, unfolding(dwz_def_reading::specs::Files::longest_file))]
pub(crate) fn is_too_long(left: &Budget, bytes: &[u8]) -> bool
    ensures { result ≡ Files.is_too_long (limits_view left.now) bytes.now }
{
    bytes.len() > LONGEST_FILE || bytes.len() > left.bytes
}

/// Whether the files before it, if there are any, are for another machine.
pub(crate) fn is_other_machine(other: Option<u16>, machine: u16) -> bool
    ensures { result ≡ Files.is_other_machine other machine }
{
    match other {
        None => false,
        Some(other) => other != machine,
    }
}

// The sections that values speak of.
fn sections_of<'a>(elf: &Elf, bytes: &'a [u8]) -> InputSections<'a>
    requires { length bytes.now < 2 ^ 32 }
    ensures sources { elf.now ≡ elf_of bytes.now → sources_view result ≡ Files.sources_of bytes.now }
    ensures aranges { elf.now ≡ elf_of bytes.now → result.aranges.now ≡ Files.debug_aranges bytes.now }
{
    InputSections {
        strs: TextSection::new(elf.content(bytes, DEBUG_STR)),
        line_strs: TextSection::new(elf.content(bytes, DEBUG_LINE_STR)),
        offsets: elf.content(bytes, DEBUG_STR_OFFSETS),
        line: elf.content(bytes, DEBUG_LINE),
        lists: elf.content(bytes, DEBUG_LOCLISTS),
        aranges: elf.content(bytes, DEBUG_ARANGES),
    }
}

// A file of which the headers were read: these, and the sections of its units.
#[derive(Drop)]
struct Headed<'a> {
    elf: Elf,
    info: &'a [u8],
    abbrevs: &'a [u8],
}

// Reads the headers of a file by a rule, behind others. Refused with its first fault, if that comes before those of its units.
fn headed_by<'a>(
    alloc: Global,
    bytes: &'a [u8],
    left: &Budget,
    rule: &Rule<'_>,
) -> Result<Headed<'a>, ReadErr>
    requires { IsGoodRule rule.now }
    ensures ok { IfOk result (IsHeaded rule.now (limits_view left.now) bytes.now) }
    ensures err { IfErr result (λ e. Fails e (Files.file_meaning_by (rule_view rule.now) (limits_view left.now) bytes.now)) }
{
    if is_too_long(left, bytes) {
        return Err(fault(0, Reason::FileSize));
    }
    let elf = rule.elf(alloc, bytes)?;
    if is_other_machine(left.machine, elf.machine()) {
        return Err(fault(MACHINE_AT, Reason::Machine));
    }
    if let Some(fault) = rule.sup_fault(&elf, bytes) {
        return Err(ReadErr::Refused(fault));
    }
    let info = elf.content(bytes, DEBUG_INFO);
    let abbrevs = elf.content(bytes, DEBUG_ABBREV);
    Ok(Headed { elf, info, abbrevs })
}

// A file with its units, and what their values speak of.
fn with_units<'a, 'c>(
    elf: Elf,
    bytes: &'a [u8],
    rule: &'c Rule<'_>,
    units: Units<'a>,
) -> Opened<'a, 'c>
    requires short { length bytes.now < 2 ^ 32 }
    requires elf { elf ≡ elf_of bytes.now }
    ensures elf { result.elf ≡ elf }
    ensures units { result.units ≡ units.entry }
    ensures sources { sources_view result.around.sections ≡ Files.sources_of bytes.now }
    ensures aranges { result.around.sections.aranges.now ≡ Files.debug_aranges bytes.now }
    ensures common { common_view result.around.common ≡ common_of rule.now }
{
    let around = Surroundings {
        sections: sections_of(&elf, bytes),
        common: rule.common(),
    };
    Opened { elf, units, around }
}

// Reads the units of a file by a rule, behind others. Refused with its first fault, if that comes before those of what values mean.
fn open_by<'a, 'c>(
    alloc: Global,
    bytes: &'a [u8],
    left: &Budget,
    rule: &'c Rule<'_>,
) -> Result<Opened<'a, 'c>, ReadErr>
    requires { IsGoodRule rule.now }
    ensures ok { IfOk result (IsOpened rule.now (limits_view left.now) bytes.now) }
    ensures err { IfErr result (λ e. Fails e (Files.file_meaning_by (rule_view rule.now) (limits_view left.now) bytes.now)) }
{
    let Headed { elf, info, abbrevs } = headed_by(alloc, bytes, left, rule)?;
    let units = rule.units(alloc, info, abbrevs, left.entries)?;
    Ok(with_units(elf, bytes, rule, units))
}

// The same by so many workers.
fn open_by_workers<'a, 'c, R: Threads + Sync>(
    rt: &R,
    alloc: Global,
    bytes: &'a [u8],
    left: &Budget,
    rule: &'c Rule<'_>,
    workers: u32,
) -> Result<Opened<'a, 'c>, ReadErr>
    requires { IsGoodRule rule.now }
    ensures ok { IfOk result (IsOpened rule.now (limits_view left.now) bytes.now) }
    ensures err { IfErr result (λ e. Fails e (Files.file_meaning_by (rule_view rule.now) (limits_view left.now) bytes.now)) }
{
    let Headed { elf, info, abbrevs } = headed_by(alloc, bytes, left, rule)?;
    let units = rule.units_by(rt, alloc, info, abbrevs, left.entries, workers)?;
    Ok(with_units(elf, bytes, rule, units))
}

/// Reads the file with a number by a rule, behind others. Refused with its first fault.
pub(crate) fn read_by<'a>(
    alloc: Global,
    number: u32,
    bytes: &'a [u8],
    left: &Budget,
    rule: &Rule<'_>,
) -> Result<File<'a>, ReadErr>
    requires { IsGoodRule rule.now }
    ensures { ReadsFileBy rule.now (limits_view left.now) number bytes.now result }
{
    let Opened { elf, units, around } = open_by(alloc, bytes, left, rule)?;
    let resolved = resolve(alloc, number, &units, &around)?;
    let sections = around.sections;
    Ok(File {
        elf,
        sections,
        units,
        resolved,
    })
}

/// Reads the file with a number by itself, behind others, by so many workers. Refused with its first fault.
pub(crate) fn read_file<'a, R: Threads + Sync>(
    rt: &R,
    alloc: Global,
    number: u32,
    bytes: &'a [u8],
    left: &Budget,
    workers: u32,
) -> Result<File<'a>, ReadErr>
    ensures { ReadsFile (limits_view left.now) number bytes.now result }
{
    let rule = Rule::Given;
    let Opened { elf, units, around } = open_by_workers(rt, alloc, bytes, left, &rule, workers)?;
    let resolved = resolve_by(rt, alloc, number, &units, &around, workers)?;
    let sections = around.sections;
    Ok(File {
        elf,
        sections,
        units,
        resolved,
    })
}
