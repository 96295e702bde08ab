//! Files that are read one after the other.

ghost use Rattle.std.specs.Prelude.{◌≡◌, ◌<◌, ◌^◌, length, map};
ghost use Rattle.dwz_def_reading.specs.ElfReading.{elf_of};
ghost use Rattle.dwz_def_reading.specs.Files.{files_meaning, limits_after};
ghost use Rattle.dwz_def_reading.specs.Finished.{files_meaning_by};
ghost use Rattle.dwz_graph.specs.ByRule.{IsGoodRule, kind_of, rule_view};
ghost use Rattle.dwz_graph.specs.Files.{AreReadFrom, AreReadFromBy, HoldsOrFails, limits_view, refused_file};
ghost use Rattle.dwz_unit.specs.Rows.{units_of};

use crate::ahead::{file_behind, read_ahead};
use crate::file::{Budget, File, read_by};
use crate::rule::Rule;
use dwz_model::{GraphErr, ReadErr, Refusal};
use std::alloc::Global;
use std::thread::Threads;

/// A fault of the file with a number.
pub(crate) fn in_file(file: u32, error: ReadErr) -> GraphErr
    ensures { result ≡ refused_file file error }
{
    match error {
        ReadErr::Refused(fault) => GraphErr::Refused(Refusal {
            file,
            section: fault.section,
            at: fault.at,
            reason: fault.reason,
        }),
        ReadErr::NoMemory => GraphErr::NoMemory,
    }
}

/// What is left behind a file.
#[inline(always)]
pub(crate) fn behind(left: &Budget, bytes: &[u8], file: &File<'_>) -> Budget
    ensures { file.now.elf ≡ elf_of bytes.now → limits_view result ≡ limits_after (limits_view left.now) bytes.now
        (units_of file.now.units) }
{
    Budget {
        bytes: left.bytes.saturating_sub(bytes.len()),
        entries: left.entries.saturating_sub(file.units.entries()),
        machine: Some(file.elf.machine()),
    }
}

/// Reads files by themselves, behind others. Refused with the first fault. So many workers read at once; the answer is the same for any
/// number of them.
pub(crate) fn given_files<'a, R: Threads + Sync>(
    rt: &R,
    alloc: Global,
    files: &'a [Vec<u8>],
    workers: u32,
    all: &Budget,
) -> Result<Vec<File<'a>>, GraphErr>
    requires { length files.now < 2 ^ 32 }
    ensures { HoldsOrFails (λ kept. AreReadFrom (limits_view all.now) (map (λ v. v.items) files.now) kept.items) result
        (files_meaning (limits_view all.now) 0 (map (λ v. v.items) files.now)) }
{
    let inside = workers / files.len().max(1).min(64) as u32;
    let mut ahead = read_ahead(rt, alloc, files, workers, inside)?;
    let mut left = *all;
    let mut kept = Vec::new(alloc);
    for (number, content) in files.iter().enumerate() {
        let done = ahead[number].take();
        match file_behind(
            rt,
            alloc,
            number as u32,
            content.as_slice(),
            &left,
            done,
            inside,
        ) {
            Ok(file) => {
                left = behind(&left, content.as_slice(), &file);
                kept.push(file)?;
            }
            Err(error) => return Err(in_file(number as u32, error)),
        }
    }
    Ok(kept)
}

/// Reads files by a rule, behind others. Refused with the first fault.
pub(crate) fn files_by<'a>(
    alloc: Global,
    files: &'a [Vec<u8>],
    all: &Budget,
    rule: &Rule<'_>,
) -> Result<Vec<File<'a>>, GraphErr>
    requires few { length files.now < 2 ^ 32 }
    requires rule { IsGoodRule rule.now }
    ensures { HoldsOrFails (λ kept. AreReadFromBy (rule_view rule.now) (kind_of rule.now) (limits_view all.now) (map (λ v. v.items) files.now) kept.items)
        result (files_meaning_by (λ number. rule_view rule.now) (limits_view all.now) 0 (map (λ v. v.items) files.now)) }
{
    let mut left = *all;
    let mut kept = Vec::new(alloc);
    for (number, content) in files.iter().enumerate() {
        match read_by(alloc, number as u32, content.as_slice(), &left, rule) {
            Ok(file) => {
                left = behind(&left, content.as_slice(), &file);
                kept.push(file)?;
            }
            Err(error) => return Err(in_file(number as u32, error)),
        }
    }
    Ok(kept)
}

/// Reads files by themselves, behind others, on one thread. Refused with the first fault.
pub(crate) fn given_alone<'a>(
    alloc: Global,
    files: &'a [Vec<u8>],
    all: &Budget,
) -> Result<Vec<File<'a>>, GraphErr>
    requires { length files.now < 2 ^ 32 }
    ensures { HoldsOrFails (λ kept. AreReadFrom (limits_view all.now) (map (λ v. v.items) files.now) kept.items) result
        (files_meaning (limits_view all.now) 0 (map (λ v. v.items) files.now)) }
{
    files_by(alloc, files, all, &Rule::Given)
}
