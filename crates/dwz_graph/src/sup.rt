//! What is wrong with the `.debug_sup` of a file (DWARF 5, 7.3.6).

ghost use Rattle.std.specs.Prelude.{◌≡◌, ◌-◌, ◌<◌, ◌≤◌, ◌^◌, None, Some, if◌then◌else◌, length};
ghost use Rattle.std.specs.Str.{bytes_eq};
ghost use Rattle.dwz_def_reading.specs.ElfReading.{elf_of};
ghost use Rattle.dwz_def_reading.specs.Finished;
ghost use Rattle.dwz_def_reading.specs.Supplementary.{read_sup};
ghost use Rattle.dwz_graph.specs.ByRule.{IsGoodCommon, bytes_beside};
ghost use Rattle.dwz_model.specs.declared.fault.Reason.TheVariants.{Checksum};
ghost use Rattle.dwz_sup.specs.Readings.{sup_seen};

use crate::rule::Beside;
use dwz_elf::Elf;
use dwz_model::{DEBUG_ABBREV, DEBUG_INFO, DEBUG_STR, DEBUG_SUP, Fault, Reason, WHOLE_FILE};
use dwz_sup::{SupRef, checksum, sup_in};

// How many bytes a checksum has.
const SUM: usize = 32;

// How many bytes the section has beside the name: version, flag, zero byte, length, and checksum.
const BESIDE_NAME: usize = 37;

fn fault(reason: Reason, at: u64) -> Fault
    ensures { result ≡ Finished.sup_fault reason at }
{
    Fault {
        section: DEBUG_SUP,
        at,
        reason,
    }
}

// Whether the section has a checksum of 32 bytes, whose length is spelled in one byte.
fn has_sum(section: &[u8], sup: &SupRef<'_>) -> bool
    ensures { result ≡ Finished.has_sum section.now (sup_seen sup.now) }
{
    sup.sum.len() == SUM && section.len() == sup.name.len() + BESIDE_NAME
}

// Whether it is that of a common file.
fn is_of_common(section: &[u8], sup: &SupRef<'_>) -> bool
    ensures { result ≡ Finished.is_of_common section.now (sup_seen sup.now) }
{
    sup.supplementary && sup.name.is_empty() && has_sum(section, sup)
}

// Whether it is that of a file that imports from one.
fn is_of_file(section: &[u8], sup: &SupRef<'_>) -> bool
    ensures { result ≡ Finished.is_of_file section.now (sup_seen sup.now) }
{
    !sup.supplementary && has_sum(section, sup)
}

// What is wrong with its checksum, with which it ends.
fn other_sum(section: &[u8], sup: &SupRef<'_>, sum: &[u8; 32]) -> Option<Fault>
    requires { 32 ≤ length section.now }
    ensures { result ≡ (if bytes_eq sup.now.sum.now sum.now then None else Some (Finished.sup_fault Checksum (length section.now - 32))) }
{
    if sup.sum == sum.as_slice() {
        None
    } else {
        Some(fault(Reason::Checksum, (section.len() - SUM) as u64))
    }
}

// What is wrong with the section of a common file that has that checksum.
fn common_section(section: &[u8], sum: &[u8; 32]) -> Option<Fault>
    ensures { result ≡ Finished.sum_fault Finished.is_of_common sum.now section.now (read_sup section.now) }
{
    let Some(sup) = sup_in(section) else {
        return Some(fault(Reason::BadSup, 0));
    };
    if !is_of_common(section, &sup) {
        return Some(fault(Reason::BadSup, 0));
    }
    other_sum(section, &sup, sum)
}

// What is wrong with the section of a file beside a common file that has that checksum.
fn file_section(section: &[u8], sum: &[u8; 32]) -> Option<Fault>
    ensures { result ≡ Finished.sum_fault Finished.is_of_file sum.now section.now (read_sup section.now) }
{
    let Some(sup) = sup_in(section) else {
        return Some(fault(Reason::BadSup, 0));
    };
    if !is_of_file(section, &sup) {
        return Some(fault(Reason::BadSup, 0));
    }
    other_sum(section, &sup, sum)
}

/// The checksum of a common file. Takes no memory.
pub(crate) fn sum_of(elf: &Elf, bytes: &[u8]) -> [u8; 32]
    requires elf { elf.now ≡ elf_of bytes.now }
    requires short { length bytes.now < 2 ^ 32 }
    ensures { result ≡ Finished.sum_of bytes.now }
{
    let info = elf.content(bytes, DEBUG_INFO);
    let strs = elf.content(bytes, DEBUG_STR);
    let abbrev = elf.content(bytes, DEBUG_ABBREV);
    checksum(info, strs, abbrev)
}

/// What is wrong with that of a common file, which has to have one.
#[tactic(auto, unfolding(dwz_def_reading::specs::Finished::common_sup_fault))]
pub(crate) fn common_fault(elf: &Elf, bytes: &[u8]) -> Option<Fault>
    requires elf { elf.now ≡ elf_of bytes.now }
    requires short { length bytes.now < 2 ^ 32 }
    ensures { result ≡ Finished.common_sup_fault bytes.now }
{
    if elf.section(DEBUG_SUP).is_none() {
        return Some(Fault {
            section: WHOLE_FILE,
            at: 0,
            reason: Reason::BadSup,
        });
    }
    let sum = sum_of(elf, bytes);
    common_section(elf.content(bytes, DEBUG_SUP), &sum)
}

/// What is wrong with that of another file, which has to have none where no common file is given.
#[tactic(auto, unfolding(dwz_def_reading::specs::Finished::file_sup_fault))]
pub(crate) fn file_fault(elf: &Elf, bytes: &[u8], common: &Option<Beside<'_>>) -> Option<Fault>
    requires elf { elf.now ≡ elf_of bytes.now }
    requires common { IsGoodCommon common.now }
    ensures { result ≡ Finished.file_sup_fault (bytes_beside common.now) bytes.now }
{
    if elf.section(DEBUG_SUP).is_none() {
        return None;
    }
    match common {
        None => Some(fault(Reason::SupMissing, 0)),
        Some(common) => file_section(elf.content(bytes, DEBUG_SUP), &common.sum),
    }
}
