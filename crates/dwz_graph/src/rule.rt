//! By which rule a file is read.

ghost use Rattle.std.specs.Prelude.{◌≡◌, ◌<◌, ◌^◌, IfOk, length};
ghost use Rattle.dwz_def_reading.specs.Input.{input};
ghost use Rattle.dwz_def_reading.specs.ElfReading.{elf_fault_for, elf_of};
ghost use Rattle.dwz_def_reading.specs.Faults.{Answers};
ghost use Rattle.dwz_def_reading.specs.Units.{units_at};
ghost use Rattle.dwz_elf.specs.Reads.{GivesOrRefuses};
ghost use Rattle.dwz_graph.specs.ByRule.{IsGoodRule, common_of, kind_of, rule_view};
ghost use Rattle.dwz_graph_resolve.specs.Surroundings.{common_view};
ghost use Rattle.dwz_unit.specs.Rows.{units_of};

use crate::sup::{common_fault, file_fault};
use dwz_elf::Elf;
use dwz_graph_resolve::CommonPart;
use dwz_model::{Fault, ReadErr};
use dwz_unit::{FileKind, Units};
use std::alloc::Global;
use std::thread::Threads;

/// A common file beside which others are read.
#[derive(Clone, Copy)]
pub(crate) struct Beside<'c> {
    pub(crate) bytes: &'c [u8],
    /// Its checksum.
    pub(crate) sum: [u8; 32],
    /// What it gives to the others.
    pub(crate) part: CommonPart<'c>,
}

/// By which rule a file is read.
#[derive(Clone, Copy)]
pub(crate) enum Rule<'c> {
    /// By itself.
    Given,
    /// As a finished common file.
    Common,
    /// As what may have been written, beside a common file or without one.
    Back(Option<Beside<'c>>),
}

impl Rule<'_> {
    /// The headers of a file.
    pub(crate) fn elf(&self, alloc: Global, bytes: &[u8]) -> Result<Elf, ReadErr>
        ensures { GivesOrRefuses result (elf_fault_for (rule_view self.now).manner bytes.now) (elf_of bytes.now) }
    {
        match self {
            Rule::Given => Elf::read(alloc, bytes),
            Rule::Common => Elf::read_with_sup(alloc, bytes),
            Rule::Back(_) => Elf::read_with_sup(alloc, bytes),
        }
    }

    /// What is wrong with its `.debug_sup`.
    pub(crate) fn sup_fault(&self, elf: &Elf, bytes: &[u8]) -> Option<Fault>
        requires good { IsGoodRule self.now }
        requires elf { elf.now ≡ elf_of bytes.now }
        requires short { length bytes.now < 2 ^ 32 }
        ensures { result ≡ (rule_view self.now).sup_fault bytes.now }
    {
        match self {
            Rule::Given => None,
            Rule::Common => common_fault(elf, bytes),
            Rule::Back(common) => file_fault(elf, bytes, common),
        }
    }

    /// Its units.
    pub(crate) fn units<'a>(
        &self,
        alloc: Global,
        info: &'a [u8],
        abbrevs: &'a [u8],
        room: u32,
    ) -> Result<Units<'a>, ReadErr>
        requires info { length info.now < 2 ^ 32 }
        requires abbrevs { length abbrevs.now < 2 ^ 32 }
        ensures answers { Answers units_of result (units_at abbrevs.now ((rule_view self.now).mode room) 0 (input info.now 0)) }
        ensures source { IfOk result (λ units. units ≡ record { info = info.now; abbrevs = abbrevs.now; kind = kind_of self.now; room = room }) }
    {
        match self {
            Rule::Given => Units::read(alloc, info, abbrevs, room),
            Rule::Common => Units::read_common(alloc, info, abbrevs, room),
            Rule::Back(common) => Units::read_back(alloc, info, abbrevs, room, common.is_some()),
        }
    }

    // The kind of its units.
    fn kind(&self) -> FileKind
        ensures { result ≡ kind_of self.now }
    {
        match self {
            Rule::Given => FileKind::Given,
            Rule::Common => FileKind::Common,
            Rule::Back(common) => FileKind::Back {
                sup: common.is_some(),
            },
        }
    }

    /// Its units, read by so many workers.
    pub(crate) fn units_by<'a, R: Threads + Sync>(
        &self,
        rt: &R,
        alloc: Global,
        info: &'a [u8],
        abbrevs: &'a [u8],
        room: u32,
        workers: u32,
    ) -> Result<Units<'a>, ReadErr>
        requires info { length info.now < 2 ^ 32 }
        requires abbrevs { length abbrevs.now < 2 ^ 32 }
        ensures answers { Answers units_of result (units_at abbrevs.now ((rule_view self.now).mode room) 0 (input info.now 0)) }
        ensures source { IfOk result (λ units. units ≡ record { info = info.now; abbrevs = abbrevs.now; kind = kind_of self.now; room = room }) }
    {
        Units::read_by(rt, alloc, info, abbrevs, self.kind(), room, workers)
    }

    /// The common file beside which it is read.
    pub(crate) fn common(&self) -> Option<CommonPart<'_>>
        ensures { common_view result ≡ common_of self.now }
    {
        match self {
            Rule::Back(Some(common)) => Some(common.part),
            _ => None,
        }
    }
}
