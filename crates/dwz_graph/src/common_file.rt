//! The finished common file beside which others are read (DWARF 5, 7.3.6).

ghost use Rattle.std.specs.Prelude.{◌≡◌, Some};
ghost use Rattle.dwz_def_reading.specs.Files.{file_meaning_by, no_files_before, refused_in};
ghost use Rattle.dwz_def_reading.specs.Finished.{sum_of};
ghost use Rattle.dwz_graph.specs.declared.file.File.{File as FileOfCode};
ghost use Rattle.dwz_graph.specs.ByRule.{common_rule};
ghost use Rattle.dwz_graph.specs.Files.{HasCommon, HoldsOrFails, Leaves, limits_view};
ghost use Rattle.dwz_graph.specs.Held.{held};

use crate::file::{Budget, File, all_left, read_by};
use crate::readings::{behind, in_file};
use crate::rule::{Beside, Rule};
use crate::sup::sum_of;
use dwz_graph_resolve::CommonPart;
use dwz_model::GraphErr;
use std::alloc::Global;
use std::marker::Model;

/// A finished common file that was read before all other files. Clauses see its number, which is behind those of the others, and its bytes;
/// `file` says what it was read as.
#[derive(Drop)]
pub struct CommonFile<'a> {
    number: u32,
    bytes: &'a [u8],
    file: File<'a>,
    checksum: [u8; 32],
}

impl<'a> Model for CommonFile<'a> {
    ghost use Rattle.dwz_graph.specs.Files.{CommonRead, IsCommonKept};

    ghost Value = { CommonRead };

    ghost view = { λ c. record { number = c.number; bytes = c.bytes.now } };

    ghost invariant = { λ c. IsCommonKept (record { number = c.number; bytes = c.bytes.now }) c.file c.checksum };
}

impl<'a> CommonFile<'a> {
    /// Reads it, before all other files, of which there are `number`. Refused with its first fault. All of its units are partial; `BadSup` and
    /// `Checksum` come behind `Machine`.
    pub fn read(alloc: Global, number: u32, bytes: &'a [u8]) -> Result<CommonFile<'a>, GraphErr>
        ensures { HoldsOrFails (λ c. c ≡ record { number = number; bytes = bytes.now }) result
            (refused_in number (file_meaning_by common_rule no_files_before bytes.now)) }
    {
        match read_by(alloc, number, bytes, &all_left(), &Rule::Common) {
            Ok(file) => Ok(CommonFile {
                number,
                bytes,
                checksum: sum_of(&file.elf, bytes),
                file,
            }),
            Err(error) => Err(in_file(number, error)),
        }
    }

    /// Its contents.
    pub fn bytes(&self) -> &'a [u8]
        ensures { result.now ≡ self.now.bytes }
    {
        self.bytes
    }

    /// As what it was read.
    pub fn file(&self) -> &File<'a>
        ensures { HasCommon self.now.number (Some self.now.bytes) (Some result.now) }
    {
        &self.file
    }

    /// Its checksum, which files that import from it have.
    pub fn checksum(&self) -> &[u8; 32]
        ensures { result.now ≡ sum_of self.now.bytes }
    {
        &self.checksum
    }

    /// What it leaves to other files.
    pub(crate) fn left(&self) -> Budget
        ensures { Leaves self.now.bytes (limits_view result) }
    {
        behind(&all_left(), self.bytes, &self.file)
    }

    /// What other files see of it.
    pub(crate) fn beside(&self) -> Beside<'_>
        ensures bytes { result.bytes.now ≡ self.now.bytes }
        ensures sum { result.sum ≡ sum_of self.now.bytes }
        ensures part { (f : FileOfCode) × HasCommon self.now.number (Some self.now.bytes) (Some f)
            × (result.part.units.now ≡ f.units) × (result.part.strs ≡ f.sections.strs) }
    {
        Beside {
            bytes: self.bytes,
            sum: self.checksum,
            part: CommonPart {
                units: &self.file.units,
                strs: self.file.sections.strs,
            },
        }
    }
}

/// The common file that a graph has.
#[derive(Drop)]
pub(crate) enum HeldCommon<'a> {
    /// It was read for this graph.
    Own(CommonFile<'a>),
    /// It was read before, and serves others too.
    Lent(&'a CommonFile<'a>),
}

impl<'a> HeldCommon<'a> {
    /// The common file itself.
    pub(crate) fn get(&self) -> &CommonFile<'a>
        ensures { result.now ≡ held self.now }
    {
        match self {
            HeldCommon::Own(common) => common,
            HeldCommon::Lent(common) => common,
        }
    }
}
