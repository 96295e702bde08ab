//! All files of a run.

ghost use Rattle.std.specs.Prelude.{◌≡◌, ℕ, ◌+◌, ◌<◌, ◌≤◌, ◌^◌, List, [], None, Some, length, map, slice_get, IfOk};
ghost use Rattle.std.specs.Option.{option_map};
ghost use Rattle.dwz_def_reading.specs.Units.{RawUnit};
ghost use Rattle.dwz_def_reading.specs.Documents.{Doc};
ghost use Rattle.dwz_def_reading.specs.Finished.{beside_meaning, finished_meaning};
ghost use Rattle.dwz_def_reading.specs.NamedLists.{lists_of_units};
ghost use Rattle.dwz_def_reading.specs.Shared.{AreRows};
ghost use Rattle.dwz_graph_resolve.specs.ListRows.{AreOfFile, operand_view};
ghost use Rattle.dwz_def_reading.specs.Files.{Limits, around_of, files_meaning, no_files_before};
ghost use Rattle.dwz_graph.specs.Held.{held};
ghost use Rattle.dwz_graph.specs.Files.{AreBack, AreBehind, AreKept, FilesAnswer, HasCommon, HasFile, HasRead, IsSharedBy, docs_of, said_beside, said_finished};
ghost use Rattle.dwz_graph.specs.Indexed.{AreIndexes};

use crate::Index;
use crate::common_file::{CommonFile, HeldCommon};
use crate::file::{File, all_left};
use crate::index_files::indexes_of;
use crate::readings::{files_by, given_alone, given_files};
use crate::rule::Rule;
use dwz_graph_resolve::ListOperand;
use dwz_model::GraphErr;
use std::alloc::Global;
use std::marker::Model;
use std::thread::Threads;

/// The files of a run, each with its units, and with its references resolved, and what the entries of those are that were given. Clauses
/// see the contents of the files, by the rule by which they were read; what those say that were given is `docs_of`.
#[derive(Drop)]
pub struct Graph<'a> {
    common: Option<HeldCommon<'a>>,
    contents: &'a [Vec<u8>],
    files: Vec<File<'a>>,
    indexes: Vec<Index>,
    back_contents: &'a [Vec<u8>],
    back: Vec<File<'a>>,
}

impl<'a> Model for Graph<'a> {
    ghost use Rattle.std.specs.Prelude.{map};
    ghost use Rattle.std.specs.Option.{option_map};
    ghost use Rattle.dwz_graph.specs.Files.{AreFilesOf, FilesRead};
    ghost use Rattle.dwz_graph.specs.Held.{held, held_bytes};

    ghost Value = { FilesRead };

    ghost view = { λ g. record { common = option_map held_bytes g.common; given = map (λ v. v.items) g.contents.now; back = map (λ v. v.items) g.back_contents.now } };

    ghost invariant = { λ g. AreFilesOf (record { common = option_map held_bytes g.common; given = map (λ v. v.items) g.contents.now; back = map (λ v. v.items) g.back_contents.now })
        (option_map held g.common) g.files.items g.back.items g.indexes.items };
}

// Files that may have been written, without a common file.
fn back_alone<'a>(alloc: Global, files: &'a [Vec<u8>]) -> Result<Graph<'a>, GraphErr>
    requires few { length files.now < 2 ^ 32 }
    ensures answers { FilesAnswer said_finished result (finished_meaning None (map (λ v. v.items) files.now)) }
    ensures contents { IfOk result (λ graph. graph ≡ record { common = None; given = []; back = map (λ v. v.items) files.now }) }
{
    let back = files_by(alloc, files, &all_left(), &Rule::Back(None))?;
    Ok(Graph {
        common: None,
        contents: &files[..0],
        files: Vec::new(alloc),
        indexes: Vec::new(alloc),
        back_contents: files,
        back,
    })
}

// The same beside a common file.
fn back_beside<'a>(
    alloc: Global,
    files: &'a [Vec<u8>],
    bytes: &'a [u8],
) -> Result<Graph<'a>, GraphErr>
    requires few { length files.now < 2 ^ 32 }
    ensures answers { FilesAnswer said_finished result (finished_meaning (Some bytes.now) (map (λ v. v.items) files.now)) }
    ensures contents { IfOk result (λ graph. graph ≡ record { common = Some bytes.now; given = []; back = map (λ v. v.items) files.now }) }
{
    let common = CommonFile::read(alloc, files.len() as u32, bytes)?;
    let left = common.left();
    let rule = Rule::Back(Some(common.beside()));
    let back = files_by(alloc, files, &left, &rule)?;
    Ok(Graph {
        common: Some(HeldCommon::Own(common)),
        contents: &files[..0],
        files: Vec::new(alloc),
        indexes: Vec::new(alloc),
        back_contents: files,
        back,
    })
}

// Files that were given, and what their entries are.
fn given_graph<'a>(
    alloc: Global,
    files: &'a [Vec<u8>],
    kept: Vec<File<'a>>,
) -> Result<Graph<'a>, GraphErr>
    requires kept { AreKept (map (λ v. v.items) files.now) kept.items }
    ensures answers { FilesAnswer (λ graph. docs_of graph.given) result (files_meaning no_files_before 0 (map (λ v. v.items) files.now)) }
    ensures contents { IfOk result (λ graph. graph ≡ record { common = None; given = map (λ v. v.items) files.now; back = [] }) }
{
    let indexes = indexes_of(alloc, &kept)?;
    Ok(Graph {
        common: None,
        contents: files,
        files: kept,
        indexes,
        back_contents: &files[..0],
        back: Vec::new(alloc),
    })
}

// The same behind a common file.
fn beside_graph<'a>(
    alloc: Global,
    files: &'a [Vec<u8>],
    common: HeldCommon<'a>,
    kept: Vec<File<'a>>,
) -> Result<Graph<'a>, GraphErr>
    requires number { (held common).number ≡ length files.now }
    requires kept { AreBehind (held common).bytes (map (λ v. v.items) files.now) kept.items }
    ensures answers { FilesAnswer said_beside result (beside_meaning (held common.entry).bytes (map (λ v. v.items) files.now)) }
    ensures contents { IfOk result (λ graph. graph
        ≡ record { common = Some (held common.entry).bytes; given = map (λ v. v.items) files.now; back = [] }) }
{
    let indexes = indexes_of(alloc, &kept)?;
    Ok(Graph {
        common: Some(common),
        contents: files,
        files: kept,
        indexes,
        back_contents: &files[..0],
        back: Vec::new(alloc),
    })
}

impl<'a> Graph<'a> {
    /// Reads files, of which there are fewer than 2^32, on one thread. Refused with the first fault: files come in order, and in a file
    /// `FileSize` comes first, then the faults of its sections, `Machine`, the faults of its units, those of what values mean, those of
    /// address ranges, and those of shared lists.
    pub fn read(alloc: Global, files: &'a [Vec<u8>]) -> Result<Graph<'a>, GraphErr>
        requires few { length files.now < 2 ^ 32 }
        ensures answers { FilesAnswer (λ graph. docs_of graph.given) result (files_meaning no_files_before 0 (map (λ v. v.items) files.now)) }
        ensures contents { IfOk result (λ graph. graph ≡ record { common = None; given = map (λ v. v.items) files.now; back = [] }) }
    {
        let kept = given_alone(alloc, files, &all_left())?;
        given_graph(alloc, files, kept)
    }

    /// The same by so many workers. The answer is the same for any number of them.
    pub fn read_by<R: Threads + Sync>(
        rt: &R,
        alloc: Global,
        files: &'a [Vec<u8>],
        workers: u32,
    ) -> Result<Graph<'a>, GraphErr>
        requires few { length files.now < 2 ^ 32 }
        requires workers { (0 < workers) × (workers ≤ 64) }
        ensures answers { FilesAnswer (λ graph. docs_of graph.given) result (files_meaning no_files_before 0 (map (λ v. v.items) files.now)) }
        ensures contents { IfOk result (λ graph. graph ≡ record { common = None; given = map (λ v. v.items) files.now; back = [] }) }
    {
        let kept = given_files(rt, alloc, files, workers, &all_left())?;
        given_graph(alloc, files, kept)
    }

    /// Reads files as `read`, and before them a finished common file, of which all units are partial. It has the number behind those of the
    /// others, and what the limits leave behind it is left to them. In it `BadSup` and `Checksum` come behind `Machine`.
    pub fn read_sup(
        alloc: Global,
        files: &'a [Vec<u8>],
        common: &'a [u8],
    ) -> Result<Graph<'a>, GraphErr>
        requires few { length files.now < 2 ^ 32 }
        ensures answers { FilesAnswer said_beside result (beside_meaning common.now (map (λ v. v.items) files.now)) }
        ensures contents { IfOk result (λ graph. graph ≡ record { common = Some common.now; given = map (λ v. v.items) files.now; back = [] }) }
    {
        let shared = CommonFile::read(alloc, files.len() as u32, common)?;
        let left = shared.left();
        let kept = given_alone(alloc, files, &left)?;
        beside_graph(alloc, files, HeldCommon::Own(shared), kept)
    }

    /// The same by so many workers, but for the common file, which one thread reads.
    pub fn read_sup_by<R: Threads + Sync>(
        rt: &R,
        alloc: Global,
        files: &'a [Vec<u8>],
        common: &'a [u8],
        workers: u32,
    ) -> Result<Graph<'a>, GraphErr>
        requires few { length files.now < 2 ^ 32 }
        requires workers { (0 < workers) × (workers ≤ 64) }
        ensures answers { FilesAnswer said_beside result (beside_meaning common.now (map (λ v. v.items) files.now)) }
        ensures contents { IfOk result (λ graph. graph ≡ record { common = Some common.now; given = map (λ v. v.items) files.now; back = [] }) }
    {
        let shared = CommonFile::read(alloc, files.len() as u32, common)?;
        let left = shared.left();
        let kept = given_files(rt, alloc, files, workers, &left)?;
        beside_graph(alloc, files, HeldCommon::Own(shared), kept)
    }

    /// The same beside a common file that was read before, with the number behind those of the files. It isn't read again, and serves as many
    /// graphs as there are to be.
    pub fn read_beside<R: Threads + Sync>(
        rt: &R,
        alloc: Global,
        files: &'a [Vec<u8>],
        common: &'a CommonFile<'a>,
        workers: u32,
    ) -> Result<Graph<'a>, GraphErr>
        requires few { length files.now < 2 ^ 32 }
        requires workers { (0 < workers) × (workers ≤ 64) }
        requires number { common.now.number ≡ length files.now }
        ensures answers { FilesAnswer said_beside result (beside_meaning common.now.bytes (map (λ v. v.items) files.now)) }
        ensures contents { IfOk result (λ graph. graph
            ≡ record { common = Some common.now.bytes; given = map (λ v. v.items) files.now; back = [] }) }
    {
        let left = common.left();
        let kept = given_files(rt, alloc, files, workers, &left)?;
        beside_graph(alloc, files, HeldCommon::Lent(common), kept)
    }

    /// Reads files that may have been written by this tool, and before them the finished common file beside which they are read, if it is
    /// given. It has the number behind those of the others. Refused with the first fault: in a file `SupMissing`, `BadSup` and `Checksum`
    /// come behind `Machine`. One thread reads all.
    pub fn read_back(
        alloc: Global,
        files: &'a [Vec<u8>],
        common: Option<&'a [u8]>,
    ) -> Result<Graph<'a>, GraphErr>
        requires few { length files.now < 2 ^ 32 }
        ensures answers { FilesAnswer said_finished result (finished_meaning (option_map (λ c. c.now) common.entry) (map (λ v. v.items) files.now)) }
        ensures contents { IfOk result (λ graph. graph ≡ record { common = option_map (λ c. c.now) common.entry; given = []; back = map (λ v. v.items) files.now }) }
    {
        match common {
            None => back_alone(alloc, files),
            Some(bytes) => back_beside(alloc, files, bytes),
        }
    }

    /// The contents of the files that were given, in order.
    pub fn contents(&self) -> &'a [Vec<u8>]
        ensures { map (λ v. v.items) result.now ≡ self.now.given }
    {
        self.contents
    }

    /// The finished common file, as it was read.
    pub fn common(&self) -> Option<&File<'a>>
        ensures { HasCommon (length self.now.given + length self.now.back) self.now.common (option_map (λ f. f.now) result) }
    {
        match &self.common {
            None => None,
            Some(common) => Some(common.get().file()),
        }
    }

    /// The finished common file itself, as it may serve other graphs.
    pub fn common_file(&self) -> Option<&CommonFile<'a>>
        ensures { IsSharedBy (length self.now.given + length self.now.back) self.now.common (option_map (λ c. c.now) result) }
    {
        match &self.common {
            None => None,
            Some(common) => Some(common.get()),
        }
    }

    /// The files that may have been written, in order, as they were read.
    pub fn back(&self) -> &[File<'a>]
        ensures { AreBack self.now.common self.now.back result.now }
    {
        self.back.as_slice()
    }

    /// The files that were given, in order, as they were read.
    pub fn files(&self) -> &[File<'a>]
        ensures { AreKept self.now.given result.now }
    {
        self.files.as_slice()
    }

    /// What the entries of each file that was given are, file by file. Units, tops and spaces are numbered from 0 over all files.
    pub fn indexes(&self) -> &[Index]
        ensures { AreIndexes (docs_of self.now.given) result.now }
    {
        self.indexes.as_slice()
    }

    /// The file with a number of those that were given, as it was read.
    pub fn file(&self, number: u32) -> &File<'a>
        requires { number < length self.now.given }
        ensures { (bytes : List ℕ) → slice_get self.now.given number ≡ Some bytes → HasRead self.now.given number bytes result.now }
    {
        &self.files[number as usize]
    }

    /// The operands of the location lists that attributes of that file name, each once, in order of place.
    pub fn list_operands(&self, number: u32) -> &[ListOperand]
        requires { number < length self.now.given }
        ensures rows { (l : Limits) (bytes : List ℕ) (raw : List RawUnit) (doc : Doc ℕ)
            → HasFile no_files_before self.now.given number l bytes raw doc
            → AreRows (lists_of_units (around_of bytes raw) raw) (map (operand_view raw) result.now) }
        ensures of_file { (l : Limits) (bytes : List ℕ) (raw : List RawUnit) (doc : Doc ℕ)
            → HasFile no_files_before self.now.given number l bytes raw doc → AreOfFile raw number result.now }
    {
        &self.file(number).resolved.operands
    }
}
