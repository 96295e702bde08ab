//! The whole run.

ghost use Rattle.dwz_run_course.specs.Ends.{Complete, Ends, KeepsLastRead, LeavesFiles, Refuses};
ghost use Rattle.dwz_gen.specs.Demo.{demo_files};
ghost use Rattle.dwz_def_run.specs.Yields.{Yields};
ghost use Rattle.dwz_words.specs.Lawful.{word_bytes};

use crate::work::{FileWork, given_files};
use dwz_gate::Gate;
use dwz_outside::{Console, Files};
use dwz_run_course::{Status, run_course};
use std::alloc::Global;
use std::thread::Threads;

/// Does what the words ask for: gets their FILEs, finds the entries that repeat, in each of them or, with a common file, in all together,
/// and puts the FILEs again with these entries stored once (DWARF 5, 3.2.5 and appendix E), the common file first; and says so, once.
/// What is put is one function of options and contents: it is the same for every number of workers, every gate and every order of
/// threads.
///
/// For a demonstration it makes two files, works on them with a common one, and says in one line what came of them: `ends` and `complete`
/// speak of these two files (`demo_files`) in place of FILEs, and by `demo` nothing is got or put.
///
/// With `--explain` it gets the files of two places and says why the two entries that begin there aren't shared, whether or not the words
/// ask for quiet; nothing is put. Where at one of the places no entry begins that may move, the first such is refused.
///
/// With `--check` it gets two files, with `--sup` their common file before them, and says whether they mean the same, imports expanded,
/// also where the words ask for quiet; nothing is put. It answers Differs where they don't, and Done where they do.
///
/// With `--expand` it gets one file, with `--sup` its common file before it, and puts it to OUT without its partial units, each unit with
/// copies of what it imports, and without `.debug_sup` (DWARF 5, 3.2.5 and 7.3.6); and says how long it was and is.
///
/// With `--reuse` it gets a finished common file and then FILEs, and puts these over it: what it has is imported from it (DWARF 5, 7.3.6), and
/// what else a FILE repeats stands once in that. The common file is never put.
///
/// With `--batch` it gets that one and then FILEs as with `--reuse`, and does with each what `--reuse` does with it alone, as many at once as
/// there are workers. A FILE that is refused keeps its bytes, and the text says so; the others are put. It answers Partly where one is
/// refused, and Done where none is. What is wrong with the common file refuses all, and so do too many bytes together.
///
/// What follows of how a run ends is said by laws: where all is done, the FILEs that are put read back as what was read (`done_laws`);
/// why each other status is answered, and what it leaves (`cause_laws`); which status comes where nothing outside fails
/// (`answer_laws`); what is held where the puts stop (`stop_laws`); and what a demonstration says (`demo_laws`).
pub fn run<Rt: Threads + Sync, F: Files, C: Console, G: Gate>(
    rt: &Rt,
    alloc: Global,
    words: &[Vec<u8>],
    files: &mut F,
    console: &mut C,
    gate: &G,
) -> Status
    ensures ends { Ends demo_files Yields (word_bytes words.now) (F.told files.old) (F.told files.new) (C.shown console.old)
        (C.shown console.new) result }
    ensures complete { Complete demo_files Yields (word_bytes words.now) (F.told files.old) (F.told files.new) (C.shown console.old)
        (C.shown console.new) result }
    ensures refuses { Refuses demo_files Yields (word_bytes words.now) (F.told files.old) (F.told files.new) result }
    ensures demo { LeavesFiles (word_bytes words.now) (F.told files.old) (F.told files.new) }
    ensures reads { KeepsLastRead result (F.told files.old) (F.told files.new) }
{
    run_course(
        alloc,
        words,
        files,
        console,
        &FileWork,
        &|alloc, options, contents| given_files(rt, alloc, options, contents, gate),
    )
}
