//! The course of a run.

ghost use Rattle.std.specs.Prelude.{◌≡◌, ◌<◌, ◌≤◌, ℕ, List, Some, None, [], IfOk, get_or, length, map};
ghost use Rattle.dwz_run_course.specs.Answers.{IsAnswer};
ghost use Rattle.dwz_run_course.specs.Ended.{IsSaid, status_of, text_of};
ghost use Rattle.dwz_run_course.specs.Ends.{Complete, Ends, EndsFor, KeepsLastRead, LeavesFiles, Refuses, finished};
ghost use Rattle.dwz_run_course.specs.Outcome.{common_name, name_of_file};
ghost use Rattle.dwz_run_course.specs.Ready.{ready_of};
ghost use Rattle.dwz_run_course.specs.declared.status.Status.TheVariants.{ReadFault, Refused};
ghost use Rattle.dwz_report.specs.Texts.{read_text, refusal_text};
ghost use Rattle.dwz_outside.specs.Told.{FilesSeen};
ghost use Rattle.dwz_words.specs.Asked.{names_numbered};
ghost use Rattle.dwz_words.specs.Lawful.{Lawful, word_bytes};

use crate::demo::demo_options;
use crate::getting::{GetStop, got_all, longest_behind};
use crate::looking::look_at_all;
use crate::outcome::Work;
use crate::output::Output;
use crate::putting::{made_ready, put_all};
use crate::saying::{Ended, say};
use crate::status::Status;
use crate::telling::done_text;
use dwz_model::{Blob, GraphErr, Refusal};
use dwz_outside::{Console, Files};
use dwz_report::{read_text, refusal_text};
use dwz_words::{Options, WordsErr, common_read, names_got, names_numbered, parse};
use std::alloc::Global;

/// Does what the words ask for: gets the files that they name (`names_got`), in order, up to the first that fails or is too long; works on
/// them; puts what comes of it in order, up to the first that fails; and says so, once. For a demonstration two files are made, and nothing
/// is got or put. All memory is taken before the first put of a file: behind it want of memory is no answer.
///
/// `answer` tells what comes of options, which ask for no demonstration, and of the contents of the files that they name, in order. Where
/// one of these is too long it is the last, and those behind it weren't got.
pub fn run_course<F: Files, C: Console, W: Work, A>(
    alloc: Global,
    words: &[Vec<u8>],
    files: &mut F,
    console: &mut C,
    work: &W,
    answer: &A,
) -> Status
where
    A: Fn(Global, &Options, &[Vec<u8>]) -> Result<Output, GraphErr>,
    requires callable { A.IsAlwaysCallable answer.now }
    requires answers { (a : _) (o : _) (c : _) (r : _) → A.post answer.now a o c r → IsAnswer (W.gives o.now (map (λ v. v.items) c.now)) r }
    ensures ends { Ends W.makes W.gives (word_bytes words.now) (F.told files.old) (F.told files.new) (C.shown console.old)
        (C.shown console.new) result }
    ensures complete { Complete W.makes W.gives (word_bytes words.now) (F.told files.old) (F.told files.new) (C.shown console.old)
        (C.shown console.new) result }
    ensures refuses { Refuses W.makes W.gives (word_bytes words.now) (F.told files.old) (F.told files.new) result }
    ensures demo { LeavesFiles (word_bytes words.now) (F.told files.old) (F.told files.new) }
    ensures reads { KeepsLastRead result (F.told files.old) (F.told files.new) }
{
    let end = run_words(alloc, words, files, work, answer);
    say(console, &end)
}

// What a run does, beside the console.
fn run_words<F: Files, W: Work, A>(
    alloc: Global,
    words: &[Vec<u8>],
    files: &mut F,
    work: &W,
    answer: &A,
) -> Ended
where
    A: Fn(Global, &Options, &[Vec<u8>]) -> Result<Output, GraphErr>,
    requires callable { A.IsAlwaysCallable answer.now }
    requires answers { (a : _) (o : _) (c : _) (r : _) → A.post answer.now a o c r → IsAnswer (W.gives o.now (map (λ v. v.items) c.now)) r }
    ensures ends { EndsFor W.makes W.gives (word_bytes words.now) (F.told files.old) (F.told files.new) (status_of result) (text_of result) }
    ensures demo { LeavesFiles (word_bytes words.now) (F.told files.old) (F.told files.new) }
    ensures reads { KeepsLastRead (status_of result) (F.told files.old) (F.told files.new) }
{
    let options = match parse(alloc, words) {
        Ok(options) => options,
        Err(WordsErr::Usage) => return Ended::NotLawful,
        Err(WordsErr::NoMemory) => return Ended::OutOfMemory,
    };
    match options.demo {
        None => with_files::<F, W, A>(alloc, &options, files, answer),
        Some(n) => run_demo(alloc, &options, n, work, answer),
    }
}

// The run of lawful words that name files.
fn with_files<F: Files, W: Work, A>(
    alloc: Global,
    options: &Options,
    files: &mut F,
    answer: &A,
) -> Ended
where
    A: Fn(Global, &Options, &[Vec<u8>]) -> Result<Output, GraphErr>,
    requires files { options.now.demo ≡ None }
    requires callable { A.IsAlwaysCallable answer.now }
    requires answers { (a : _) (o : _) (c : _) (r : _) → A.post answer.now a o c r → IsAnswer (W.gives o.now (map (λ v. v.items) c.now)) r }
    ensures ends { (words : List (List ℕ)) → Lawful words options.now
        → EndsFor W.makes W.gives words (F.told files.old) (F.told files.new) (status_of result) (text_of result) }
    ensures reads { KeepsLastRead (status_of result) (F.told files.old) (F.told files.new) }
{
    let Ok(names) = names_got(alloc, options) else {
        return Ended::OutOfMemory;
    };
    let contents = match got_all(alloc, files, &names, longest_behind(options)) {
        Ok(contents) => contents,
        Err(GetStop::Failed(i)) => return not_got(alloc, &names, i),
        Err(GetStop::NoMemory) => return Ended::OutOfMemory,
    };
    look_at_all(&contents);
    let output = match answer(alloc, options, &contents) {
        Ok(output) => output,
        Err(GraphErr::Refused(refusal)) => return was_refused(alloc, options, &refusal),
        Err(GraphErr::NoMemory) => return Ended::OutOfMemory,
    };
    let Ok(text) = done_text(alloc, options, &output) else {
        return Ended::OutOfMemory;
    };
    let differs = output.differs;
    let partly = output.partly;
    let Ok(all) = made_ready(alloc, output.puts.into_vec()) else {
        return Ended::OutOfMemory;
    };
    match put_all(files, all) {
        Ok(()) => all_put(differs, partly, text),
        Err(text) => Ended::NotPut(text),
    }
}

// The run of lawful words that ask for a demonstration.
fn run_demo<W: Work, A>(alloc: Global, options: &Options, n: u32, work: &W, answer: &A) -> Ended
where
    A: Fn(Global, &Options, &[Vec<u8>]) -> Result<Output, GraphErr>,
    requires demo { options.now.demo ≡ Some n }
    requires fits { (2 ≤ n) × (n ≤ 10000) }
    requires callable { A.IsAlwaysCallable answer.now }
    requires answers { (a : _) (o : _) (c : _) (r : _) → A.post answer.now a o c r → IsAnswer (W.gives o.now (map (λ v. v.items) c.now)) r }
    ensures { (words : List (List ℕ)) → Lawful words options.now → (told : FilesSeen)
        → EndsFor W.makes W.gives words told told (status_of result) (text_of result) }
{
    let Ok(contents) = work.make(alloc, n) else {
        return Ended::OutOfMemory;
    };
    let Ok(asked) = demo_options(alloc, options) else {
        return Ended::OutOfMemory;
    };
    look_at_all(&contents);
    let output = match answer(alloc, &asked, &contents) {
        Ok(output) => output,
        Err(GraphErr::Refused(refusal)) => return was_refused(alloc, &asked, &refusal),
        Err(GraphErr::NoMemory) => return Ended::OutOfMemory,
    };
    match done_text(alloc, options, &output) {
        Ok(text) => all_put(output.differs, output.partly, text),
        Err(_) => Ended::OutOfMemory,
    }
}

// All is put, and this is said of it.
fn all_put(differs: bool, partly: bool, text: Blob) -> Ended
    ensures status { status_of result ≡ finished differs partly }
    ensures text { text_of result ≡ text }
{
    if differs {
        Ended::Differed(text)
    } else if partly {
        Ended::PartlyPut(text)
    } else {
        Ended::AllPut(text)
    }
}

// The file with that number among these wasn't got.
fn not_got(alloc: Global, names: &[&[u8]], i: usize) -> Ended
    requires { i < length names.now }
    ensures { IsSaid result ReadFault (read_text (get_or (map (λ name. name.now) names.now) i [])) }
{
    match read_text(alloc, names[i]) {
        Ok(text) => Ended::NotGot(text),
        Err(_) => Ended::OutOfMemory,
    }
}

fn was_refused(alloc: Global, options: &Options, refusal: &Refusal) -> Ended
    requires { refusal.now.section ≤ 9 }
    ensures { IsSaid result Refused (refusal_text (name_of_file options.now refusal.now.file) refusal.now) }
{
    let Ok(names) = names_numbered(alloc, options) else {
        return Ended::OutOfMemory;
    };
    match refusal_text(alloc, name_of(&names, options, refusal.file), refusal) {
        Ok(text) => Ended::WasRefused(text),
        Err(_) => Ended::OutOfMemory,
    }
}

// The name of the file with that number: of one of these, or else of the common file.
fn name_of<'a>(names: &[&'a [u8]], options: &'a Options, file: u32) -> &'a [u8]
    requires { map (λ name. name.now) names.now ≡ names_numbered options.now }
    ensures { result.now ≡ name_of_file options.now file }
{
    match names.get(file as usize) {
        Some(name) => name,
        None => common_name(options),
    }
}

// The name of the common file: of one that is made, or of one that is read.
fn common_name(options: &Options) -> &[u8]
    ensures { result.now ≡ common_name options.now }
{
    match &options.common {
        Some(name) => name.as_slice(),
        None => match common_read(options) {
            Some(name) => name.as_slice(),
            None => b"",
        },
    }
}
