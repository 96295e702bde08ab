//! From words to options.

ghost use Rattle.std.specs.Prelude.{◌≡◌, ◌<◌, ◌^◌, All, IfOk, IsErrOf, IsOkUnless, OnOk, List, [], map};
ghost use Rattle.std.specs.Prelude.{IfSome, length, option_map, ◌≤◌};
ghost use Rattle.std.specs.Str.{IsUtf8};
ghost use Rattle.clap.specs.Words.{fault_of, found_of, matches_of, rows_of};
ghost use Rattle.dwz_words.specs.Command.{dwz_command};
ghost use Rattle.dwz_words.specs.Conditions.{FitTogether};
ghost use Rattle.dwz_words.specs.Lawful.{Lawful, options_of, word_bytes};
ghost use Rattle.dwz_words.specs.Plain.{ArePlain, Argument, options_said};
ghost use Rattle.dwz_words.specs.declared.options.Options.{Options};

use crate::command::make_command;
use crate::conditions::fit_together;
use crate::options::{Options, WordsErr};
use clap::ArgMatches;
use clap::error::ErrorKind;
use dwz_model::{Blob, Names, NoMemory};
use std::alloc::Global;
use std::str;

fn blob(alloc: Global, text: &str) -> Result<Blob, NoMemory>
    ensures { IfOk result (λ b. b ≡ text.now) }
{
    Ok(Blob::new(Vec::from_slice(alloc, text.as_bytes())?))
}

fn blob_if_some(alloc: Global, text: Option<&str>) -> Result<Option<Blob>, NoMemory>
    ensures { IfOk result (λ b. b ≡ option_map (λ t. t.now) text.entry) }
{
    match text {
        Some(text) => Ok(Some(blob(alloc, text)?)),
        None => Ok(None),
    }
}

fn names(alloc: Global, texts: &[&str]) -> Result<Names, NoMemory>
    ensures { IfOk result (λ n. n ≡ map (λ t. t.now) texts.now) }
{
    let mut names = Vec::new(alloc);
    for text in texts {
        names.push(blob(alloc, text)?)?;
    }
    Ok(Names::new(names))
}

/// The words as texts, where all of them are UTF-8.
fn texts<'a>(alloc: Global, words: &'a [Vec<u8>]) -> Result<Vec<&'a str>, WordsErr>
    ensures same { IfOk result (λ v. map (λ t. t.now) v.items ≡ word_bytes words.now) }
    ensures utf8 { OnOk result (All IsUtf8 (word_bytes words.now)) }
    ensures usage { IsErrOf result WordsErr.Usage → ¬ (All IsUtf8 (word_bytes words.now)) }
    // as of every slice
    ensures few { length words.now < 2 ^ 64 }
{
    let mut texts = Vec::with_capacity(alloc, words.len())?;
    for word in words {
        match str::from_utf8(word.as_slice()) {
            Ok(text) => texts.push(text)?,
            Err(_) => return Err(WordsErr::Usage),
        }
    }
    Ok(texts)
}

/// The values of the matches.
fn options_of(alloc: Global, matches: &ArgMatches<'_>) -> Result<Options, NoMemory>
    ensures { IfOk result (λ o. o ≡ options_of (rows_of (found_of matches.now))) }
{
    Ok(Options {
        quiet: matches.get_one::<bool>("q").unwrap_or(false),
        common: blob_if_some(alloc, matches.get_str("m"))?,
        name: blob_if_some(alloc, matches.get_str("M"))?,
        out: blob_if_some(alloc, matches.get_str("o"))?,
        workers: matches.get_one::<u32>("j").unwrap_or(4),
        files: names(alloc, matches.get_strs("FILE").unwrap_or(&[]))?,
        demo: matches.get_one::<u32>("demo"),
        explain: matches.get_one::<bool>("explain").unwrap_or(false),
        check: matches.get_one::<bool>("check").unwrap_or(false),
        expand: matches.get_one::<bool>("expand").unwrap_or(false),
        reuse: blob_if_some(alloc, matches.get_str("reuse"))?,
        batch: blob_if_some(alloc, matches.get_str("batch"))?,
        sup: blob_if_some(alloc, matches.get_str("sup"))?,
    })
}

/// The options by `clap` alone.
fn read<'a, 'b>(alloc: Global, texts: &'a [&'b str]) -> Result<Options, WordsErr>
    ensures faultless { OnOk result (fault_of dwz_command (map (λ t. t.now) texts.now) ≡ []) }
    ensures values { IfOk result (λ o. o ≡ options_of (matches_of dwz_command (map (λ t. t.now) texts.now))) }
    ensures workers { IfOk result (λ o. (1 ≤ o.workers) × (o.workers ≤ 64)) }
    ensures demo { IfOk result (λ o. IfSome o.demo (λ n. (2 ≤ n) × (n ≤ 10000))) }
    ensures usage { IsErrOf result WordsErr.Usage
        → ¬ (fault_of dwz_command (map (λ t. t.now) texts.now) ≡ []) }
{
    let command = make_command(alloc)?;
    match command.try_get_matches_from(texts) {
        Ok(matches) => Ok(options_of(alloc, &matches)?),
        Err(error) => {
            if error.kind() == ErrorKind::OutOfMemory {
                Err(WordsErr::NoMemory)
            } else {
                Err(WordsErr::Usage)
            }
        }
    }
}

/// The options that lawful words ask for. The words are those after the program's name.
pub fn parse(alloc: Global, words: &[Vec<u8>]) -> Result<Options, WordsErr>
    ensures lawful { IfOk result (Lawful (word_bytes words.now)) }
    ensures usage { IsErrOf result WordsErr.Usage
        → (o : Options) → ¬ (Lawful (word_bytes words.now) o) }

    ensures workers { IfOk result (λ o. (1 ≤ o.workers) × (o.workers ≤ 64)) }
    ensures demo { IfOk result (λ o. IfSome o.demo (λ n. (2 ≤ n) × (n ≤ 10000))) }

    // `clap` names no fault in plain words.
    ensures plain_read { (arguments : List Argument) → ArePlain (word_bytes words.now) arguments
        → fault_of dwz_command (word_bytes words.now) ≡ [] }
    // Plain words that are text, and whose options fit together, are lawful, and ask for what they say.
    ensures plain_taken { (arguments : List Argument) → ArePlain (word_bytes words.now) arguments
        → All IsUtf8 (word_bytes words.now) → FitTogether (options_said arguments)
        → IsOkUnless result WordsErr.NoMemory }
    ensures plain_said { (arguments : List Argument) → ArePlain (word_bytes words.now) arguments
        → IfOk result (λ o. o ≡ options_said arguments) }
{
    let texts = texts(alloc, words)?;
    let options = read(alloc, texts.as_slice())?;
    if fit_together(&options) {
        Ok(options)
    } else {
        Err(WordsErr::Usage)
    }
}
